ghost use Rattle.std.specs.Prelude.{ℕ, ◌<◌, List, Option, length};
ghost use Rattle.std.specs.Io.{ReadsAtMost};
ghost use Rattle.std.specs.Io.KnownBytes.{ReadConsumes};
ghost use Rattle.nq_io.specs.Faults.{HasCause};

use thiserror::Error;

/// A source could not be read. Its count of faults rose.
#[derive(Clone, Copy, Debug, PartialEq, Eq, Error)]
#[error("the source could not be read")]
pub struct Failed;

/// Where bytes come from.
pub trait Source {
    /// The bytes still to come, where the source tells them.
    ghost left: { Self → Option (List ℕ) };

    /// How often reading has failed: a number that never falls.
    ghost faults: { Self → ℕ };

    /// Moves the next bytes into the front of the buffer, which is not empty, and says how many. 0 is
    /// the end, where no bytes are left. After an error no bytes were taken.
    fn read(&mut self, buf: &mut [u8]) -> Result<usize, Failed>
        requires { 0 < length buf.old }
        ensures bound { ReadsAtMost result buf.new }
        ensures bytes { ReadConsumes (left self.old) (left self.new) result buf.new }
        ensures cause { HasCause (faults self.old) (faults self.new) result };
}
