ghost use Rattle.std.specs.Prelude.{ℕ, List, Option, OnOk, OnErr};
ghost use Rattle.std.specs.Io.KnownBytes.{Appends};
ghost use Rattle.nq_io.specs.Faults.{HasSinkCause};
ghost use Rattle.nq_io.specs.Told.{AppendsPart};

use thiserror::Error;

/// Why a sink did not take all the bytes.
#[derive(Clone, Copy, Debug, PartialEq, Eq, Error)]
pub enum SinkFault {
    /// The sink could not be written. Its count of faults rose.
    #[error("the sink could not be written")]
    Failed,
    /// There was no memory for the bytes.
    #[error("out of memory")]
    Memory,
}

/// Where bytes go.
pub trait Sink {
    /// The bytes written so far, where the sink tells them.
    ghost written: { Self → Option (List ℕ) };

    /// How often writing has failed: a number that never falls.
    ghost faults: { Self → ℕ };

    /// Appends the bytes. After an error a first part of them was appended.
    fn write_all(&mut self, bytes: &[u8]) -> Result<(), SinkFault>
        ensures ok { OnOk result (Appends (written self.old) (written self.new) bytes.now) }
        ensures err { OnErr result (AppendsPart (written self.old) (written self.new) bytes.now) }
        ensures cause { HasSinkCause (faults self.old) (faults self.new) result };
}
