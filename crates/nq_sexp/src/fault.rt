ghost use Rattle.std.specs.Prelude.{◌≡◌};
ghost use Rattle.nq_sexp.specs.declared.fault.ReadFault.TheVariants.{Memory};

use std::alloc::{AllocError, AllocFailed};
use thiserror::Error;

/// Why no form was read. A place is an offset in the text, from 0.
#[derive(Clone, Copy, Debug, PartialEq, Eq, Error)]
pub enum ReadFault {
    /// A closing parenthesis where no list is open; or the end in a list, a string or a comment, with
    /// the place of the outermost list, or of the string or comment where no list is open.
    #[error("unbalanced at byte {0}")]
    Unbalanced(u64),
    /// A byte or token of no kind, a misplaced dot, or a quote mark without a form.
    #[error("bad token at byte {0}")]
    BadToken(u64),
    /// A numeral of 2^128 or more, with the place of its first byte.
    #[error("numeral too wide at byte {0}")]
    NumeralTooWide(u64),
    /// A list or a quote at level 501.
    #[error("too deep at byte {0}")]
    TooDeep(u64),
    /// 2^25 bytes were taken and more are there.
    #[error("the file is too long")]
    FileTooLong,
    /// The source could not be read: its count of faults rose.
    #[error("the source could not be read")]
    Read,
    /// There was no memory for the form.
    #[error("out of memory")]
    Memory,
}

impl From<AllocError> for ReadFault {
    ghost from_gives = { λ _ e. e ≡ Memory };

    fn from(_: AllocError) -> Self {
        ReadFault::Memory
    }
}

impl<T: Drop> From<AllocFailed<T>> for ReadFault {
    ghost from_gives = { λ _ e. e ≡ Memory };

    fn from(_: AllocFailed<T>) -> Self {
        ReadFault::Memory
    }
}
