//! Why no event was read.
ghost use Rattle.std.specs.Prelude.{◌≡◌};
ghost use Rattle.nq_event.specs.Outlines.{refusal_at};
ghost use Rattle.nq_event.specs.Faults.{IsTold};
ghost use Rattle.nq_event.specs.declared.fault.EventFault.TheVariants.{Memory};

use crate::refusal::Refusal;
use std::alloc::{AllocError, AllocFailed, Global};
use thiserror::Error;

/// Why no event was read of a form.
#[derive(Debug, Drop, Error)]
pub enum EventFault {
    /// The form is refused, with this code and these words.
    #[error("the form is refused with code {0}")]
    Refused(u16, Vec<Vec<u8>>),
    /// Memory is wanting.
    #[error("out of memory")]
    Memory,
}

impl From<AllocError> for EventFault {
    ghost from_gives = { λ _ e. e ≡ Memory };

    fn from(_: AllocError) -> Self {
        EventFault::Memory
    }
}

impl<T: Drop> From<AllocFailed<T>> for EventFault {
    ghost from_gives = { λ _ e. e ≡ Memory };

    fn from(_: AllocFailed<T>) -> Self {
        EventFault::Memory
    }
}

/// The fault that tells a refusal, or want of memory for its words.
pub fn refused(alloc: Global, refusal: Refusal<'_>) -> EventFault
    ensures { IsTold (refusal_at refusal.entry) result }
{
    match refusal.words(alloc) {
        Ok(words) => EventFault::Refused(refusal.code(), words),
        Err(_) => EventFault::Memory,
    }
}
