//! Why an attempt ends.

use std::alloc::AllocError;

/// Why an attempt at a line ends.
#[derive(Clone, Copy)]
pub enum Halt {
    /// Memory is wanting.
    Memory,
    /// A step is not allowed, or a term would be too deep.
    Stuck,
}

impl From<AllocError> for Halt {
    fn from(_error: AllocError) -> Halt {
        Halt::Memory
    }
}
