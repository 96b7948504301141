//! Why a search for candidates ends early.

/// Why a search for candidates ends early.
#[derive(Clone, Copy, Debug, PartialEq, Eq)]
pub enum Fault {
    /// There is no memory.
    Memory,
    /// The goal has too many calls to be looked at.
    TooMany,
}
