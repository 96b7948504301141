//! The shells of the ground history.

/// A shell of the ground history.
#[derive(Clone, Copy, Debug, PartialEq, Eq)]
pub enum Kind {
    /// ADD1, with the base ZERO.
    Numbers,
    /// CONS.
    Pairs,
    /// PACK.
    Atoms,
    /// MINUS.
    Negatives,
}
