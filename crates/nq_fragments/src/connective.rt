//! The connectives.

/// A function that joins two propositions.
#[derive(Clone, Copy, Debug, PartialEq, Eq)]
pub enum Connective {
    /// AND.
    And,
    /// OR.
    Or,
    /// IMPLIES.
    Implies,
    /// IFF.
    Iff,
}
