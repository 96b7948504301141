//! What one part adds to the size of an object.

use nq_bank::TermId;

/// An equation of the size of an object that a shell's constructor makes of its variables, and the terms in it that speak of one
/// part.
#[derive(Clone, Copy, Debug, PartialEq, Eq)]
pub struct Piece {
    /// That the size of the object is one more than a sum.
    pub equation: TermId,
    /// The object.
    pub object: TermId,
    /// One more than the sum.
    pub successor: TermId,
    /// The sum of what the parts add.
    pub sum: TermId,
    /// What the part adds.
    pub size: TermId,
    /// That the part meets its restriction.
    pub allowed: TermId,
    /// The variable in the part's place.
    pub variable: TermId,
}
