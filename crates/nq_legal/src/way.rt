//! What is kept of a move, for the way back.
use nq_moves::Moved;
use nq_simplify::Way as Steps;

/// What is kept of a move, for the way back.
#[derive(Drop)]
pub enum Way {
    /// The steps of a simplification.
    Simplified(Steps),
    /// A move of SUBST, ELIM, FERT, GEN or IRR.
    Moved(Moved),
    /// An induction, of which no way back is kept.
    Inducted,
}
