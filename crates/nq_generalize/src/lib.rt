//! GEN: calls that stand in a goal twice are replaced by new variables.
//!
//! `generalize_move` leads a goal on exactly where it has a call that may be generalized, and to the goal of a GEN on its path. Which of
//! these calls are replaced is a choice: the smallest ones, as `(REV X)` and not `(APP (REV X) Y)` where both stand on the two sides of
//! an equation. The way back is `nq_moves::close_move`.
#![tactic(auto)]

// answers of two tests
mod answers;

// what may be generalized
mod candidates;
mod general;
mod sides;
mod twice;

// which of it is generalized
mod least;

// the literals of a path
mod literals;

// the move
pub mod laws;
mod moving;

pub use moving::generalize_move;
