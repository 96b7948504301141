//! What honest giving up means: the normal form of a goal, the moves that lead from a goal to others, and the tree of goals
//! that a failed lemma carries. Definitions and laws on trees; the functions have empty bodies.
//!
//! Where to read:
//!
//! - `specs/Normal`: the normal form of a goal, in five parts.
//! - `specs/Substituting`, `Eliminating`, `Fertilizing`, `Generalizing`, `Dropping`: of each move its candidates and its goals.
//! - `specs/Inducting`: which calls suggest an induction, and the schemes; `specs/Simplifying`: right in both directions.
//! - `specs/Moves`: the seven moves together, and the rules that hold of all of them.
//! - `specs/Spent`: the causes for which a goal is left over; `specs/Trees`: the tree of a failure.
//! - `specs/Decided`: the lemmas that get an answer whatever the step limit.
//!
//! Each test computes, and `examples` shows it at work: goals that have the form or the candidate, and goals that have not.
//! `laws` says that the tests mean what they are for, and how a solver that goes depth first grows the tree of a failure.
#![tactic(auto)]

mod kinds;

pub use kinds::{Cause, MoveKind};

pub mod examples;
pub mod laws;
