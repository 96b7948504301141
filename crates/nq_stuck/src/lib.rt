//! Whether a goal is stuck: whether it is in normal form, no move leads on from it, and no call in it suggests an induction.
#![tactic(auto)]

// why a search ends early
mod fault;

// lists of ids, and the calls of terms
mod calls;
mod lists;

// equations
mod equations;

// the names of shells
mod shells;

// SUBST
mod substituting;

// FERT
mod fertile;

// GEN
mod common;

// ELIM
mod destructors;

// IRR
mod dropping;

// goals
mod goal;

pub use calls::calls_in;
pub use common::is_kept;
pub use equations::{atom_of, is_comparison};
pub use fault::Fault;
pub use goal::{is_left_to_groups, is_left_to_induction, is_stuck};
pub use shells::is_part;
