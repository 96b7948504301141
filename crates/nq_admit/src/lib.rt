//! Which definitions are refused: the tests of the Definition Principle but for its measure, which is sought elsewhere.
//!
//! The contract that the layer above uses is that of `admit`.
#![tactic(auto)]

// formals that are no variables, or stand twice
mod formals;

// variables of bodies and measures
mod terms;

// the principle itself
mod admission;

pub use admission::{AdmitFault, admit};
pub use formals::{first_constant, first_repeated};
