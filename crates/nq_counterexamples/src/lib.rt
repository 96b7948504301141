//! Counterexamples: goals are tried on small values, before work is spent on them.
//!
//! Each variable of a goal gets a value of the kind that the goal tells of it, by dice that always fall alike. A goal of which
//! every literal is F then has a counterexample. What is answered decides only what is tried, so no contract speaks of it: a
//! trial ends after so many steps, and a value that is not found in them tells nothing.
#![tactic(auto)]

// what a trial can't tell
mod stuck;

// values, and those of calls
mod basic;
mod evaluating;
mod numbers;
mod shells;
mod trial;

// small values
mod choosing;
mod dice;

// the variables of a goal, with their kinds
mod variables;

// goals that are tried
mod refuting;

pub use refuting::{is_one_refuted, is_one_refuted_soon, is_refuted};
