//! A free search for a line of a goal, over any tactic: depth first, with going back to other ways of the same goal.
//!
//! What it owes is a line with only the goal's literals. Which ways are tried, in which order and how long, no contract says.
#![tactic(auto)]

// how long a search goes on
mod plan;

// what leads goals on
mod tactic;

// the search
mod searching;

pub use plan::Plan;
pub use searching::seek;
pub use tactic::{Led, Tactic};
