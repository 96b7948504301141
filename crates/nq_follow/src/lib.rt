//! The trace of the moves of a mover: from a goal to all goals to which its moves lead, depth first, whether they are proved or not.
#![tactic(auto)]

// the goals on the way down, and the steps
mod trail;

// goals that are followed
mod following;

// a first goal
mod first;

pub use first::follow_first;
