//! The driver of the waterfall: it solves a goal depth first by a mover's moves, and gives a proof, or a tree of goals some of
//! which are left over.
#![tactic(auto)]

// goals on the way, steps, and the list of both
mod trail;

// what moves goals
mod mover;

// why goals are left
mod halt;

// goals solved depth first
mod solving;

// a first goal
mod first;

// instances that hints name
mod uses;

// laws of what is derivable
pub mod laws;

pub use first::{Outcome, solve_first};
pub use halt::Halt;
pub use mover::{Lead, Mover, Turn};
pub use solving::{Place, Solved, solve};
pub use trail::{Ancestor, Trail};
pub use uses::{Used, prove_by};
