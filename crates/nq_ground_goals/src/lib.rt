//! Whether a goal is false: whether it has no literal, or all its literals are ground and have the value F.
#![tactic(auto)]

// one literal
mod literal;

// goals
mod goal;

pub use goal::is_false;
