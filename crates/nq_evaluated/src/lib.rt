//! Goals that are proved by their value: a ground goal that evaluates to another value than F is proved by the line of that
//! value.
#![tactic(auto)]

// whether a term has a variable
mod ground;

// the line of a goal, from its value
mod evaluated;

pub use evaluated::prove_by_value;
