//! An inductor of the legal mover: inductions by one case, with the measure of the function that a call calls, and the first of the
//! recursive calls in its body. Each call of the goal that suggests an induction is tried in turn.
#![tactic(auto)]

// the calls that suggest inductions
mod suggesting;

// what is found in the bank
mod finding;

// the goals
mod goals;

// steps
mod counting;

// the inductor
mod inducting;

pub use inducting::OneCase;
