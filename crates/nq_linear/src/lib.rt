//! Refutations of literals by linear arithmetic: literals that cannot all be false, since a sum of their expressions is
//! negative whatever the numbers of their atoms are.
//!
//! `find` looks for the literals and their factors in a bank, and `refute` adds the line LINEAR of what was found.
#![tactic(auto)]

// the literals' expressions
mod rows;

// a quick test of two expressions
mod filter;

// one literal, and two
mod pairs;

// sums of several, each so many times
mod atoms;
mod elimination;
mod inequality;
mod ratio;
mod rounds;

// why a literal has no expression
mod faults;

// what is found in literals, and the line of it
mod answer;
mod refuting;

pub use answer::{Found, eliminates, find};
pub use refuting::{LinearAnswer, refute};
