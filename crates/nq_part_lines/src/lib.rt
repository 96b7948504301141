//! Lines that a part of a value that a shell's constructor made is smaller than the value, without counting a step.
#![tactic(auto)]

// single lines, and terms
mod cutting;
mod five;
mod lines;
mod replacing;
mod rows;
mod terms;

// terms that are read from lines
mod piece;
mod reading;

// a summand is less than one more than the sum
mod sums;

// T and F, where they are defaults
mod choices;
mod defaulted;
mod free;
mod kinds;
mod meets;
mod others;

// what an accessor takes from an object that was just made is smaller than the object
mod objects;
mod taken;

// a part of a value is smaller than the value
mod wholes;

// lines over the history's own functions, and constants
mod own;

// what is known of shells
mod laws;

pub use cutting::cut_by;
pub use laws::known_shells;
pub use lines::{at_term, at_three, cut};
pub use own::{at_own, base_term};
pub use terms::{smaller_term, variable};
pub use wholes::part_line;
