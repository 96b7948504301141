//! Laws of numbers as tables of rule lines, and their lines in a log. No step is counted.
//!
//! The tables are printed. A law by induction stands on the line that the size of a smaller number is smaller.
#![tactic(auto)]

// the tables
mod tables;

// which laws there are
mod laws;

// their lines
mod lines;

pub use laws::{InductiveLaw, PlainLaw};
pub use lines::{inductive_line, plain_line};
