//! Laws of remainders as tables of rule lines, and their lines in a log. No step is counted.
//!
//! The tables are printed. The laws stand on lines that say that a difference is smaller, in two ways.
#![tactic(auto)]

// the tables
mod tables;
mod words;

// the lines on which the laws stand
mod steps;

// which laws there are
mod laws;

// their lines
mod lines;

pub use laws::DivisionLaw;
pub use lines::division_line;
