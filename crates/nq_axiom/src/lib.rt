//! The axioms of a history over the terms of a bank: which there is under a name, in a row, for a part.
//!
//! `axiom_steps` gives the steps that make the literals of the axiom, and none exactly where there is no such axiom: so that
//! is told before any term is made. The rows are those of the ground symbols, the opening of each definition, and the rows
//! of each shell.
#![tactic(auto)]

// the rows of the ground symbols
mod ground_rows;

// what opens a definition
mod openings;

// the rows of the shells
mod shell_rows;

// all rows
mod axioms;

pub use axioms::axiom_steps;
pub use openings::Definition;
