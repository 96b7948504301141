//! The Shell Principle: which shells are accepted, and the axioms that hold of them.
//!
//! `admit_shell` is Ok exactly where the Shell Principle accepts a shell and there is room for it, and else tells the first
//! fault. `shell_axiom` gives the clause in a row of the table of shell axioms, or None exactly where the table has none.
#![tactic(auto)]

// whether a name is among others
mod listed;

// which shells are accepted
mod admission;

// the terms of the axioms
mod drafts;

// the rows of the table of axioms
mod rows;

// which rows there are
mod part_table;
mod table;

// the axioms
mod axioms;

pub use admission::{ShellFault, admit_shell};
pub use axioms::{Clause, shell_axiom};
pub use table::put_row;
