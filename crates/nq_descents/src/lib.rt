//! Sizes that descend by the axioms of shells: the COUNT of a nest of accessors is below that of the term around which it
//! stands, under tests that say at each level that the constructor made the term there.
//!
//! The lines are tried. A step that is not allowed ends the attempt, and the last line is told only where it has no other
//! literals than those that were asked for. So no contract speaks of a line before that, and none says when there is one. No
//! step is counted.
#![tactic(auto)]

// why an attempt ends
mod halt;

// which terms a line may speak of
mod own;
mod spelling;

// what is read from lines and terms
mod reading;

// single lines, and terms that are made
mod instances;
mod making;
mod rules;

// the functions of shells
mod shells;

// a value that is made of its parts, and a part of it that is smaller
mod apart;
mod parts;
mod sizes;

// a part whose default is T or F
mod choices;
mod restrictions;
mod tables;
mod truths;

// the tests that say so, in the spelling that is wanted
mod bases;

// what follows from tests
mod facts;

// nests
mod nests;

// the line that was asked for
mod descents;

pub use descents::descent_line;
