//! Single steps of rewriting, and how they are put together.
//!
//! A step takes a term and what is assumed, and gives a term and a line that has only the equation of the two and the NOTs of what
//! is assumed; where it doesn't apply, it gives the term itself and no line. No step rewrites what comes of it: that is the
//! rewriter's work, which stands above. What is tried, and in which order, is said by no contract.
#![tactic(auto)]

// what a rewriting comes to
mod results;

// one rewriting after another
mod following;

// rewritten arguments
mod congruence;

// what is known of a term
mod knowledge;

// the branches of an IF
mod branches;

// an IF that is joined from its branches
mod joining;
mod whole;

// terms whose NOT is assumed
mod assumptions;

// what shown terms make of a term
mod held;

// rows of the tables of axioms, and instances of them
mod clauses;

// calls on values
mod values;

// the shells of a history
mod kinds;

// what is known of a term at once, and literals that are dropped for it
mod dropping;
mod settling;

// what rows make of a term
mod rows;
mod trials;

// the kinds of objects just made
mod made;

// objects just made: what they were made of, and which parts of two are one
mod alike;
mod part_cases;
mod same_parts;
mod unequal;

// an object as made of its parts, and what each case of it leads to
mod cases;
mod moved;
mod parted;

// the mechanisms
mod bases;
mod defaults;
mod distinct;
mod divided;
mod equal_parts;
mod equations;
mod irreflexive;
mod recognizing;
mod restricted;
mod shells;
mod truths;

// one step on a call, by the first mechanism that knows one
mod reducing;

pub use assumptions::by_assumption;
pub use branches::{choose, known_before, with_more};
pub use congruence::{argument_count, argument_of, congruent};
pub use dropping::kept_among;
pub use following::follow;
pub use held::{conclusion_for, opening_of, relieved, rewritten_by};
pub use knowledge::{Known, known_truth};
pub use reducing::reduce_call;
pub use restricted::settled;
pub use results::{Rewritten, unchanged};
pub use whole::join;
