//! Type sets: what kind of object a term is, with a line that shows it.
//!
//! A type set has a bit for each recognizer of the history and one for all other objects. `type_of` gives the set of a term under
//! assumptions, and a line that holds only the fact of the set and denials of what is assumed. Which kind T, F, a base and a call
//! of a constructor are of is exact. What other terms are is guessed, and the line that is made decides: it is read literal by
//! literal. Beside denials of what is assumed it may have recognizers of the term, or one literal that says which of them do not
//! hold; where it has another, the answer is the set of all objects.
#![tactic(auto)]

// sets of kinds
mod sets;

// terms whose kind stands in them
mod kinds;

// laws of what functions give, as tables
mod laws;
mod tables;
mod words;

// pairs of the variables of a shell's parts and terms
mod naming;

// lines of bases and calls of constructors, and of T and F
mod constants;
mod making;

// the types of these
mod exact;

// whether a line shows a type
mod judging;
mod outside;
mod showing;

// lines that may: rows and rules at terms, what assumptions tell, and what functions give
mod assumptions;
mod branches;
mod denied;
mod denying;
mod functions;
mod guessing;
mod nesting;
mod numbers;
mod prescriptions;
mod replacing;
mod rows;
mod testing;
mod truths;

// the type of any term
mod types;

pub use kinds::values_have_kinds;
pub use sets::{OTHER_PLACE, TypeSet, has};
pub use types::type_of;
