//! The table of the rules of a history: which rules of class REWRITE there are about a function, learnt entry by entry.
//!
//! A rule is a part of the conclusion of an axiom or a lemma of class REWRITE. It is about the function that its left side is a
//! call of. `HasLearnt` says that a table has learnt just these entries: for each function it has just their rules about it.
#![tactic(auto)]

// a rule, and a name that was disabled or enabled
mod rule;

// the parts of a conclusion, and what they say
mod parts;

// rules in lists, one for each function
mod lists;
mod putting;

// which names are enabled
mod enabling;

// the table
mod table;

pub use rule::{RuleRef, Toggled};
pub use table::Rules;
