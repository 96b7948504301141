//! The rewriter: the arguments of a call first, then the call, by what is assumed, by rules whose hypotheses are relieved, and
//! by openings; what comes of a step is rewritten again.
//!
//! Each mechanism has one contract: it gives a term, and a line that has only the equation of the old term and the new one and
//! the NOTs of what is assumed. So `(APPEND (CONS A B) C)` gives `(CONS A (APPEND B C))` by one opening, whose IF is taken by its
//! test, while `(APPEND B C)` stays. What is tried, and in which order, is decided in `way` and in the modules before it, and no
//! contract speaks of it.
#![tactic(auto)]

// walks over terms, and the order of terms
mod terms;

// the rules that the table of a history does not have by itself
mod rules;

// what is worth opening
mod measures;

// what a rewriting stands within, and what it learns
mod learnt;
mod search;
mod way;

// what is known of the kinds of calls
mod kinded;
mod kinds;
mod told_kinds;
mod true_calls;

// what linear arithmetic tells of tests, and of differences
mod arithmetic;
mod cancelling;
mod comparable;
mod differences;

// rules with variables that their left sides do not bind
mod binding;

// which part of a conclusion serves
mod parts;

// equations of truth values
mod comparing;

// laws of IF
mod conditions;

// numbers that are made of their own parts
mod remade;

// single steps
mod steps;

// what is asked of an object: a part or its kind
mod asking;
mod questions;
mod telling;

// the recursion: what stands within a term, then the term itself by assumptions and openings, and by rules
mod opening;
mod outside;
mod reducing;
mod remaking;
mod rewriting;
mod selecting;
mod testing;

// the rewriter
mod entrance;

pub use entrance::{rewrite, rewritten};
pub use kinds::{kind_fact, kind_line, known_recognizer, named_function, one_call};
pub use learnt::Learnt;
pub use rules::{Head, nested_heads};
pub use telling::is_constructor;
pub use told_kinds::told_kind;
pub use true_calls::{is_known_truth, known_at};
