//! The first pass: goals that are proved at once, without counting steps.
//!
//! A goal that is built of IF, NOT, AND, OR, IMPLIES, IFF, T and F over a few other terms, and is true whatever the truth of
//! these is, is proved by a table of truth.
//!
//! For each way to make the other terms true or false, the goal is decided from the inside out, two lines for a node; a line
//! that holds no more than it may is used again in other ways, and a way that doesn't matter isn't taken. So a goal takes
//! between a few lines and, at most, three for each node in each way: 2,900 for the parity of eight terms in two orders, which
//! needs all 256 ways.
//!
//! A goal that is no such tautology, and is ground, is evaluated. Where its value isn't F, the lines of the value and a few more
//! prove it.
//!
//! Any other goal is matched with the axioms and lemmas of the history, oldest first. Where it is an instance of one of them,
//! two lines prove it: the term of the axiom or lemma, and its instance.
#![tactic(auto)]

// what stands at the head of a term
mod heads;

// how many nodes a proposition has
mod nodes;

// the other terms of a proposition
mod others;

// truth under assignments
mod truth;

// which goals are small tautologies
mod tautology;

// lines that are added
mod lines;

// axioms and openings as lines
mod rows;

// lines of an IF
mod choices;

// lines of connectives over P and Q, and their instances
mod instances;
mod patterns;

// lines that are kept, to be used again
mod kept;
mod literals;

// lines that decide a proposition under an assignment
mod assignments;
mod closings;
mod decisions;

// lines of tautologies
mod proving;

// which axiom or lemma a goal is an instance of, and the lines of the instance
mod earlier;
mod fitting;
mod instance_lines;

// the first pass itself, and as a prover
mod first_pass;
mod first_pass_prover;

pub use first_pass::quick;
pub use first_pass_prover::FirstPass;
pub use heads::Head;
pub use others::others_of;
pub use tautology::{has_few_nodes, is_small_tautology, small_tautology};
pub use truth::is_true;
