//! The prover: the first pass, and then a search by its own tactic for the line of a lemma, under the instances that its hints name.
//!
//! A goal is simplified, each literal under the negations of the others, and split on its IFs. What is left is refuted by linear
//! arithmetic, led on by moves and simplified again, or led on by inductions. Each way keeps what makes a line of the goal from lines
//! of the goals to which it leads (`specs/Ways`); which ways are tried, and in which order, has no contract.
#![tactic(auto)]

// the ways that lead a goal on
mod way;

// what terms are
mod reading;

// goals that are simplified
mod simplifying;

// lines that close goals
mod arithmetic;
mod circular;
mod comparisons;
mod numbers;
mod objects;
mod tested;
mod told_truths;
mod trivial;

// goals that have counterexamples
mod refuting;

// each way, and the way back
mod closing;
mod generalizing;
mod inducting;
mod leading;

// what is tried, in which order
mod lightly;
mod order;
mod substitutions;

// the tactic, and which lines it found
mod remembered;
mod tactic;

// instances that hints name
mod uses;

// eliminations
mod eliminating;

// of what kind the calls of functions are
mod guessing;
mod kinds;
mod truth_lines;
mod truths;

// how measures fall
mod falls;

// lemmas
mod lemmas;

// the first pass, and then the search
mod prover;

pub use prover::Searcher;
pub use tactic::Waterfall;
pub use way::{Induction, Way};
