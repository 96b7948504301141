//! The checker of logs: it reads a log line by line, writes a line for each claim as it is established, and then the
//! verdict.
//!
//! What it accepts is exactly the logs: texts each of whose lines is allowed after the lines before it. Each claim that it
//! writes holds in the history of the claims before it, whatever bytes it reads.
#![tactic(auto)]

// which functions are known
mod arities;

// what stands between two lines, and what a line led to
mod context;
mod judged;
mod waiting;

// the lines of a block: terms, clauses by rules, and claims
mod bodies;
mod claims;
mod closing_lines;
mod definition_lines;
mod inductions;
mod judge;
mod measures;
mod numbers;
mod rule_lines;
mod rule_terms;
mod rules;
mod shell_lines;
mod sums;
mod term_lines;
mod texts;

// a text read line by line, as it comes
mod checker;
mod checking;
mod pieces;

// the verdict and its line
mod verdict;

pub use checking::check;
pub use verdict::{CheckFault, Checked, Refusal, verdict_line};
