//! The trace of a proof by moves, made beside the search.
#![tactic(auto)]

// the calls of a function within its body
mod sites;

// the case of a recursive call: its test, and what the variables become
mod changes;
mod drafts;
mod terms;
mod tests;

// the goals of an induction, by a call that suggests it
mod claims;
mod finding;
mod leading;
mod nexts;

// an induction from a goal
mod induction;

// laws of schemes
mod laws;

pub use induction::{induct_by, induct_on, induction_from};
pub use laws::{calls_give_cases, definitions_fall};
pub use nexts::Nexts;
