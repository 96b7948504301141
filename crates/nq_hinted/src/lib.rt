//! Lemmas that follow from the instances that their hints name by the table of truth.
#![tactic(auto)]

// nests, and their lines
mod nests;

// the lines of instances, and what is cut by them
mod cited;
mod cutting;

// the line of a lemma
mod uncounted;

// lemmas
mod hinted;

pub use hinted::prove_hinted;
