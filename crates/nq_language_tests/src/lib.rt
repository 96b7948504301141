//! Tests of the crates that read terms and events from forms, over what these make public. They stand in a crate of their own,
//! since a crate with tests is proved twice.
#![tactic(auto)]

// forms of texts, and texts of answers
#[cfg(test)]
mod texts;

// the tested crates
#[cfg(test)]
mod abbrev;
#[cfg(test)]
mod admit;
#[cfg(test)]
mod event;
