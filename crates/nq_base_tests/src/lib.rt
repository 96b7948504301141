//! Tests of the bank and of the crates of texts, over what these make public. They stand in a crate of their own, since a crate
//! with tests is proved twice.
#![tactic(auto)]

#[cfg(test)]
mod bank;
#[cfg(test)]
mod logtext;
#[cfg(test)]
mod print;
#[cfg(test)]
mod sexp;
