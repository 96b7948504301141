//! Propositions over variables that are false for some truth of them: how their goals fail.
#![tactic(auto)]

pub mod laws;
