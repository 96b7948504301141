//! Whether terms are over the functions of a history, with variables that a log can spell.
#![tactic(auto)]

// variables that a log can spell
mod spelling;

// terms
mod own;

pub use own::is_own;
