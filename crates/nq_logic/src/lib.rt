//! The logic of Boyer and Moore, on which everything else rests: what a term, a formula, a history and a derivation are,
//! and when a definition or a shell may be added. The definitions stand in `specs/`; a formula is proved where
//! `Derivable history formula` of `specs/Derivations.antt` holds.
//!
//! Each function's contract is a law and its body is empty: what a caller gets from it is the law.
//!
//! - `laws`: derivable clauses lead to derivable clauses. The layers above use these alone, and no derivation.
//! - `histories`: what holds of whole histories and of the tests on them.
//! - `examples`: the tables of the ground history and of the shell axioms as they are written, and worked examples of
//!   the other definitions, so that no slip of the pen in a definition goes unnoticed.
#![tactic(auto)]

pub mod examples;
pub mod histories;
pub mod laws;
