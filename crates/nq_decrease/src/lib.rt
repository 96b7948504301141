//! Parts of values are smaller than the values: lines of this for the ground shells and for shells of users, without counting a step.
#![tactic(auto)]

// parts, and the tests under which they are smaller
mod level;

// the shells of the ground history
mod kind;

// tests that say which kind of value a term is
mod guard;

// terms that are read
mod calls;

// which tests are there, and which level they allow
mod choosing;
mod guards;

// the same of users' shells
mod own_guards;
mod own_tests;

// a part of a term
mod levels;
mod own_level;
mod own_levels;

// descents that are joined
mod joining;

// nests
mod descents;
mod own_nests;

// which tests they need
mod laws;

pub use calls::{Equation, OneCall};
pub use descents::{decrease, size_is_ordinal};
pub use guard::Guard;
pub use kind::Kind;
pub use laws::structural_filtered;
pub use level::Level;
pub use levels::level_line;
pub use own_guards::{guard_is_exact, own_guard};
pub use own_level::OwnLevel;
pub use own_tests::{OwnGuard, OwnTest};
