//! Whether a goal is in normal form, whether it is ground, and whether a call in it suggests an induction, exactly as nq_goals
//! says it.
//!
//! A goal is normal where it passes four tests on its open occurrences and one on its literals. The tests on single
//! occurrences are `barred`; `open` walks a term with a table over ids, so that a shared term is walked once.
#![tactic(auto)]

// what is looked for, and where
mod known;
mod open;
mod sought;

// open occurrences that bar a goal
mod barred;
mod definitions;
mod openings;
mod shells;

// literals
mod atoms;
mod opposites;
mod settled;

// variables
mod variables;

// calls that suggest an induction
mod numerals;
mod suggesting;

// rules
mod matching;
mod parts;
mod rules;

// goals
mod goal;

pub use goal::{is_normal, is_plain};
pub use matching::{is_instance, is_permutative};
pub use openings::is_enabled_for;
pub use suggesting::suggests_induction;
pub use variables::{has_own, is_ground};
