//! The IF cases of terms and goals.
#![tactic(auto)]

// goals that stand for goals
mod laws;

// how many IF paths a term has
mod paths;

// an IF that stands in no branch of another one
mod finding;

// the terms with its branches in its place
mod choosing;

// the cases of a term
mod cases;

pub use cases::if_cases;
pub use choosing::{Choice, choose};
pub use laws::{cases_simplify, replaced_literal, splits_count, splits_simplify};
pub use paths::{count_paths, has_if, paths_within};
