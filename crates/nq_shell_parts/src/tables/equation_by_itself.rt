//! The table of the law `equation_by_itself`. It is printed.

use nq_replay::words::{EQUAL, NOT, X, Y};
use nq_replay::{Law, LawRule};

/// The law `equation_by_itself`.
pub const EQUATION_BY_ITSELF: Law = Law {
    names: &[],
    terms: &[X, Y, EQUAL, NOT, X, Y, EQUAL, NOT, NOT],
    rules: &[LawRule::Taut(&[0, 1])],
};
