//! The table of the law `same_is_equal`. It is printed.

use nq_replay::words::X;
use nq_replay::{Law, LawRule};

/// The law `same_is_equal`.
pub const SAME_IS_EQUAL: Law = Law {
    names: &[],
    terms: &[X],
    rules: &[LawRule::Reflexive(0)],
};
