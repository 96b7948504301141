//! The table of the law `one_less_by_no_zero`. It is printed.

use crate::table::{Law, LawRule};
use crate::words::{NOT, X, ZEROP};

/// The law `one_less_by_no_zero`.
pub const ONE_LESS_BY_NO_ZERO: Law = Law {
    names: &[],
    terms: &[X, ZEROP, NOT, X, ZEROP, NOT, NOT, X, ZEROP],
    rules: &[LawRule::Taut(&[0, 1]), LawRule::Cut(1, 2, 2)],
};
