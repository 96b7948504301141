//! The table of the law `smaller_as_others_are`. It is printed.

use nq_replay::words::{A, B, COUNT, LESSP, NOT, X, Y};
use nq_replay::{Law, LawRule};
use nq_rule::Side;

/// The law `smaller_as_others_are`.
pub const SMALLER_AS_OTHERS_ARE: Law = Law {
    names: &[],
    terms: &[
        X, COUNT, Y, COUNT, LESSP, X, COUNT, Y, COUNT, LESSP, NOT, B, A,
    ],
    rules: &[
        LawRule::Taut(&[0, 1]),
        LawRule::Replace(1, 1, &[2, 1], 2, Side::Backwards),
        LawRule::Replace(2, 1, &[1, 1], 3, Side::Backwards),
    ],
};
