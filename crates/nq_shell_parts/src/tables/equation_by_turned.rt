//! The table of the law `equation_by_turned`. It is printed.

use nq_replay::words::{EQUAL, NOT, X, Y};
use nq_replay::{Law, LawRule};
use nq_rule::Side;

/// The law `equation_by_turned`.
pub const EQUATION_BY_TURNED: Law = Law {
    names: &[],
    terms: &[
        Y, Y, Y, EQUAL, NOT, Y, Y, EQUAL, NOT, NOT, Y, Y, EQUAL, X, Y, X, EQUAL, NOT, NOT, NOT, Y,
        X, EQUAL, NOT, NOT,
    ],
    rules: &[
        LawRule::Reflexive(0),
        LawRule::Taut(&[1, 2]),
        LawRule::Cut(1, 2, 3),
        LawRule::Replace(3, 1, &[1, 1, 2], 4, Side::Backwards),
        LawRule::Taut(&[5, 6]),
        LawRule::Cut(4, 5, 6),
    ],
};
