//! The table of the law `first_by_no_atom`. It is printed.

use crate::table::{Law, LawRule};
use crate::words::{EQUAL, LISTP, NLISTP, NOT, X};
use nq_bank::ground;
use nq_rule::Side;

/// The law `first_by_no_atom`.
pub const FIRST_BY_NO_ATOM: Law = Law {
    names: &[],
    terms: &[
        X, LISTP, NOT, NOT, X, LISTP, NOT, NOT, NOT, X, NLISTP, X, NLISTP, X, LISTP, NOT, EQUAL, X,
        LISTP, NOT,
    ],
    rules: &[
        LawRule::AxiomRow(ground::NLISTP, 1, 0),
        LawRule::Taut(&[0, 1]),
        LawRule::Replace(3, 2, &[1, 1], 2, Side::Backwards),
        LawRule::Cut(2, 4, 3),
        LawRule::Cut(1, 5, 4),
    ],
};
