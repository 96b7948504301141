//! The table of the law `truth_is_no_falsity`. It is printed.

use crate::words::FALSEP;
use nq_bank::ground;
use nq_replay::words::{EQUAL, FALSE, TRUE};
use nq_replay::{Law, LawPair, LawRule};
use nq_rule::Side;

/// The law `truth_is_no_falsity`.
pub const TRUTH_IS_NO_FALSITY: Law = Law {
    names: &[b"X"],
    terms: &[
        FALSE, TRUE, FALSE, EQUAL, TRUE, TRUE, FALSE, EQUAL, FALSE, EQUAL, TRUE, FALSEP, TRUE,
        FALSEP, TRUE, FALSE, EQUAL, EQUAL,
    ],
    rules: &[
        LawRule::AxiomRow(ground::TRUE, 1, 0),
        LawRule::AxiomRow(ground::FALSE, 1, 0),
        LawRule::Replace(1, 1, &[], 0, Side::Forwards),
        LawRule::Cut(3, 2, 0),
        LawRule::AxiomRow(ground::FALSE, 2, 0),
        LawRule::Instance(5, &[LawPair { name: 0, term: 1 }]),
        LawRule::Cut(6, 4, 1),
        LawRule::AxiomRow(ground::FALSEP, 1, 0),
        LawRule::Instance(8, &[LawPair { name: 0, term: 2 }]),
        LawRule::Replace(2, 1, &[1], 1, Side::Backwards),
        LawRule::Cut(7, 10, 3),
        LawRule::Replace(11, 1, &[1], 4, Side::Backwards),
        LawRule::Cut(9, 12, 5),
    ],
};
