//! The table of the law `falsity_is_no_truth`. It is printed.

use crate::words::TRUEP;
use nq_bank::ground;
use nq_replay::words::{EQUAL, FALSE, TRUE};
use nq_replay::{Law, LawPair, LawRule};
use nq_rule::Side;

/// The law `falsity_is_no_truth`.
pub const FALSITY_IS_NO_TRUTH: Law = Law {
    names: &[b"X"],
    terms: &[
        FALSE, FALSE, TRUE, EQUAL, FALSE, TRUE, EQUAL, FALSE, EQUAL, FALSE, TRUEP, FALSE, TRUEP,
        FALSE, TRUE, EQUAL, EQUAL,
    ],
    rules: &[
        LawRule::AxiomRow(ground::TRUE, 1, 0),
        LawRule::AxiomRow(ground::FALSE, 1, 0),
        LawRule::AxiomRow(ground::FALSE, 2, 0),
        LawRule::Replace(1, 1, &[], 0, Side::Backwards),
        LawRule::Cut(4, 2, 0),
        LawRule::Instance(3, &[LawPair { name: 0, term: 1 }]),
        LawRule::Cut(6, 5, 1),
        LawRule::AxiomRow(ground::TRUEP, 1, 0),
        LawRule::Instance(8, &[LawPair { name: 0, term: 0 }]),
        LawRule::Replace(2, 1, &[1], 1, Side::Backwards),
        LawRule::Cut(7, 10, 2),
        LawRule::Replace(11, 1, &[1], 3, Side::Backwards),
        LawRule::Cut(9, 12, 4),
    ],
};
