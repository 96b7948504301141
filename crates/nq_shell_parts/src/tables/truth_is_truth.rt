//! The table of the law `truth_is_truth`. It is printed.

use crate::words::TRUEP;
use nq_bank::ground;
use nq_replay::words::{EQUAL, TRUE};
use nq_replay::{Law, LawPair, LawRule};
use nq_rule::Side;

/// The law `truth_is_truth`.
pub const TRUTH_IS_TRUTH: Law = Law {
    names: &[b"X"],
    terms: &[TRUE, TRUE, TRUEP, TRUE, TRUEP, TRUE, TRUE, EQUAL, EQUAL],
    rules: &[
        LawRule::Reflexive(0),
        LawRule::AxiomRow(ground::TRUEP, 1, 0),
        LawRule::Instance(2, &[LawPair { name: 0, term: 0 }]),
        LawRule::Replace(1, 1, &[], 1, Side::Backwards),
        LawRule::Cut(3, 4, 2),
    ],
};
