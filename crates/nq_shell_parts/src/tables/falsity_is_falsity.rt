//! The table of the law `falsity_is_falsity`. It is printed.

use crate::words::FALSEP;
use nq_bank::ground;
use nq_replay::words::{EQUAL, FALSE};
use nq_replay::{Law, LawPair, LawRule};
use nq_rule::Side;

/// The law `falsity_is_falsity`.
pub const FALSITY_IS_FALSITY: Law = Law {
    names: &[b"X"],
    terms: &[
        FALSE, FALSE, FALSEP, FALSE, FALSEP, FALSE, FALSE, EQUAL, EQUAL,
    ],
    rules: &[
        LawRule::Reflexive(0),
        LawRule::AxiomRow(ground::FALSEP, 1, 0),
        LawRule::Instance(2, &[LawPair { name: 0, term: 0 }]),
        LawRule::Replace(1, 1, &[], 1, Side::Backwards),
        LawRule::Cut(3, 4, 2),
    ],
};
