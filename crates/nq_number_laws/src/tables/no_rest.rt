//! The table of the law `no_rest`. It is printed.

use nq_bank::ground;
use nq_replay::words::{CDR, COUNT, EQUAL, X, ZERO};
use nq_replay::{Law, LawRule};
use nq_rule::Side;

/// The law `no_rest`.
pub const NO_REST: Law = Law {
    names: &[],
    terms: &[
        X, CDR, COUNT, ZERO, X, CDR, ZERO, EQUAL, ZERO, COUNT, ZERO, EQUAL,
    ],
    rules: &[
        LawRule::AxiomRow(ground::CONS, 8, 2),
        LawRule::AxiomRow(ground::ADD1, 15, 0),
        LawRule::Reflexive(0),
        LawRule::Replace(3, 1, &[2, 1], 1, Side::Forwards),
        LawRule::Cut(1, 4, 2),
        LawRule::Replace(5, 2, &[2], 1, Side::Forwards),
        LawRule::Cut(2, 6, 3),
    ],
};
