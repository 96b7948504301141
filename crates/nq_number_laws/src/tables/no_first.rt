//! The table of the law `no_first`. It is printed.

use nq_bank::ground;
use nq_replay::words::{CAR, COUNT, EQUAL, X, ZERO};
use nq_replay::{Law, LawRule};
use nq_rule::Side;

/// The law `no_first`.
pub const NO_FIRST: Law = Law {
    names: &[],
    terms: &[
        X, CAR, COUNT, ZERO, X, CAR, ZERO, EQUAL, ZERO, COUNT, ZERO, EQUAL,
    ],
    rules: &[
        LawRule::AxiomRow(ground::CONS, 8, 1),
        LawRule::AxiomRow(ground::ADD1, 15, 0),
        LawRule::Reflexive(0),
        LawRule::Replace(3, 1, &[2, 1], 1, Side::Forwards),
        LawRule::Cut(1, 4, 2),
        LawRule::Replace(5, 2, &[2], 1, Side::Forwards),
        LawRule::Cut(2, 6, 3),
    ],
};
