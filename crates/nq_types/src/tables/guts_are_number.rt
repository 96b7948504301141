//! The table of the law `guts_are_number`. It is printed.

use crate::words::NEGATIVEP;
use nq_bank::ground;
use nq_replay::words::{EQUAL, GUTS, MINUS, X, ZERO};
use nq_replay::{Law, LawPair, LawRule};
use nq_rule::Side;

/// The law `guts_are_number`.
pub const GUTS_ARE_NUMBER: Law = Law {
    names: &[b"X1"],
    terms: &[
        X, GUTS, X, X, GUTS, MINUS, X, EQUAL, X, GUTS, ZERO, EQUAL, X, NEGATIVEP,
    ],
    rules: &[
        LawRule::AxiomRow(ground::ADD1, 3, 0),
        LawRule::AxiomRow(ground::MINUS, 8, 1),
        LawRule::AxiomRow(ground::MINUS, 7, 1),
        LawRule::Instance(3, &[LawPair { name: 0, term: 0 }]),
        LawRule::AxiomRow(ground::MINUS, 5, 0),
        LawRule::Replace(4, 2, &[1, 1], 1, Side::Forwards),
        LawRule::Cut(5, 6, 2),
        LawRule::Replace(1, 1, &[1], 0, Side::Backwards),
        LawRule::Cut(7, 8, 3),
        LawRule::Cut(2, 8, 3),
        LawRule::Cut(10, 9, 4),
    ],
};
