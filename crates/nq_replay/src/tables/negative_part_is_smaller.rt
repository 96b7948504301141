//! The table of the law `negative_part_is_smaller`. It is printed.

use crate::table::{Law, LawPair, LawRule};
use crate::words::{ADD1, COUNT, EQUAL, GUTS, IF, MINUS, NUMBERP, X, ZERO};
use nq_bank::ground;
use nq_rule::Side;

/// The law `negative_part_is_smaller`.
pub const NEGATIVE_PART_IS_SMALLER: Law = Law {
    names: &[b"X1", b"X", b"Y", b"Z"],
    terms: &[
        X, GUTS, X, X, GUTS, MINUS, X, EQUAL, X, GUTS, ZERO, EQUAL, X, GUTS, NUMBERP, X, GUTS,
        COUNT, ZERO, X, GUTS, NUMBERP, X, GUTS, COUNT, ZERO, IF, X, GUTS, NUMBERP, X, GUTS, COUNT,
        ZERO, IF, X, GUTS, COUNT, EQUAL, X, COUNT, X, COUNT, X, GUTS, NUMBERP, X, GUTS, COUNT,
        ZERO, IF, ADD1, EQUAL,
    ],
    rules: &[
        LawRule::AxiomRow(ground::ADD1, 3, 0),
        LawRule::AxiomRow(ground::IF, 2, 0),
        LawRule::AxiomRow(ground::MINUS, 7, 1),
        LawRule::Instance(4, &[LawPair { name: 0, term: 0 }]),
        LawRule::AxiomRow(ground::MINUS, 5, 0),
        LawRule::Replace(5, 2, &[1, 1], 1, Side::Forwards),
        LawRule::Cut(6, 7, 2),
        LawRule::Replace(2, 1, &[1], 0, Side::Backwards),
        LawRule::Cut(8, 9, 3),
        LawRule::AxiomRow(ground::MINUS, 14, 0),
        LawRule::Instance(11, &[LawPair { name: 0, term: 0 }]),
        LawRule::Replace(12, 1, &[1, 1], 1, Side::Forwards),
        LawRule::Cut(6, 13, 2),
        LawRule::Instance(
            3,
            &[
                LawPair { name: 1, term: 4 },
                LawPair { name: 2, term: 5 },
                LawPair { name: 3, term: 6 },
            ],
        ),
        LawRule::Instance(1, &[LawPair { name: 1, term: 5 }]),
        LawRule::Replace(16, 1, &[2, 1], 7, Side::Backwards),
        LawRule::Cut(15, 17, 8),
        LawRule::Cut(10, 18, 4),
        LawRule::Replace(19, 2, &[2], 9, Side::Backwards),
        LawRule::Cut(14, 20, 10),
    ],
};
