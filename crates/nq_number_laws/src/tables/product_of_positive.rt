//! The table of the law `product_of_positive`. It is printed.

use nq_bank::ground;
use nq_replay::words::{EQUAL, FALSE, IF, LESSP, PLUS, SUB1, TIMES, TRUE, X, Y, ZERO, ZEROP};
use nq_replay::{Law, LawPair, LawRule};
use nq_rule::Side;

/// The law `product_of_positive`.
pub const PRODUCT_OF_POSITIVE: Law = Law {
    names: &[b"X", b"Y", b"Z"],
    terms: &[
        FALSE, Y, ZEROP, X, ZEROP, TRUE, X, SUB1, Y, SUB1, LESSP, IF, Y, ZEROP, FALSE, X, ZEROP,
        TRUE, X, SUB1, Y, SUB1, LESSP, IF, IF, Y, ZEROP, FALSE, X, ZEROP, TRUE, X, SUB1, Y, SUB1,
        LESSP, IF, IF, FALSE, EQUAL, X, Y, LESSP, X, Y, LESSP, Y, ZEROP, FALSE, X, ZEROP, TRUE, X,
        SUB1, Y, SUB1, LESSP, IF, IF, EQUAL, X, ZEROP, ZERO, Y, X, SUB1, Y, TIMES, PLUS, X, ZEROP,
        ZERO, Y, X, SUB1, Y, TIMES, PLUS, IF, X, ZEROP, ZERO, Y, X, SUB1, Y, TIMES, PLUS, IF, Y, X,
        SUB1, Y, TIMES, PLUS, EQUAL, X, Y, TIMES, X, Y, TIMES, X, ZEROP, ZERO, Y, X, SUB1, Y,
        TIMES, PLUS, IF, EQUAL, X, ZERO, X, LESSP, ZERO, X, LESSP, FALSE, EQUAL,
    ],
    rules: &[
        LawRule::AxiomRow(ground::IF, 2, 0),
        LawRule::AxiomRow(ground::IF, 1, 0),
        LawRule::Reflexive(0),
        LawRule::AxiomRow(ground::FALSE, 1, 0),
        LawRule::AxiomRow(ground::LESSP, 1, 0),
        LawRule::Instance(
            1,
            &[
                LawPair { name: 0, term: 1 },
                LawPair { name: 1, term: 0 },
                LawPair { name: 2, term: 2 },
            ],
        ),
        LawRule::Replace(3, 1, &[1], 3, Side::Backwards),
        LawRule::Cut(6, 7, 4),
        LawRule::Replace(8, 2, &[1], 5, Side::Backwards),
        LawRule::Cut(5, 9, 6),
        LawRule::AxiomRow(ground::TIMES, 1, 0),
        LawRule::Instance(
            2,
            &[
                LawPair { name: 0, term: 7 },
                LawPair { name: 1, term: 8 },
                LawPair { name: 2, term: 9 },
            ],
        ),
        LawRule::Reflexive(9),
        LawRule::Replace(13, 1, &[1], 10, Side::Backwards),
        LawRule::Cut(12, 14, 11),
        LawRule::Replace(15, 2, &[1], 12, Side::Backwards),
        LawRule::Cut(11, 16, 13),
        LawRule::Instance(
            10,
            &[LawPair { name: 0, term: 8 }, LawPair { name: 1, term: 14 }],
        ),
        LawRule::Replace(4, 1, &[1], 15, Side::Backwards),
        LawRule::Cut(18, 19, 16),
        LawRule::Cut(17, 20, 7),
    ],
};
