//! The table of the law `quotient_is_number`. It is printed.

use nq_bank::ground;
use nq_replay::words::{ADD1, DIFFERENCE, EQUAL, IF, LESSP, QUOTIENT, X, Y, ZERO, ZEROP};
use nq_replay::{Law, LawPair, LawRule};
use nq_rule::Side;

/// The law `quotient_is_number`.
pub const QUOTIENT_IS_NUMBER: Law = Law {
    names: &[b"X", b"Y", b"Z", b"X1"],
    terms: &[
        X, Y, LESSP, ZERO, X, Y, DIFFERENCE, Y, QUOTIENT, ADD1, Y, ZEROP, Y, ZEROP, ZERO, ZERO, IF,
        Y, ZEROP, ZERO, ZERO, IF, ZERO, EQUAL, X, Y, LESSP, ZERO, X, Y, DIFFERENCE, Y, QUOTIENT,
        ADD1, IF, X, Y, LESSP, ZERO, X, Y, DIFFERENCE, Y, QUOTIENT, ADD1, IF, ZERO, EQUAL, Y,
        ZEROP, ZERO, X, Y, DIFFERENCE, Y, QUOTIENT, ADD1, IF, Y, ZEROP, ZERO, X, Y, DIFFERENCE, Y,
        QUOTIENT, ADD1, IF, ZERO, EQUAL, X, Y, DIFFERENCE, Y, QUOTIENT, Y, ZEROP, ZERO, X, Y,
        DIFFERENCE, Y, QUOTIENT, ADD1, IF, X, Y, DIFFERENCE, Y, QUOTIENT, ADD1, EQUAL, X, Y, LESSP,
        ZERO, X, Y, DIFFERENCE, Y, QUOTIENT, ADD1, IF, X, Y, DIFFERENCE, Y, QUOTIENT, ADD1, EQUAL,
        X, Y, QUOTIENT, X, Y, QUOTIENT, Y, ZEROP, ZERO, X, Y, LESSP, ZERO, X, Y, DIFFERENCE, Y,
        QUOTIENT, ADD1, IF, IF, EQUAL,
    ],
    rules: &[
        LawRule::AxiomRow(ground::ADD1, 2, 0),
        LawRule::AxiomRow(ground::ADD1, 3, 0),
        LawRule::AxiomRow(ground::IF, 2, 0),
        LawRule::AxiomRow(ground::IF, 1, 0),
        LawRule::AxiomRow(ground::QUOTIENT, 1, 0),
        LawRule::Instance(
            3,
            &[
                LawPair { name: 0, term: 0 },
                LawPair { name: 1, term: 1 },
                LawPair { name: 2, term: 2 },
            ],
        ),
        LawRule::Instance(
            3,
            &[
                LawPair { name: 0, term: 3 },
                LawPair { name: 1, term: 1 },
                LawPair { name: 2, term: 1 },
            ],
        ),
        LawRule::Instance(
            4,
            &[
                LawPair { name: 0, term: 3 },
                LawPair { name: 1, term: 1 },
                LawPair { name: 2, term: 1 },
            ],
        ),
        LawRule::Instance(
            4,
            &[
                LawPair { name: 0, term: 0 },
                LawPair { name: 1, term: 1 },
                LawPair { name: 2, term: 2 },
            ],
        ),
        LawRule::Instance(
            3,
            &[
                LawPair { name: 0, term: 3 },
                LawPair { name: 1, term: 1 },
                LawPair { name: 2, term: 2 },
            ],
        ),
        LawRule::Instance(
            4,
            &[
                LawPair { name: 0, term: 3 },
                LawPair { name: 1, term: 1 },
                LawPair { name: 2, term: 2 },
            ],
        ),
        LawRule::Replace(2, 1, &[1], 4, Side::Backwards),
        LawRule::Cut(7, 12, 5),
        LawRule::Cut(8, 12, 5),
        LawRule::Cut(14, 13, 3),
        LawRule::Replace(15, 1, &[1, 3], 6, Side::Backwards),
        LawRule::Cut(6, 16, 7),
        LawRule::Replace(2, 1, &[1], 8, Side::Backwards),
        LawRule::Cut(10, 18, 9),
        LawRule::Instance(1, &[LawPair { name: 3, term: 10 }]),
        LawRule::Replace(20, 1, &[1], 8, Side::Backwards),
        LawRule::Cut(11, 21, 11),
        LawRule::Cut(22, 19, 3),
        LawRule::Replace(23, 1, &[1, 3], 6, Side::Backwards),
        LawRule::Cut(9, 24, 12),
        LawRule::Cut(25, 17, 0),
        LawRule::Replace(26, 1, &[1], 13, Side::Backwards),
        LawRule::Cut(5, 27, 14),
    ],
};
