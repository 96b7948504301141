//! The table of the law `sum_is_number`. It is printed.

use nq_bank::ground;
use nq_replay::words::{ADD1, EQUAL, FIX, IF, NOT, NUMBERP, PLUS, SUB1, X, Y, ZERO, ZEROP};
use nq_replay::{Law, LawPair, LawRule};
use nq_rule::Side;

/// The law `sum_is_number`.
pub const SUM_IS_NUMBER: Law = Law {
    names: &[b"X", b"Z", b"X1", b"Y"],
    terms: &[
        Y, Y, NUMBERP, ZERO, X, ZEROP, X, SUB1, Y, PLUS, ADD1, Y, NUMBERP, NOT, X, ZEROP, Y, X,
        SUB1, Y, PLUS, ADD1, IF, X, ZEROP, Y, X, SUB1, Y, PLUS, ADD1, IF, Y, EQUAL, X, SUB1, Y,
        PLUS, X, ZEROP, Y, X, SUB1, Y, PLUS, ADD1, IF, X, SUB1, Y, PLUS, ADD1, EQUAL, Y, NUMBERP,
        Y, ZERO, IF, Y, NUMBERP, Y, ZERO, IF, Y, EQUAL, X, ZEROP, ZERO, X, SUB1, Y, PLUS, ADD1, IF,
        X, ZEROP, ZERO, X, SUB1, Y, PLUS, ADD1, IF, ZERO, EQUAL, X, ZEROP, ZERO, X, SUB1, Y, PLUS,
        ADD1, IF, X, SUB1, Y, PLUS, ADD1, EQUAL, Y, NUMBERP, Y, ZERO, IF, ZERO, EQUAL, Y, FIX, Y,
        FIX, Y, NUMBERP, Y, ZERO, IF, EQUAL, X, Y, PLUS, X, Y, PLUS, X, ZEROP, Y, FIX, X, SUB1, Y,
        PLUS, ADD1, IF, EQUAL,
    ],
    rules: &[
        LawRule::AxiomRow(ground::ADD1, 2, 0),
        LawRule::AxiomRow(ground::ADD1, 3, 0),
        LawRule::AxiomRow(ground::PLUS, 1, 0),
        LawRule::AxiomRow(ground::FIX, 1, 0),
        LawRule::Instance(4, &[LawPair { name: 0, term: 0 }]),
        LawRule::AxiomRow(ground::IF, 2, 0),
        LawRule::Instance(
            6,
            &[LawPair { name: 0, term: 1 }, LawPair { name: 1, term: 2 }],
        ),
        LawRule::Instance(
            6,
            &[LawPair { name: 0, term: 3 }, LawPair { name: 1, term: 4 }],
        ),
        LawRule::Taut(&[1, 5]),
        LawRule::Replace(9, 1, &[1], 6, Side::Backwards),
        LawRule::Cut(8, 10, 7),
        LawRule::AxiomRow(ground::IF, 1, 0),
        LawRule::Instance(
            12,
            &[LawPair { name: 0, term: 3 }, LawPair { name: 1, term: 4 }],
        ),
        LawRule::Instance(1, &[LawPair { name: 2, term: 8 }]),
        LawRule::Replace(14, 1, &[1], 6, Side::Backwards),
        LawRule::Cut(13, 15, 9),
        LawRule::Cut(16, 11, 3),
        LawRule::Replace(17, 1, &[1, 2], 10, Side::Backwards),
        LawRule::Cut(7, 18, 11),
        LawRule::Instance(
            12,
            &[LawPair { name: 0, term: 1 }, LawPair { name: 1, term: 2 }],
        ),
        LawRule::Instance(
            6,
            &[
                LawPair { name: 0, term: 3 },
                LawPair { name: 3, term: 2 },
                LawPair { name: 1, term: 4 },
            ],
        ),
        LawRule::Replace(2, 1, &[1], 12, Side::Backwards),
        LawRule::Cut(21, 22, 13),
        LawRule::Instance(
            12,
            &[
                LawPair { name: 0, term: 3 },
                LawPair { name: 3, term: 2 },
                LawPair { name: 1, term: 4 },
            ],
        ),
        LawRule::Replace(14, 1, &[1], 12, Side::Backwards),
        LawRule::Cut(24, 25, 14),
        LawRule::Cut(26, 23, 3),
        LawRule::Replace(27, 1, &[1, 2], 10, Side::Backwards),
        LawRule::Cut(20, 28, 15),
        LawRule::Cut(29, 19, 1),
        LawRule::Replace(30, 1, &[1, 2], 16, Side::Backwards),
        LawRule::Cut(5, 31, 17),
        LawRule::Replace(32, 1, &[1], 18, Side::Backwards),
        LawRule::Cut(3, 33, 19),
    ],
};
