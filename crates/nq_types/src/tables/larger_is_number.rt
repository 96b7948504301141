//! The table of the law `larger_is_number`. It is printed.

use crate::words::MAX;
use nq_bank::ground;
use nq_replay::words::{EQUAL, FALSE, FIX, IF, LESSP, NOT, NUMBERP, SUB1, TRUE, X, Y, ZERO, ZEROP};
use nq_replay::{Law, LawPair, LawRule};
use nq_rule::Side;

/// The law `larger_is_number`.
pub const LARGER_IS_NUMBER: Law = Law {
    names: &[b"X", b"Y", b"Z"],
    terms: &[
        FALSE, X, NUMBERP, TRUE, X, X, ZERO, EQUAL, X, ZERO, EQUAL, TRUE, TRUE, IF, X, ZERO, EQUAL,
        TRUE, TRUE, IF, TRUE, EQUAL, X, NUMBERP, FALSE, TRUE, IF, X, NUMBERP, FALSE, TRUE, IF,
        TRUE, EQUAL, X, ZEROP, X, ZEROP, X, ZERO, EQUAL, TRUE, X, NUMBERP, FALSE, TRUE, IF, IF,
        EQUAL, X, NUMBERP, NOT, ZERO, X, NUMBERP, X, ZERO, IF, X, NUMBERP, X, ZERO, IF, X, EQUAL,
        X, NUMBERP, X, ZERO, IF, ZERO, EQUAL, X, FIX, X, FIX, X, NUMBERP, X, ZERO, IF, EQUAL, Y,
        ZEROP, X, ZEROP, TRUE, X, SUB1, Y, SUB1, LESSP, IF, Y, ZEROP, FALSE, X, ZEROP, TRUE, X,
        SUB1, Y, SUB1, LESSP, IF, IF, Y, ZEROP, FALSE, X, ZEROP, TRUE, X, SUB1, Y, SUB1, LESSP, IF,
        IF, FALSE, EQUAL, X, Y, LESSP, X, Y, LESSP, Y, ZEROP, FALSE, X, ZEROP, TRUE, X, SUB1, Y,
        SUB1, LESSP, IF, IF, EQUAL, Y, X, Y, LESSP, FALSE, EQUAL, X, Y, LESSP, Y, X, FIX, IF, X, Y,
        LESSP, Y, X, FIX, IF, Y, EQUAL, X, Y, LESSP, Y, X, FIX, IF, X, FIX, EQUAL, X, Y, MAX, X, Y,
        MAX, X, Y, LESSP, Y, X, FIX, IF, EQUAL,
    ],
    rules: &[
        LawRule::AxiomRow(ground::ADD1, 3, 0),
        LawRule::AxiomRow(ground::FIX, 1, 0),
        LawRule::AxiomRow(ground::IF, 2, 0),
        LawRule::AxiomRow(ground::IF, 1, 0),
        LawRule::AxiomRow(ground::TRUE, 1, 0),
        LawRule::AxiomRow(ground::ZEROP, 1, 0),
        LawRule::Reflexive(0),
        LawRule::Instance(
            4,
            &[
                LawPair { name: 0, term: 1 },
                LawPair { name: 1, term: 0 },
                LawPair { name: 2, term: 2 },
            ],
        ),
        LawRule::Replace(1, 1, &[1], 3, Side::Backwards),
        LawRule::Instance(
            4,
            &[
                LawPair { name: 0, term: 4 },
                LawPair { name: 1, term: 2 },
                LawPair { name: 2, term: 2 },
            ],
        ),
        LawRule::Replace(5, 1, &[], 5, Side::Backwards),
        LawRule::Cut(10, 11, 6),
        LawRule::Cut(12, 9, 4),
        LawRule::Replace(13, 1, &[3], 7, Side::Backwards),
        LawRule::Cut(8, 14, 8),
        LawRule::Replace(15, 2, &[], 9, Side::Backwards),
        LawRule::Cut(6, 16, 10),
        LawRule::Taut(&[11, 1]),
        LawRule::Cut(17, 18, 1),
        LawRule::AxiomRow(ground::FALSE, 1, 0),
        LawRule::Instance(
            3,
            &[
                LawPair { name: 0, term: 1 },
                LawPair { name: 1, term: 3 },
                LawPair { name: 2, term: 12 },
            ],
        ),
        LawRule::Instance(
            4,
            &[
                LawPair { name: 0, term: 1 },
                LawPair { name: 1, term: 3 },
                LawPair { name: 2, term: 12 },
            ],
        ),
        LawRule::Taut(&[1, 11]),
        LawRule::Replace(23, 1, &[1], 13, Side::Backwards),
        LawRule::Cut(21, 24, 14),
        LawRule::Replace(1, 1, &[1], 13, Side::Backwards),
        LawRule::Cut(22, 26, 15),
        LawRule::Cut(27, 25, 1),
        LawRule::Replace(28, 1, &[1], 16, Side::Backwards),
        LawRule::Cut(2, 29, 17),
        LawRule::AxiomRow(ground::LESSP, 1, 0),
        LawRule::Instance(
            3,
            &[
                LawPair { name: 0, term: 18 },
                LawPair { name: 1, term: 0 },
                LawPair { name: 2, term: 19 },
            ],
        ),
        LawRule::Replace(7, 1, &[1], 20, Side::Backwards),
        LawRule::Cut(32, 33, 21),
        LawRule::Replace(34, 2, &[1], 22, Side::Backwards),
        LawRule::Cut(31, 35, 23),
        LawRule::AxiomRow(ground::MAX, 1, 0),
        LawRule::Instance(19, &[LawPair { name: 0, term: 24 }]),
        LawRule::Replace(20, 1, &[1], 22, Side::Backwards),
        LawRule::Cut(36, 39, 25),
        LawRule::Cut(38, 40, 18),
        LawRule::Instance(
            3,
            &[LawPair { name: 0, term: 22 }, LawPair { name: 2, term: 16 }],
        ),
        LawRule::Replace(41, 1, &[1], 26, Side::Backwards),
        LawRule::Cut(42, 43, 27),
        LawRule::Instance(
            4,
            &[LawPair { name: 0, term: 22 }, LawPair { name: 2, term: 16 }],
        ),
        LawRule::Replace(30, 1, &[1], 26, Side::Backwards),
        LawRule::Cut(45, 46, 28),
        LawRule::Cut(47, 44, 22),
        LawRule::Replace(48, 1, &[1], 29, Side::Backwards),
        LawRule::Cut(37, 49, 30),
    ],
};
