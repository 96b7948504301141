//! The table of the law `base_is_smaller`. It is printed.

use nq_bank::ground;
use nq_replay::words::{
    A, ADD1, B, COUNT, EQUAL, FALSE, IF, LESSP, NUMBERP, SUB1, TRUE, X, Y, Z, ZERO, ZEROP,
};
use nq_replay::{Law, LawPair, LawRule};
use nq_rule::Side;

/// The law `base_is_smaller`.
pub const BASE_IS_SMALLER: Law = Law {
    names: &[b"X", b"Y", b"Z", b"X1"],
    terms: &[
        ZERO, ZERO, NUMBERP, FALSE, TRUE, ZERO, ZERO, EQUAL, ZERO, ZERO, EQUAL, TRUE, FALSE, IF,
        ZERO, ZERO, EQUAL, TRUE, FALSE, IF, TRUE, EQUAL, ZERO, NUMBERP, FALSE, TRUE, IF, ZERO,
        NUMBERP, FALSE, TRUE, IF, FALSE, EQUAL, ZERO, ZEROP, ZERO, ZEROP, ZERO, ZERO, EQUAL, TRUE,
        ZERO, NUMBERP, FALSE, TRUE, IF, IF, EQUAL, X, ADD1, X, ADD1, NUMBERP, X, X, ADD1, ZERO,
        EQUAL, X, ADD1, ZERO, EQUAL, TRUE, FALSE, IF, X, ADD1, ZERO, EQUAL, TRUE, FALSE, IF, FALSE,
        EQUAL, X, ADD1, NUMBERP, FALSE, TRUE, IF, X, ADD1, NUMBERP, FALSE, TRUE, IF, FALSE, EQUAL,
        X, ADD1, ZEROP, X, ADD1, ZEROP, X, ADD1, ZERO, EQUAL, TRUE, X, ADD1, NUMBERP, FALSE, TRUE,
        IF, IF, EQUAL, Y, Y, ADD1, ZERO, ZEROP, TRUE, ZERO, SUB1, Y, ADD1, SUB1, LESSP, IF, ZERO,
        SUB1, Y, ADD1, SUB1, LESSP, ZERO, ZEROP, TRUE, ZERO, SUB1, Y, ADD1, SUB1, LESSP, IF, TRUE,
        EQUAL, FALSE, FALSE, ZERO, ZEROP, TRUE, ZERO, SUB1, Y, ADD1, SUB1, LESSP, IF, IF, FALSE,
        FALSE, ZERO, ZEROP, TRUE, ZERO, SUB1, Y, ADD1, SUB1, LESSP, IF, IF, ZERO, ZEROP, TRUE,
        ZERO, SUB1, Y, ADD1, SUB1, LESSP, IF, EQUAL, Y, ADD1, ZEROP, Y, ADD1, ZEROP, FALSE, EQUAL,
        ZERO, Y, ADD1, LESSP, ZERO, Y, ADD1, LESSP, Y, ADD1, ZEROP, FALSE, ZERO, ZEROP, TRUE, ZERO,
        SUB1, Y, ADD1, SUB1, LESSP, IF, IF, EQUAL, Z, ZERO, Z, ADD1, LESSP, ZERO, Z, ADD1, LESSP,
        TRUE, EQUAL, X, COUNT, B, COUNT, A,
    ],
    rules: &[
        LawRule::AxiomRow(ground::ADD1, 2, 0),
        LawRule::AxiomRow(ground::ADD1, 3, 0),
        LawRule::AxiomRow(ground::ADD1, 4, 0),
        LawRule::AxiomRow(ground::IF, 2, 0),
        LawRule::AxiomRow(ground::IF, 1, 0),
        LawRule::AxiomRow(ground::TRUE, 1, 0),
        LawRule::AxiomRow(ground::ZEROP, 1, 0),
        LawRule::Instance(7, &[LawPair { name: 0, term: 0 }]),
        LawRule::Instance(
            4,
            &[
                LawPair { name: 0, term: 1 },
                LawPair { name: 1, term: 2 },
                LawPair { name: 2, term: 3 },
            ],
        ),
        LawRule::Instance(
            4,
            &[
                LawPair { name: 0, term: 4 },
                LawPair { name: 1, term: 3 },
                LawPair { name: 2, term: 2 },
            ],
        ),
        LawRule::Replace(6, 1, &[], 5, Side::Backwards),
        LawRule::Cut(10, 11, 6),
        LawRule::Reflexive(0),
        LawRule::Cut(13, 12, 4),
        LawRule::Replace(14, 1, &[3], 7, Side::Backwards),
        LawRule::Cut(9, 15, 8),
        LawRule::Cut(2, 16, 1),
        LawRule::Replace(17, 1, &[], 9, Side::Backwards),
        LawRule::Cut(8, 18, 10),
        LawRule::Instance(7, &[LawPair { name: 0, term: 11 }]),
        LawRule::Instance(
            4,
            &[
                LawPair { name: 0, term: 12 },
                LawPair { name: 1, term: 2 },
                LawPair { name: 2, term: 3 },
            ],
        ),
        LawRule::Instance(3, &[LawPair { name: 3, term: 13 }]),
        LawRule::Instance(
            5,
            &[
                LawPair { name: 0, term: 14 },
                LawPair { name: 1, term: 3 },
                LawPair { name: 2, term: 2 },
            ],
        ),
        LawRule::Reflexive(2),
        LawRule::Replace(24, 1, &[1], 15, Side::Backwards),
        LawRule::Cut(23, 25, 16),
        LawRule::Cut(26, 22, 14),
        LawRule::Replace(27, 1, &[1, 3], 17, Side::Backwards),
        LawRule::Cut(21, 28, 18),
        LawRule::Instance(1, &[LawPair { name: 3, term: 13 }]),
        LawRule::Cut(30, 29, 12),
        LawRule::Replace(31, 1, &[1], 19, Side::Backwards),
        LawRule::Cut(20, 32, 20),
        LawRule::AxiomRow(ground::FALSE, 1, 0),
        LawRule::AxiomRow(ground::LESSP, 1, 0),
        LawRule::Reflexive(3),
        LawRule::Instance(33, &[LawPair { name: 0, term: 21 }]),
        LawRule::Instance(
            35,
            &[LawPair { name: 0, term: 0 }, LawPair { name: 1, term: 22 }],
        ),
        LawRule::Instance(
            5,
            &[
                LawPair { name: 0, term: 2 },
                LawPair { name: 1, term: 2 },
                LawPair { name: 2, term: 23 },
            ],
        ),
        LawRule::Cut(39, 34, 2),
        LawRule::Instance(
            4,
            &[
                LawPair { name: 0, term: 9 },
                LawPair { name: 1, term: 3 },
                LawPair { name: 2, term: 24 },
            ],
        ),
        LawRule::Replace(36, 1, &[1], 23, Side::Backwards),
        LawRule::Cut(41, 42, 25),
        LawRule::Cut(19, 43, 9),
        LawRule::Replace(44, 1, &[1], 26, Side::Backwards),
        LawRule::Cut(40, 45, 27),
        LawRule::Replace(46, 1, &[1, 1], 28, Side::Backwards),
        LawRule::Cut(37, 47, 29),
        LawRule::Replace(48, 1, &[1], 30, Side::Backwards),
        LawRule::Cut(38, 49, 31),
        LawRule::Instance(50, &[LawPair { name: 1, term: 32 }]),
        LawRule::Replace(6, 1, &[], 33, Side::Backwards),
        LawRule::Cut(51, 52, 34),
        LawRule::Replace(53, 1, &[1], 35, Side::Backwards),
        LawRule::Replace(54, 1, &[2], 36, Side::Backwards),
        LawRule::Replace(55, 1, &[1, 1], 37, Side::Backwards),
    ],
};
