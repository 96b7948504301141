//! The table of the law `one_less_of_positive`. It is printed.

use nq_bank::ground;
use nq_replay::words::{EQUAL, FALSE, IF, LESSP, NOT, NUMBERP, SUB1, TRUE, X, Y, ZERO, ZEROP};
use nq_replay::{Law, LawPair, LawRule};
use nq_rule::Side;

/// The law `one_less_of_positive`.
pub const ONE_LESS_OF_POSITIVE: Law = Law {
    names: &[b"X", b"Y", b"Z"],
    terms: &[
        ZERO, ZERO, NUMBERP, FALSE, TRUE, ZERO, ZERO, EQUAL, ZERO, ZERO, EQUAL, TRUE, FALSE, IF,
        ZERO, ZERO, EQUAL, TRUE, FALSE, IF, TRUE, EQUAL, ZERO, NUMBERP, FALSE, TRUE, IF, ZERO,
        NUMBERP, FALSE, TRUE, IF, FALSE, EQUAL, ZERO, ZEROP, ZERO, ZEROP, ZERO, ZERO, EQUAL, TRUE,
        ZERO, NUMBERP, FALSE, TRUE, IF, IF, EQUAL, X, NUMBERP, X, X, ZERO, EQUAL, X, ZERO, EQUAL,
        TRUE, TRUE, IF, X, ZERO, EQUAL, TRUE, TRUE, IF, TRUE, EQUAL, X, NUMBERP, FALSE, TRUE, IF,
        X, NUMBERP, FALSE, TRUE, IF, TRUE, EQUAL, X, ZEROP, X, ZEROP, X, ZERO, EQUAL, TRUE, X,
        NUMBERP, FALSE, TRUE, IF, IF, EQUAL, X, NUMBERP, NOT, Y, ZEROP, X, ZEROP, TRUE, X, SUB1, Y,
        SUB1, LESSP, IF, Y, ZEROP, FALSE, X, ZEROP, TRUE, X, SUB1, Y, SUB1, LESSP, IF, IF, Y,
        ZEROP, FALSE, X, ZEROP, TRUE, X, SUB1, Y, SUB1, LESSP, IF, IF, FALSE, EQUAL, X, Y, LESSP,
        X, Y, LESSP, Y, ZEROP, FALSE, X, ZEROP, TRUE, X, SUB1, Y, SUB1, LESSP, IF, IF, EQUAL, ZERO,
        X, LESSP, ZERO, X, LESSP, FALSE, EQUAL,
    ],
    rules: &[
        LawRule::AxiomRow(ground::ADD1, 3, 0),
        LawRule::AxiomRow(ground::ADD1, 5, 0),
        LawRule::AxiomRow(ground::IF, 2, 0),
        LawRule::AxiomRow(ground::IF, 1, 0),
        LawRule::AxiomRow(ground::TRUE, 1, 0),
        LawRule::AxiomRow(ground::ZEROP, 1, 0),
        LawRule::Instance(6, &[LawPair { name: 0, term: 0 }]),
        LawRule::Instance(
            3,
            &[
                LawPair { name: 0, term: 1 },
                LawPair { name: 1, term: 2 },
                LawPair { name: 2, term: 3 },
            ],
        ),
        LawRule::Instance(
            3,
            &[
                LawPair { name: 0, term: 4 },
                LawPair { name: 1, term: 3 },
                LawPair { name: 2, term: 2 },
            ],
        ),
        LawRule::Replace(5, 1, &[], 5, Side::Backwards),
        LawRule::Cut(9, 10, 6),
        LawRule::Reflexive(0),
        LawRule::Cut(12, 11, 4),
        LawRule::Replace(13, 1, &[3], 7, Side::Backwards),
        LawRule::Cut(8, 14, 8),
        LawRule::Cut(1, 15, 1),
        LawRule::Replace(16, 1, &[], 9, Side::Backwards),
        LawRule::Cut(7, 17, 10),
        LawRule::Reflexive(2),
        LawRule::Instance(
            4,
            &[
                LawPair { name: 0, term: 11 },
                LawPair { name: 1, term: 2 },
                LawPair { name: 2, term: 3 },
            ],
        ),
        LawRule::Replace(1, 1, &[1], 12, Side::Backwards),
        LawRule::Instance(
            4,
            &[
                LawPair { name: 0, term: 13 },
                LawPair { name: 1, term: 3 },
                LawPair { name: 2, term: 3 },
            ],
        ),
        LawRule::Replace(5, 1, &[], 14, Side::Backwards),
        LawRule::Cut(22, 23, 15),
        LawRule::Cut(24, 21, 13),
        LawRule::Replace(25, 1, &[3], 16, Side::Backwards),
        LawRule::Cut(20, 26, 17),
        LawRule::Replace(27, 2, &[], 18, Side::Backwards),
        LawRule::Cut(6, 28, 19),
        LawRule::Taut(&[20, 11]),
        LawRule::Cut(29, 30, 11),
        LawRule::AxiomRow(ground::FALSE, 1, 0),
        LawRule::Replace(18, 1, &[1], 12, Side::Backwards),
        LawRule::Cut(2, 33, 13),
        LawRule::Cut(31, 34, 11),
        LawRule::AxiomRow(ground::LESSP, 1, 0),
        LawRule::Instance(
            3,
            &[
                LawPair { name: 0, term: 21 },
                LawPair { name: 1, term: 2 },
                LawPair { name: 2, term: 22 },
            ],
        ),
        LawRule::Replace(19, 1, &[1], 23, Side::Backwards),
        LawRule::Cut(37, 38, 24),
        LawRule::Replace(39, 2, &[1], 25, Side::Backwards),
        LawRule::Cut(36, 40, 26),
        LawRule::Instance(
            41,
            &[LawPair { name: 0, term: 0 }, LawPair { name: 1, term: 12 }],
        ),
        LawRule::Replace(32, 1, &[1], 27, Side::Backwards),
        LawRule::Cut(42, 43, 28),
        LawRule::Cut(35, 44, 18),
    ],
};
