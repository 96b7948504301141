//! The table of the law `number_is_more_turned`. It is printed.

use nq_bank::ground;
use nq_replay::words::{EQUAL, FALSE, IF, LESSP, NOT, NUMBERP, SUB1, TRUE, X, Y, ZERO, ZEROP};
use nq_replay::{Law, LawPair, LawRule};
use nq_rule::Side;

/// The law `number_is_more_turned`.
pub const NUMBER_IS_MORE_TURNED: Law = Law {
    names: &[b"X", b"Y", b"Z"],
    terms: &[
        ZERO, ZERO, NUMBERP, FALSE, TRUE, ZERO, ZERO, EQUAL, ZERO, ZERO, EQUAL, TRUE, FALSE, IF,
        ZERO, ZERO, EQUAL, TRUE, FALSE, IF, TRUE, EQUAL, ZERO, NUMBERP, FALSE, TRUE, IF, ZERO,
        NUMBERP, FALSE, TRUE, IF, FALSE, EQUAL, ZERO, ZEROP, ZERO, ZEROP, ZERO, ZERO, EQUAL, TRUE,
        ZERO, NUMBERP, FALSE, TRUE, IF, IF, EQUAL, X, NUMBERP, X, ZERO, EQUAL, X, ZERO, EQUAL,
        TRUE, FALSE, IF, X, ZERO, EQUAL, TRUE, FALSE, IF, FALSE, EQUAL, X, NUMBERP, FALSE, TRUE,
        IF, X, NUMBERP, FALSE, TRUE, IF, FALSE, EQUAL, X, ZEROP, X, ZEROP, X, ZERO, EQUAL, TRUE, X,
        NUMBERP, FALSE, TRUE, IF, IF, EQUAL, X, ZERO, EQUAL, NOT, Y, X, ZERO, ZEROP, TRUE, ZERO,
        SUB1, X, SUB1, LESSP, IF, ZERO, SUB1, X, SUB1, LESSP, ZERO, ZEROP, TRUE, ZERO, SUB1, X,
        SUB1, LESSP, IF, TRUE, EQUAL, X, ZEROP, FALSE, ZERO, ZEROP, TRUE, ZERO, SUB1, X, SUB1,
        LESSP, IF, IF, X, ZEROP, FALSE, ZERO, ZEROP, TRUE, ZERO, SUB1, X, SUB1, LESSP, IF, IF,
        ZERO, ZEROP, TRUE, ZERO, SUB1, X, SUB1, LESSP, IF, EQUAL, ZERO, X, LESSP, ZERO, X, LESSP,
        X, ZEROP, FALSE, ZERO, ZEROP, TRUE, ZERO, SUB1, X, SUB1, LESSP, IF, IF, EQUAL, Y, ZERO,
        EQUAL,
    ],
    rules: &[
        LawRule::AxiomRow(ground::ADD1, 3, 0),
        LawRule::AxiomRow(ground::IF, 2, 0),
        LawRule::AxiomRow(ground::IF, 1, 0),
        LawRule::AxiomRow(ground::TRUE, 1, 0),
        LawRule::AxiomRow(ground::ZEROP, 1, 0),
        LawRule::Instance(5, &[LawPair { name: 0, term: 0 }]),
        LawRule::Instance(
            2,
            &[
                LawPair { name: 0, term: 1 },
                LawPair { name: 1, term: 2 },
                LawPair { name: 2, term: 3 },
            ],
        ),
        LawRule::Instance(
            2,
            &[
                LawPair { name: 0, term: 4 },
                LawPair { name: 1, term: 3 },
                LawPair { name: 2, term: 2 },
            ],
        ),
        LawRule::Replace(4, 1, &[], 5, Side::Backwards),
        LawRule::Cut(8, 9, 6),
        LawRule::Reflexive(0),
        LawRule::Cut(11, 10, 4),
        LawRule::Replace(12, 1, &[3], 7, Side::Backwards),
        LawRule::Cut(7, 13, 8),
        LawRule::Cut(1, 14, 1),
        LawRule::Replace(15, 1, &[], 9, Side::Backwards),
        LawRule::Cut(6, 16, 10),
        LawRule::Instance(
            2,
            &[
                LawPair { name: 0, term: 11 },
                LawPair { name: 1, term: 2 },
                LawPair { name: 2, term: 3 },
            ],
        ),
        LawRule::Instance(
            3,
            &[
                LawPair { name: 0, term: 12 },
                LawPair { name: 1, term: 3 },
                LawPair { name: 2, term: 2 },
            ],
        ),
        LawRule::AxiomRow(ground::FALSE, 1, 0),
        LawRule::Replace(20, 1, &[1], 13, Side::Backwards),
        LawRule::Cut(19, 21, 14),
        LawRule::Replace(22, 2, &[1, 3], 15, Side::Backwards),
        LawRule::Cut(18, 23, 16),
        LawRule::Replace(24, 3, &[1], 17, Side::Backwards),
        LawRule::Cut(5, 25, 18),
        LawRule::Taut(&[19, 12]),
        LawRule::Cut(26, 27, 12),
        LawRule::AxiomRow(ground::LESSP, 1, 0),
        LawRule::Reflexive(20),
        LawRule::Replace(30, 1, &[1], 0, Side::Forwards),
        LawRule::Instance(
            29,
            &[LawPair { name: 0, term: 0 }, LawPair { name: 1, term: 21 }],
        ),
        LawRule::Instance(
            3,
            &[
                LawPair { name: 0, term: 17 },
                LawPair { name: 1, term: 2 },
                LawPair { name: 2, term: 22 },
            ],
        ),
        LawRule::Instance(
            2,
            &[
                LawPair { name: 0, term: 9 },
                LawPair { name: 1, term: 3 },
                LawPair { name: 2, term: 23 },
            ],
        ),
        LawRule::Replace(4, 1, &[], 22, Side::Backwards),
        LawRule::Cut(34, 35, 24),
        LawRule::Cut(17, 36, 9),
        LawRule::Replace(37, 1, &[], 25, Side::Backwards),
        LawRule::Cut(33, 38, 26),
        LawRule::Replace(39, 2, &[], 27, Side::Backwards),
        LawRule::Cut(32, 40, 28),
        LawRule::Cut(41, 28, 17),
        LawRule::Instance(42, &[LawPair { name: 0, term: 20 }]),
        LawRule::Cut(43, 31, 29),
    ],
};
