//! The table of the law `one_less_of_zero`. It is printed.

use nq_bank::ground;
use nq_replay::words::{EQUAL, FALSE, IF, LESSP, NOT, NUMBERP, SUB1, TRUE, X, ZERO, ZEROP};
use nq_replay::{Law, LawPair, LawRule};
use nq_rule::Side;

/// The law `one_less_of_zero`.
pub const ONE_LESS_OF_ZERO: Law = Law {
    names: &[b"X", b"Y", b"Z"],
    terms: &[
        ZERO, ZERO, NUMBERP, FALSE, TRUE, ZERO, ZERO, EQUAL, ZERO, ZERO, EQUAL, TRUE, FALSE, IF,
        ZERO, ZERO, EQUAL, TRUE, FALSE, IF, TRUE, EQUAL, ZERO, NUMBERP, FALSE, TRUE, IF, ZERO,
        NUMBERP, FALSE, TRUE, IF, FALSE, EQUAL, ZERO, ZEROP, ZERO, ZEROP, ZERO, ZERO, EQUAL, TRUE,
        ZERO, NUMBERP, FALSE, TRUE, IF, IF, EQUAL, X, NUMBERP, X, ZERO, EQUAL, X, ZERO, EQUAL,
        TRUE, FALSE, IF, X, ZERO, EQUAL, TRUE, FALSE, IF, FALSE, EQUAL, X, NUMBERP, FALSE, TRUE,
        IF, X, NUMBERP, FALSE, TRUE, IF, FALSE, EQUAL, X, ZEROP, X, ZEROP, X, ZERO, EQUAL, TRUE, X,
        NUMBERP, FALSE, TRUE, IF, IF, EQUAL, X, ZERO, EQUAL, NOT, ZERO, SUB1, ZERO, SUB1, ZERO,
        EQUAL, X, X, SUB1, ZERO, EQUAL, NOT, X, SUB1, ZERO, EQUAL, ZERO, ZEROP, TRUE, ZERO, SUB1,
        X, SUB1, LESSP, IF, ZERO, SUB1, X, SUB1, LESSP, ZERO, ZEROP, TRUE, ZERO, SUB1, X, SUB1,
        LESSP, IF, TRUE, EQUAL, X, ZEROP, FALSE, ZERO, ZEROP, TRUE, ZERO, SUB1, X, SUB1, LESSP, IF,
        IF, X, ZEROP, FALSE, ZERO, ZEROP, TRUE, ZERO, SUB1, X, SUB1, LESSP, IF, IF, ZERO, ZEROP,
        TRUE, ZERO, SUB1, X, SUB1, LESSP, IF, EQUAL, ZERO, X, LESSP, ZERO, X, LESSP, X, ZEROP,
        FALSE, ZERO, ZEROP, TRUE, ZERO, SUB1, X, SUB1, LESSP, IF, IF, EQUAL,
    ],
    rules: &[
        LawRule::AxiomRow(ground::ADD1, 3, 0),
        LawRule::AxiomRow(ground::ADD1, 8, 1),
        LawRule::AxiomRow(ground::ADD1, 9, 1),
        LawRule::AxiomRow(ground::IF, 2, 0),
        LawRule::AxiomRow(ground::IF, 1, 0),
        LawRule::AxiomRow(ground::TRUE, 1, 0),
        LawRule::AxiomRow(ground::ZEROP, 1, 0),
        LawRule::Instance(7, &[LawPair { name: 0, term: 0 }]),
        LawRule::Instance(
            4,
            &[
                LawPair { name: 0, term: 1 },
                LawPair { name: 1, term: 2 },
                LawPair { name: 2, term: 3 },
            ],
        ),
        LawRule::Instance(
            4,
            &[
                LawPair { name: 0, term: 4 },
                LawPair { name: 1, term: 3 },
                LawPair { name: 2, term: 2 },
            ],
        ),
        LawRule::Replace(6, 1, &[], 5, Side::Backwards),
        LawRule::Cut(10, 11, 6),
        LawRule::Reflexive(0),
        LawRule::Cut(13, 12, 4),
        LawRule::Replace(14, 1, &[3], 7, Side::Backwards),
        LawRule::Cut(9, 15, 8),
        LawRule::Cut(1, 16, 1),
        LawRule::Replace(17, 1, &[], 9, Side::Backwards),
        LawRule::Cut(8, 18, 10),
        LawRule::Instance(
            4,
            &[
                LawPair { name: 0, term: 11 },
                LawPair { name: 1, term: 2 },
                LawPair { name: 2, term: 3 },
            ],
        ),
        LawRule::Instance(
            5,
            &[
                LawPair { name: 0, term: 12 },
                LawPair { name: 1, term: 3 },
                LawPair { name: 2, term: 2 },
            ],
        ),
        LawRule::AxiomRow(ground::FALSE, 1, 0),
        LawRule::Replace(22, 1, &[1], 13, Side::Backwards),
        LawRule::Cut(21, 23, 14),
        LawRule::Replace(24, 2, &[1, 3], 15, Side::Backwards),
        LawRule::Cut(20, 25, 16),
        LawRule::Replace(26, 3, &[1], 17, Side::Backwards),
        LawRule::Cut(7, 27, 18),
        LawRule::Taut(&[19, 12]),
        LawRule::Cut(28, 29, 12),
        LawRule::Replace(13, 1, &[1], 20, Side::Backwards),
        LawRule::Cut(3, 31, 21),
        LawRule::Replace(32, 1, &[1, 1], 22, Side::Backwards),
        LawRule::Cut(30, 33, 12),
        LawRule::Cut(2, 34, 11),
        LawRule::Taut(&[23, 24]),
        LawRule::Cut(35, 36, 24),
        LawRule::AxiomRow(ground::LESSP, 1, 0),
        LawRule::Instance(
            38,
            &[LawPair { name: 0, term: 0 }, LawPair { name: 1, term: 22 }],
        ),
        LawRule::Instance(
            5,
            &[
                LawPair { name: 0, term: 17 },
                LawPair { name: 1, term: 2 },
                LawPair { name: 2, term: 25 },
            ],
        ),
        LawRule::Instance(
            4,
            &[
                LawPair { name: 0, term: 9 },
                LawPair { name: 1, term: 3 },
                LawPair { name: 2, term: 26 },
            ],
        ),
        LawRule::Replace(6, 1, &[], 25, Side::Backwards),
        LawRule::Cut(41, 42, 27),
        LawRule::Cut(19, 43, 9),
        LawRule::Replace(44, 1, &[], 28, Side::Backwards),
        LawRule::Cut(40, 45, 29),
        LawRule::Replace(46, 2, &[], 30, Side::Backwards),
        LawRule::Cut(39, 47, 31),
        LawRule::Cut(48, 37, 17),
    ],
};
