//! The table of the law `positive_is_number`. It is printed.

use nq_bank::ground;
use nq_replay::words::{EQUAL, FALSE, IF, LESSP, NOT, NUMBERP, SUB1, TRUE, X, Y, ZERO, ZEROP};
use nq_replay::{Law, LawPair, LawRule};
use nq_rule::Side;

/// The law `positive_is_number`.
pub const POSITIVE_IS_NUMBER: Law = Law {
    names: &[b"X", b"Y", b"Z"],
    terms: &[
        FALSE, X, NUMBERP, TRUE, X, X, ZERO, EQUAL, X, ZERO, EQUAL, TRUE, TRUE, IF, X, ZERO, EQUAL,
        TRUE, TRUE, IF, TRUE, EQUAL, X, NUMBERP, FALSE, TRUE, IF, X, NUMBERP, FALSE, TRUE, IF,
        TRUE, EQUAL, X, ZEROP, X, ZEROP, X, ZERO, EQUAL, TRUE, X, NUMBERP, FALSE, TRUE, IF, IF,
        EQUAL, X, NUMBERP, NOT, Y, ZEROP, X, ZEROP, TRUE, X, SUB1, Y, SUB1, LESSP, IF, Y, ZEROP,
        FALSE, X, ZEROP, TRUE, X, SUB1, Y, SUB1, LESSP, IF, IF, Y, ZEROP, FALSE, X, ZEROP, TRUE, X,
        SUB1, Y, SUB1, LESSP, IF, IF, FALSE, EQUAL, X, Y, LESSP, X, Y, LESSP, Y, ZEROP, FALSE, X,
        ZEROP, TRUE, X, SUB1, Y, SUB1, LESSP, IF, IF, EQUAL, ZERO, ZERO, X, LESSP, ZERO, X, LESSP,
        FALSE, EQUAL,
    ],
    rules: &[
        LawRule::AxiomRow(ground::ADD1, 3, 0),
        LawRule::AxiomRow(ground::IF, 2, 0),
        LawRule::AxiomRow(ground::IF, 1, 0),
        LawRule::AxiomRow(ground::TRUE, 1, 0),
        LawRule::AxiomRow(ground::ZEROP, 1, 0),
        LawRule::Reflexive(0),
        LawRule::Instance(
            3,
            &[
                LawPair { name: 0, term: 1 },
                LawPair { name: 1, term: 0 },
                LawPair { name: 2, term: 2 },
            ],
        ),
        LawRule::Replace(1, 1, &[1], 3, Side::Backwards),
        LawRule::Instance(
            3,
            &[
                LawPair { name: 0, term: 4 },
                LawPair { name: 1, term: 2 },
                LawPair { name: 2, term: 2 },
            ],
        ),
        LawRule::Replace(4, 1, &[], 5, Side::Backwards),
        LawRule::Cut(9, 10, 6),
        LawRule::Cut(11, 8, 4),
        LawRule::Replace(12, 1, &[3], 7, Side::Backwards),
        LawRule::Cut(7, 13, 8),
        LawRule::Replace(14, 2, &[], 9, Side::Backwards),
        LawRule::Cut(5, 15, 10),
        LawRule::Taut(&[11, 1]),
        LawRule::Cut(16, 17, 1),
        LawRule::AxiomRow(ground::FALSE, 1, 0),
        LawRule::AxiomRow(ground::LESSP, 1, 0),
        LawRule::Instance(
            2,
            &[
                LawPair { name: 0, term: 12 },
                LawPair { name: 1, term: 0 },
                LawPair { name: 2, term: 13 },
            ],
        ),
        LawRule::Replace(6, 1, &[1], 14, Side::Backwards),
        LawRule::Cut(21, 22, 15),
        LawRule::Replace(23, 2, &[1], 16, Side::Backwards),
        LawRule::Cut(20, 24, 17),
        LawRule::Instance(
            25,
            &[LawPair { name: 0, term: 18 }, LawPair { name: 1, term: 3 }],
        ),
        LawRule::Replace(19, 1, &[1], 19, Side::Backwards),
        LawRule::Cut(26, 27, 20),
        LawRule::Cut(18, 28, 9),
    ],
};
