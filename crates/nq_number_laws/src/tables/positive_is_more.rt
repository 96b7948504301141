//! The table of the law `positive_is_more`. It is printed.

use nq_bank::ground;
use nq_replay::words::{EQUAL, FALSE, IF, LESSP, NUMBERP, SUB1, TRUE, X, ZERO, ZEROP};
use nq_replay::{Law, LawPair, LawRule};
use nq_rule::Side;

/// The law `positive_is_more`.
pub const POSITIVE_IS_MORE: Law = Law {
    names: &[b"X", b"Y", b"Z"],
    terms: &[
        ZERO, ZERO, NUMBERP, FALSE, TRUE, ZERO, ZERO, EQUAL, ZERO, ZERO, EQUAL, TRUE, FALSE, IF,
        ZERO, ZERO, EQUAL, TRUE, FALSE, IF, TRUE, EQUAL, ZERO, NUMBERP, FALSE, TRUE, IF, ZERO,
        NUMBERP, FALSE, TRUE, IF, FALSE, EQUAL, ZERO, ZEROP, ZERO, ZEROP, ZERO, ZERO, EQUAL, TRUE,
        ZERO, NUMBERP, FALSE, TRUE, IF, IF, EQUAL, X, X, ZEROP, ZERO, ZEROP, TRUE, ZERO, SUB1, X,
        SUB1, LESSP, IF, ZERO, SUB1, X, SUB1, LESSP, ZERO, ZEROP, TRUE, ZERO, SUB1, X, SUB1, LESSP,
        IF, TRUE, EQUAL, X, ZEROP, FALSE, ZERO, ZEROP, TRUE, ZERO, SUB1, X, SUB1, LESSP, IF, IF, X,
        ZEROP, FALSE, ZERO, ZEROP, TRUE, ZERO, SUB1, X, SUB1, LESSP, IF, IF, ZERO, ZEROP, TRUE,
        ZERO, SUB1, X, SUB1, LESSP, IF, EQUAL, ZERO, X, LESSP, ZERO, X, LESSP, X, ZEROP, FALSE,
        ZERO, ZEROP, TRUE, ZERO, SUB1, X, SUB1, LESSP, IF, IF, EQUAL,
    ],
    rules: &[
        LawRule::AxiomRow(ground::ADD1, 3, 0),
        LawRule::AxiomRow(ground::IF, 2, 0),
        LawRule::AxiomRow(ground::IF, 1, 0),
        LawRule::AxiomRow(ground::TRUE, 1, 0),
        LawRule::AxiomRow(ground::ZEROP, 1, 0),
        LawRule::Instance(5, &[LawPair { name: 0, term: 0 }]),
        LawRule::Instance(
            2,
            &[
                LawPair { name: 0, term: 1 },
                LawPair { name: 1, term: 2 },
                LawPair { name: 2, term: 3 },
            ],
        ),
        LawRule::Instance(
            2,
            &[
                LawPair { name: 0, term: 4 },
                LawPair { name: 1, term: 3 },
                LawPair { name: 2, term: 2 },
            ],
        ),
        LawRule::Replace(4, 1, &[], 5, Side::Backwards),
        LawRule::Cut(8, 9, 6),
        LawRule::Reflexive(0),
        LawRule::Cut(11, 10, 4),
        LawRule::Replace(12, 1, &[3], 7, Side::Backwards),
        LawRule::Cut(7, 13, 8),
        LawRule::Cut(1, 14, 1),
        LawRule::Replace(15, 1, &[], 9, Side::Backwards),
        LawRule::Cut(6, 16, 10),
        LawRule::AxiomRow(ground::LESSP, 1, 0),
        LawRule::Instance(
            18,
            &[LawPair { name: 0, term: 0 }, LawPair { name: 1, term: 11 }],
        ),
        LawRule::Instance(
            3,
            &[
                LawPair { name: 0, term: 12 },
                LawPair { name: 1, term: 2 },
                LawPair { name: 2, term: 13 },
            ],
        ),
        LawRule::Instance(
            2,
            &[
                LawPair { name: 0, term: 9 },
                LawPair { name: 1, term: 3 },
                LawPair { name: 2, term: 14 },
            ],
        ),
        LawRule::Replace(4, 1, &[], 13, Side::Backwards),
        LawRule::Cut(21, 22, 15),
        LawRule::Cut(17, 23, 9),
        LawRule::Replace(24, 1, &[], 16, Side::Backwards),
        LawRule::Cut(20, 25, 17),
        LawRule::Replace(26, 2, &[], 18, Side::Backwards),
        LawRule::Cut(19, 27, 19),
    ],
};
