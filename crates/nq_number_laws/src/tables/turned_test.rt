//! The table of the law `turned_test`. It is printed.

use nq_bank::ground;
use nq_replay::words::{A, EQUAL, FALSE, IF, NOT, TRUE, X, Y};
use nq_replay::{Law, LawPair, LawRule};
use nq_rule::Side;

/// The law `turned_test`.
pub const TURNED_TEST: Law = Law {
    names: &[b"P", b"X", b"Y", b"Z"],
    terms: &[
        X, Y, A, FALSE, TRUE, A, Y, X, IF, A, Y, X, IF, Y, EQUAL, FALSE, X, Y, IF, FALSE, X, Y, IF,
        Y, EQUAL, A, FALSE, TRUE, IF, A, FALSE, TRUE, IF, FALSE, EQUAL, A, Y, X, IF, X, EQUAL,
        TRUE, X, Y, IF, TRUE, X, Y, IF, X, EQUAL, A, FALSE, TRUE, IF, TRUE, EQUAL, A, NOT, A, NOT,
        A, FALSE, TRUE, IF, EQUAL,
    ],
    rules: &[
        LawRule::AxiomRow(ground::IF, 2, 0),
        LawRule::AxiomRow(ground::IF, 1, 0),
        LawRule::AxiomRow(ground::TRUE, 1, 0),
        LawRule::AxiomRow(ground::FALSE, 1, 0),
        LawRule::Reflexive(0),
        LawRule::AxiomRow(ground::NOT, 1, 0),
        LawRule::Reflexive(1),
        LawRule::Instance(6, &[LawPair { name: 0, term: 2 }]),
        LawRule::Instance(
            1,
            &[
                LawPair { name: 1, term: 2 },
                LawPair { name: 2, term: 3 },
                LawPair { name: 3, term: 4 },
            ],
        ),
        LawRule::Instance(
            2,
            &[
                LawPair { name: 1, term: 3 },
                LawPair { name: 2, term: 0 },
                LawPair { name: 3, term: 1 },
            ],
        ),
        LawRule::Cut(10, 4, 3),
        LawRule::Instance(
            1,
            &[LawPair { name: 1, term: 2 }, LawPair { name: 3, term: 0 }],
        ),
        LawRule::Replace(7, 1, &[2], 5, Side::Backwards),
        LawRule::Cut(12, 13, 6),
        LawRule::Replace(14, 2, &[1], 7, Side::Backwards),
        LawRule::Cut(11, 15, 8),
        LawRule::Replace(16, 2, &[1, 1], 9, Side::Backwards),
        LawRule::Cut(9, 17, 10),
        LawRule::Instance(
            2,
            &[
                LawPair { name: 1, term: 2 },
                LawPair { name: 2, term: 3 },
                LawPair { name: 3, term: 4 },
            ],
        ),
        LawRule::Instance(
            1,
            &[
                LawPair { name: 1, term: 4 },
                LawPair { name: 2, term: 0 },
                LawPair { name: 3, term: 1 },
            ],
        ),
        LawRule::Cut(3, 20, 4),
        LawRule::Instance(
            2,
            &[LawPair { name: 1, term: 2 }, LawPair { name: 3, term: 0 }],
        ),
        LawRule::Replace(5, 1, &[2], 5, Side::Backwards),
        LawRule::Cut(22, 23, 11),
        LawRule::Replace(24, 2, &[1], 12, Side::Backwards),
        LawRule::Cut(21, 25, 13),
        LawRule::Replace(26, 2, &[1, 1], 9, Side::Backwards),
        LawRule::Cut(19, 27, 14),
        LawRule::Cut(28, 18, 2),
        LawRule::Replace(29, 1, &[1, 1], 15, Side::Backwards),
        LawRule::Cut(8, 30, 16),
    ],
};
