//! The table of the law `nested_test`. It is printed.

use nq_bank::ground;
use nq_replay::words::{A, B, EQUAL, IF, X, Y, Z};
use nq_replay::{Law, LawPair, LawRule};
use nq_rule::Side;

/// The law `nested_test`.
pub const NESTED_TEST: Law = Law {
    names: &[b"X", b"Y", b"Z"],
    terms: &[
        A, B, B, X, Y, IF, Z, X, Y, IF, A, B, X, Y, IF, Z, X, Y, IF, IF, A, B, X, Y, IF, Z, X, Y,
        IF, IF, B, X, Y, IF, EQUAL, A, B, Z, IF, A, B, Z, IF, B, EQUAL, A, B, X, Y, IF, Z, X, Y,
        IF, IF, Z, X, Y, IF, EQUAL, A, B, Z, IF, Z, EQUAL,
    ],
    rules: &[
        LawRule::AxiomRow(ground::IF, 2, 0),
        LawRule::AxiomRow(ground::IF, 1, 0),
        LawRule::Instance(
            1,
            &[LawPair { name: 0, term: 0 }, LawPair { name: 1, term: 1 }],
        ),
        LawRule::Instance(
            1,
            &[
                LawPair { name: 0, term: 0 },
                LawPair { name: 1, term: 2 },
                LawPair { name: 2, term: 3 },
            ],
        ),
        LawRule::Reflexive(2),
        LawRule::Replace(5, 1, &[2], 4, Side::Backwards),
        LawRule::Cut(4, 6, 5),
        LawRule::Replace(7, 2, &[1, 1], 6, Side::Backwards),
        LawRule::Cut(3, 8, 7),
        LawRule::Instance(
            2,
            &[LawPair { name: 0, term: 0 }, LawPair { name: 1, term: 1 }],
        ),
        LawRule::Instance(
            2,
            &[
                LawPair { name: 0, term: 0 },
                LawPair { name: 1, term: 2 },
                LawPair { name: 2, term: 3 },
            ],
        ),
        LawRule::Reflexive(3),
        LawRule::Replace(12, 1, &[2], 4, Side::Backwards),
        LawRule::Cut(11, 13, 8),
        LawRule::Replace(14, 2, &[1, 1], 6, Side::Backwards),
        LawRule::Cut(10, 15, 9),
        LawRule::Cut(16, 9, 0),
    ],
};
