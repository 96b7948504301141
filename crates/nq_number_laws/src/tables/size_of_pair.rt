//! The table of the law `size_of_pair`. It is printed.

use nq_bank::ground;
use nq_replay::words::{ADD1, CONS, COUNT, EQUAL, IF, PLUS, TRUE, X, Y, ZERO};
use nq_replay::{Law, LawPair, LawRule};
use nq_rule::Side;

/// The law `size_of_pair`.
pub const SIZE_OF_PAIR: Law = Law {
    names: &[b"X1", b"X2", b"X", b"Y", b"Z"],
    terms: &[
        X, Y, TRUE, X, COUNT, ZERO, Y, COUNT, X, COUNT, Y, COUNT, PLUS, ADD1, TRUE, Y, COUNT, ZERO,
        IF, TRUE, Y, COUNT, ZERO, IF, Y, COUNT, EQUAL, TRUE, X, COUNT, ZERO, IF, TRUE, X, COUNT,
        ZERO, IF, X, COUNT, EQUAL, X, Y, CONS, COUNT, X, Y, CONS, COUNT, TRUE, X, COUNT, ZERO, IF,
        TRUE, Y, COUNT, ZERO, IF, PLUS, ADD1, EQUAL,
    ],
    rules: &[
        LawRule::AxiomRow(ground::IF, 2, 0),
        LawRule::AxiomRow(ground::TRUE, 1, 0),
        LawRule::AxiomRow(ground::CONS, 14, 0),
        LawRule::Instance(
            3,
            &[LawPair { name: 0, term: 0 }, LawPair { name: 1, term: 1 }],
        ),
        LawRule::Instance(
            1,
            &[
                LawPair { name: 2, term: 2 },
                LawPair { name: 3, term: 3 },
                LawPair { name: 4, term: 4 },
            ],
        ),
        LawRule::Cut(2, 5, 2),
        LawRule::Instance(
            1,
            &[
                LawPair { name: 2, term: 2 },
                LawPair { name: 3, term: 5 },
                LawPair { name: 4, term: 4 },
            ],
        ),
        LawRule::Cut(2, 7, 2),
        LawRule::Reflexive(6),
        LawRule::Replace(9, 1, &[1, 1, 2], 7, Side::Backwards),
        LawRule::Cut(8, 10, 8),
        LawRule::Replace(11, 1, &[1, 1, 1], 9, Side::Backwards),
        LawRule::Cut(6, 12, 10),
        LawRule::Replace(13, 1, &[1], 11, Side::Backwards),
        LawRule::Cut(4, 14, 12),
    ],
};
