//! The table of the law `neither_of_choice`. It is printed.

use nq_bank::ground;
use nq_replay::words::{EQUAL, FALSE, IF, OR, TRUE, X, Y};
use nq_replay::{Law, LawPair, LawRule};
use nq_rule::Side;

/// The law `neither_of_choice`.
pub const NEITHER_OF_CHOICE: Law = Law {
    names: &[b"P", b"Q", b"X", b"Y", b"Z"],
    terms: &[
        X, Y, TRUE, FALSE, X, TRUE, FALSE, IF, X, TRUE, FALSE, IF, FALSE, EQUAL, Y, TRUE, FALSE,
        IF, Y, TRUE, FALSE, IF, FALSE, EQUAL, X, Y, OR, X, Y, OR, X, TRUE, Y, TRUE, FALSE, IF, IF,
        EQUAL,
    ],
    rules: &[
        LawRule::AxiomRow(ground::IF, 1, 0),
        LawRule::AxiomRow(ground::FALSE, 1, 0),
        LawRule::AxiomRow(ground::OR, 1, 0),
        LawRule::Instance(
            3,
            &[LawPair { name: 0, term: 0 }, LawPair { name: 1, term: 1 }],
        ),
        LawRule::Instance(
            1,
            &[
                LawPair { name: 2, term: 1 },
                LawPair { name: 3, term: 2 },
                LawPair { name: 4, term: 3 },
            ],
        ),
        LawRule::Instance(
            1,
            &[LawPair { name: 3, term: 2 }, LawPair { name: 4, term: 3 }],
        ),
        LawRule::Replace(2, 1, &[1], 4, Side::Backwards),
        LawRule::Cut(6, 7, 5),
        LawRule::Replace(8, 2, &[1, 3], 6, Side::Backwards),
        LawRule::Cut(5, 9, 7),
        LawRule::Replace(10, 3, &[1], 8, Side::Backwards),
        LawRule::Cut(4, 11, 9),
    ],
};
