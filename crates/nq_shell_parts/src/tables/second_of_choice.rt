//! The table of the law `second_of_choice`. It is printed.

use nq_bank::ground;
use nq_replay::words::{EQUAL, FALSE, IF, OR, TRUE, X, Y};
use nq_replay::{Law, LawPair, LawRule};
use nq_rule::Side;

/// The law `second_of_choice`.
pub const SECOND_OF_CHOICE: Law = Law {
    names: &[b"X", b"Y", b"Z", b"P", b"Q"],
    terms: &[
        Y, TRUE, FALSE, X, X, TRUE, TRUE, IF, X, TRUE, TRUE, IF, TRUE, EQUAL, Y, TRUE, FALSE, IF,
        Y, TRUE, FALSE, IF, TRUE, EQUAL, X, Y, OR, X, Y, OR, X, TRUE, Y, TRUE, FALSE, IF, IF,
        EQUAL,
    ],
    rules: &[
        LawRule::AxiomRow(ground::IF, 2, 0),
        LawRule::AxiomRow(ground::IF, 1, 0),
        LawRule::AxiomRow(ground::TRUE, 1, 0),
        LawRule::Instance(
            1,
            &[
                LawPair { name: 0, term: 0 },
                LawPair { name: 1, term: 1 },
                LawPair { name: 2, term: 2 },
            ],
        ),
        LawRule::AxiomRow(ground::OR, 1, 0),
        LawRule::Instance(
            5,
            &[LawPair { name: 3, term: 3 }, LawPair { name: 4, term: 0 }],
        ),
        LawRule::Instance(
            1,
            &[LawPair { name: 1, term: 1 }, LawPair { name: 2, term: 1 }],
        ),
        LawRule::Instance(
            2,
            &[LawPair { name: 1, term: 1 }, LawPair { name: 2, term: 1 }],
        ),
        LawRule::Replace(3, 1, &[], 4, Side::Backwards),
        LawRule::Cut(7, 9, 5),
        LawRule::Cut(8, 9, 5),
        LawRule::Cut(11, 10, 3),
        LawRule::Replace(12, 1, &[3], 6, Side::Backwards),
        LawRule::Cut(4, 13, 7),
        LawRule::Replace(14, 2, &[], 8, Side::Backwards),
        LawRule::Cut(6, 15, 9),
    ],
};
