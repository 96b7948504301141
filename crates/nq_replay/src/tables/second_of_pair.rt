//! The table of the law `second_of_pair`. It is printed.

use crate::table::{Law, LawPair, LawRule};
use crate::words::{AND, EQUAL, FALSE, IF, TRUE, X, Y};
use nq_bank::ground;
use nq_rule::Side;

/// The law `second_of_pair`.
pub const SECOND_OF_PAIR: Law = Law {
    names: &[b"P", b"Q", b"Y", b"Z", b"X"],
    terms: &[
        X, Y, FALSE, TRUE, X, FALSE, FALSE, IF, X, FALSE, FALSE, IF, FALSE, EQUAL, Y, TRUE, FALSE,
        IF, Y, TRUE, FALSE, IF, FALSE, EQUAL, X, Y, AND, X, Y, AND, X, Y, TRUE, FALSE, IF, FALSE,
        IF, EQUAL,
    ],
    rules: &[
        LawRule::AxiomRow(ground::IF, 2, 0),
        LawRule::AxiomRow(ground::IF, 1, 0),
        LawRule::AxiomRow(ground::FALSE, 1, 0),
        LawRule::AxiomRow(ground::AND, 1, 0),
        LawRule::Instance(
            4,
            &[LawPair { name: 0, term: 0 }, LawPair { name: 1, term: 1 }],
        ),
        LawRule::Instance(
            1,
            &[LawPair { name: 2, term: 2 }, LawPair { name: 3, term: 2 }],
        ),
        LawRule::Instance(
            2,
            &[LawPair { name: 2, term: 2 }, LawPair { name: 3, term: 2 }],
        ),
        LawRule::Instance(
            2,
            &[
                LawPair { name: 4, term: 1 },
                LawPair { name: 2, term: 3 },
                LawPair { name: 3, term: 2 },
            ],
        ),
        LawRule::Replace(3, 1, &[1], 4, Side::Backwards),
        LawRule::Cut(6, 9, 5),
        LawRule::Cut(7, 9, 5),
        LawRule::Cut(11, 10, 0),
        LawRule::Replace(12, 1, &[1, 2], 6, Side::Backwards),
        LawRule::Cut(8, 13, 7),
        LawRule::Replace(14, 2, &[1], 8, Side::Backwards),
        LawRule::Cut(5, 15, 9),
    ],
};
