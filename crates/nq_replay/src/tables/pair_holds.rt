//! The table of the law `pair_holds`. It is printed.

use crate::table::{Law, LawPair, LawRule};
use crate::words::{AND, EQUAL, FALSE, IF, TRUE, X, Y};
use nq_bank::ground;
use nq_rule::Side;

/// The law `pair_holds`.
pub const PAIR_HOLDS: Law = Law {
    names: &[b"P", b"Q", b"X", b"Y", b"Z"],
    terms: &[
        X, Y, TRUE, FALSE, X, TRUE, FALSE, IF, X, TRUE, FALSE, IF, TRUE, EQUAL, Y, TRUE, FALSE, IF,
        Y, TRUE, FALSE, IF, TRUE, EQUAL, X, Y, AND, X, Y, AND, X, Y, TRUE, FALSE, IF, FALSE, IF,
        EQUAL,
    ],
    rules: &[
        LawRule::AxiomRow(ground::IF, 2, 0),
        LawRule::AxiomRow(ground::TRUE, 1, 0),
        LawRule::AxiomRow(ground::AND, 1, 0),
        LawRule::Instance(
            3,
            &[LawPair { name: 0, term: 0 }, LawPair { name: 1, term: 1 }],
        ),
        LawRule::Instance(
            1,
            &[
                LawPair { name: 2, term: 1 },
                LawPair { name: 3, term: 2 },
                LawPair { name: 4, term: 3 },
            ],
        ),
        LawRule::Instance(
            1,
            &[LawPair { name: 3, term: 2 }, LawPair { name: 4, term: 3 }],
        ),
        LawRule::Replace(2, 1, &[], 4, Side::Backwards),
        LawRule::Cut(6, 7, 5),
        LawRule::Replace(8, 2, &[2], 6, Side::Backwards),
        LawRule::Cut(5, 9, 7),
        LawRule::Replace(10, 3, &[], 8, Side::Backwards),
        LawRule::Cut(4, 11, 9),
    ],
};
