//! The table of the law `implication_opens`. It is printed.

use crate::table::{Law, LawPair, LawRule};
use crate::words::{EQUAL, FALSE, IF, IMPLIES, TRUE, X, Y};
use nq_bank::ground;
use nq_rule::Side;

/// The law `implication_opens`.
pub const IMPLICATION_OPENS: Law = Law {
    names: &[b"P", b"Q", b"Y", b"Z", b"X"],
    terms: &[
        X, Y, FALSE, TRUE, X, FALSE, TRUE, IF, X, FALSE, TRUE, IF, FALSE, EQUAL, Y, TRUE, FALSE,
        IF, Y, TRUE, FALSE, IF, FALSE, EQUAL, X, Y, IMPLIES, X, Y, IMPLIES, X, Y, TRUE, FALSE, IF,
        TRUE, IF, EQUAL,
    ],
    rules: &[
        LawRule::AxiomRow(ground::IF, 2, 0),
        LawRule::AxiomRow(ground::IF, 1, 0),
        LawRule::AxiomRow(ground::FALSE, 1, 0),
        LawRule::AxiomRow(ground::IMPLIES, 1, 0),
        LawRule::Instance(
            4,
            &[LawPair { name: 0, term: 0 }, LawPair { name: 1, term: 1 }],
        ),
        LawRule::Instance(
            1,
            &[LawPair { name: 2, term: 2 }, LawPair { name: 3, term: 3 }],
        ),
        LawRule::Instance(
            2,
            &[
                LawPair { name: 4, term: 1 },
                LawPair { name: 2, term: 3 },
                LawPair { name: 3, term: 2 },
            ],
        ),
        LawRule::Replace(3, 1, &[1], 4, Side::Backwards),
        LawRule::Cut(6, 8, 5),
        LawRule::Replace(9, 2, &[1, 2], 6, Side::Backwards),
        LawRule::Cut(7, 10, 7),
        LawRule::Replace(11, 3, &[1], 8, Side::Backwards),
        LawRule::Cut(5, 12, 9),
    ],
};
