//! The table of the law `one_less_of_number`. It is printed.

use crate::table::{Law, LawPair, LawRule};
use crate::words::{EQUAL, FALSE, IF, NOT, NUMBERP, TRUE, X, ZERO, ZEROP};
use nq_bank::ground;
use nq_rule::Side;

/// The law `one_less_of_number`.
pub const ONE_LESS_OF_NUMBER: Law = Law {
    names: &[b"X", b"Y", b"Z"],
    terms: &[
        X, NUMBERP, FALSE, TRUE, X, ZERO, EQUAL, X, ZERO, EQUAL, TRUE, FALSE, IF, X, ZERO, EQUAL,
        TRUE, FALSE, IF, FALSE, EQUAL, X, NUMBERP, FALSE, TRUE, IF, X, NUMBERP, FALSE, TRUE, IF,
        FALSE, EQUAL, X, ZEROP, X, ZEROP, X, ZERO, EQUAL, TRUE, X, NUMBERP, FALSE, TRUE, IF, IF,
        EQUAL, X, ZERO, EQUAL, NOT, X, ZERO, EQUAL, NOT, NOT,
    ],
    rules: &[
        LawRule::AxiomRow(ground::IF, 2, 0),
        LawRule::AxiomRow(ground::IF, 1, 0),
        LawRule::AxiomRow(ground::ZEROP, 1, 0),
        LawRule::Instance(
            2,
            &[
                LawPair { name: 0, term: 0 },
                LawPair { name: 1, term: 1 },
                LawPair { name: 2, term: 2 },
            ],
        ),
        LawRule::Instance(
            3,
            &[
                LawPair { name: 0, term: 3 },
                LawPair { name: 1, term: 2 },
                LawPair { name: 2, term: 1 },
            ],
        ),
        LawRule::AxiomRow(ground::FALSE, 1, 0),
        LawRule::Replace(7, 1, &[1], 4, Side::Backwards),
        LawRule::Cut(6, 8, 5),
        LawRule::Replace(9, 2, &[1, 3], 6, Side::Backwards),
        LawRule::Cut(5, 10, 7),
        LawRule::Replace(11, 3, &[1], 8, Side::Backwards),
        LawRule::Cut(4, 12, 9),
        LawRule::Cut(1, 13, 8),
        LawRule::Taut(&[10, 11]),
        LawRule::Cut(14, 15, 3),
    ],
};
