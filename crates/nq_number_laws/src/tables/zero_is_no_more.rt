//! The table of the law `zero_is_no_more`. It is printed.

use nq_bank::ground;
use nq_replay::words::{EQUAL, FALSE, IF, LESSP, SUB1, TRUE, X, Y, ZERO, ZEROP};
use nq_replay::{Law, LawPair, LawRule};
use nq_rule::Side;

/// The law `zero_is_no_more`.
pub const ZERO_IS_NO_MORE: Law = Law {
    names: &[b"X", b"Y", b"Z"],
    terms: &[
        FALSE, Y, ZEROP, X, ZEROP, TRUE, X, SUB1, Y, SUB1, LESSP, IF, Y, ZEROP, FALSE, X, ZEROP,
        TRUE, X, SUB1, Y, SUB1, LESSP, IF, IF, Y, ZEROP, FALSE, X, ZEROP, TRUE, X, SUB1, Y, SUB1,
        LESSP, IF, IF, FALSE, EQUAL, X, Y, LESSP, X, Y, LESSP, Y, ZEROP, FALSE, X, ZEROP, TRUE, X,
        SUB1, Y, SUB1, LESSP, IF, IF, EQUAL, ZERO, X, ZERO, X, LESSP, ZERO, X, LESSP, FALSE, EQUAL,
    ],
    rules: &[
        LawRule::AxiomRow(ground::IF, 2, 0),
        LawRule::Reflexive(0),
        LawRule::AxiomRow(ground::FALSE, 1, 0),
        LawRule::AxiomRow(ground::LESSP, 1, 0),
        LawRule::Instance(
            1,
            &[
                LawPair { name: 0, term: 1 },
                LawPair { name: 1, term: 0 },
                LawPair { name: 2, term: 2 },
            ],
        ),
        LawRule::Replace(2, 1, &[1], 3, Side::Backwards),
        LawRule::Cut(5, 6, 4),
        LawRule::Replace(7, 2, &[1], 5, Side::Backwards),
        LawRule::Cut(4, 8, 6),
        LawRule::Instance(
            9,
            &[LawPair { name: 0, term: 7 }, LawPair { name: 1, term: 8 }],
        ),
        LawRule::Replace(3, 1, &[1], 9, Side::Backwards),
        LawRule::Cut(10, 11, 10),
    ],
};
