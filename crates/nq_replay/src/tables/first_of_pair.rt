//! The table of the law `first_of_pair`. It is printed.

use crate::table::{Law, LawPair, LawRule};
use crate::words::{AND, EQUAL, FALSE, IF, TRUE, X, Y};
use nq_bank::ground;
use nq_rule::Side;

/// The law `first_of_pair`.
pub const FIRST_OF_PAIR: Law = Law {
    names: &[b"P", b"Q", b"Y", b"Z"],
    terms: &[
        X, Y, Y, TRUE, FALSE, IF, FALSE, X, Y, TRUE, FALSE, IF, FALSE, IF, X, Y, TRUE, FALSE, IF,
        FALSE, IF, FALSE, EQUAL, X, Y, AND, X, Y, AND, X, Y, TRUE, FALSE, IF, FALSE, IF, EQUAL,
    ],
    rules: &[
        LawRule::AxiomRow(ground::IF, 1, 0),
        LawRule::AxiomRow(ground::FALSE, 1, 0),
        LawRule::AxiomRow(ground::AND, 1, 0),
        LawRule::Instance(
            3,
            &[LawPair { name: 0, term: 0 }, LawPair { name: 1, term: 1 }],
        ),
        LawRule::Instance(
            1,
            &[LawPair { name: 2, term: 2 }, LawPair { name: 3, term: 3 }],
        ),
        LawRule::Replace(2, 1, &[1], 4, Side::Backwards),
        LawRule::Cut(5, 6, 5),
        LawRule::Replace(7, 2, &[1], 6, Side::Backwards),
        LawRule::Cut(4, 8, 7),
    ],
};
