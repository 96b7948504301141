//! The table of the law `first_of_choice`. It is printed.

use nq_bank::ground;
use nq_replay::words::{EQUAL, FALSE, IF, OR, TRUE, X, Y};
use nq_replay::{Law, LawPair, LawRule};
use nq_rule::Side;

/// The law `first_of_choice`.
pub const FIRST_OF_CHOICE: Law = Law {
    names: &[b"P", b"Q", b"Y", b"Z"],
    terms: &[
        X, Y, TRUE, Y, TRUE, FALSE, IF, X, TRUE, Y, TRUE, FALSE, IF, IF, X, TRUE, Y, TRUE, FALSE,
        IF, IF, TRUE, EQUAL, X, Y, OR, X, Y, OR, X, TRUE, Y, TRUE, FALSE, IF, IF, EQUAL,
    ],
    rules: &[
        LawRule::AxiomRow(ground::IF, 2, 0),
        LawRule::AxiomRow(ground::TRUE, 1, 0),
        LawRule::AxiomRow(ground::OR, 1, 0),
        LawRule::Instance(
            3,
            &[LawPair { name: 0, term: 0 }, LawPair { name: 1, term: 1 }],
        ),
        LawRule::Instance(
            1,
            &[LawPair { name: 2, term: 2 }, LawPair { name: 3, term: 3 }],
        ),
        LawRule::Replace(2, 1, &[], 4, Side::Backwards),
        LawRule::Cut(5, 6, 5),
        LawRule::Replace(7, 2, &[], 6, Side::Backwards),
        LawRule::Cut(4, 8, 7),
    ],
};
