//! The table of the law `allowed_is_smaller`. It is printed.

use nq_bank::ground;
use nq_replay::words::{A, ADD1, B, COUNT, EQUAL, IF, LESSP, NOT, X, Y, Z, ZERO};
use nq_replay::{Law, LawPair, LawRule};
use nq_rule::Side;

/// The law `allowed_is_smaller`.
pub const ALLOWED_IS_SMALLER: Law = Law {
    names: &[b"X", b"Y", b"Z"],
    terms: &[
        Y, X, COUNT, ZERO, IF, Z, ADD1, LESSP, Y, X, COUNT, ZERO, IF, Z, ADD1, LESSP, NOT, Y, X,
        COUNT, ZERO, Y, X, COUNT, ZERO, IF, X, COUNT, EQUAL, B, COUNT, A,
    ],
    rules: &[
        LawRule::AxiomRow(ground::IF, 2, 0),
        LawRule::Taut(&[0, 1]),
        LawRule::Instance(
            1,
            &[
                LawPair { name: 0, term: 2 },
                LawPair { name: 1, term: 3 },
                LawPair { name: 2, term: 4 },
            ],
        ),
        LawRule::Replace(2, 1, &[1], 3, Side::Forwards),
        LawRule::Cut(3, 4, 5),
        LawRule::Replace(5, 2, &[2], 6, Side::Backwards),
        LawRule::Replace(6, 2, &[1, 1], 7, Side::Backwards),
    ],
};
