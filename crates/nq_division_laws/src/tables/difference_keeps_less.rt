//! The table of the law `difference_keeps_less`. It is printed.

use nq_replay::words::{DIFFERENCE, LESSP, X, Y};
use nq_replay::{Law, LawPair, LawRule};

/// The law `difference_keeps_less`.
pub const DIFFERENCE_KEEPS_LESS: Law = Law {
    names: &[b"X", b"Y"],
    terms: &[X, Y, DIFFERENCE, X, X, Y, DIFFERENCE, X, LESSP],
    rules: &[
        LawRule::Instance(
            2,
            &[LawPair { name: 0, term: 0 }, LawPair { name: 1, term: 1 }],
        ),
        LawRule::Cut(1, 3, 2),
    ],
};
