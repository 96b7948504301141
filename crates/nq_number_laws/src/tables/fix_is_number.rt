//! The table of the law `fix_is_number`. It is printed.

use nq_bank::ground;
use nq_replay::words::{EQUAL, FIX, IF, NOT, NUMBERP, X, ZERO};
use nq_replay::{Law, LawPair, LawRule};
use nq_rule::Side;

/// The law `fix_is_number`.
pub const FIX_IS_NUMBER: Law = Law {
    names: &[b"X", b"Y", b"Z"],
    terms: &[
        X, NUMBERP, X, ZERO, X, NUMBERP, NOT, X, NUMBERP, X, ZERO, IF, X, NUMBERP, X, ZERO, IF, X,
        EQUAL, X, NUMBERP, X, ZERO, IF, ZERO, EQUAL, X, FIX, X, FIX, X, NUMBERP, X, ZERO, IF,
        EQUAL,
    ],
    rules: &[
        LawRule::AxiomRow(ground::ADD1, 3, 0),
        LawRule::AxiomRow(ground::FIX, 1, 0),
        LawRule::AxiomRow(ground::IF, 2, 0),
        LawRule::AxiomRow(ground::IF, 1, 0),
        LawRule::Instance(
            3,
            &[
                LawPair { name: 0, term: 0 },
                LawPair { name: 1, term: 1 },
                LawPair { name: 2, term: 2 },
            ],
        ),
        LawRule::Instance(
            4,
            &[
                LawPair { name: 0, term: 0 },
                LawPair { name: 1, term: 1 },
                LawPair { name: 2, term: 2 },
            ],
        ),
        LawRule::Taut(&[0, 3]),
        LawRule::Replace(7, 1, &[1], 4, Side::Backwards),
        LawRule::Cut(5, 8, 5),
        LawRule::Replace(1, 1, &[1], 4, Side::Backwards),
        LawRule::Cut(6, 10, 6),
        LawRule::Cut(11, 9, 0),
        LawRule::Replace(12, 1, &[1], 7, Side::Backwards),
        LawRule::Cut(2, 13, 8),
    ],
};
