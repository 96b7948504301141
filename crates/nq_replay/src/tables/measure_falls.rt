//! The table of the law `measure_falls`. It is printed.

use crate::table::{Law, LawPair, LawRule};
use crate::words::{EQUAL, IF, NOT, ORD_LESSP, ORDINALP, X, Y, ZERO};
use nq_bank::ground;
use nq_rule::Side;

/// The law `measure_falls`.
pub const MEASURE_FALLS: Law = Law {
    names: &[b"X", b"Y", b"Z"],
    terms: &[
        X, ORDINALP, X, ZERO, Y, ORDINALP, X, Y, ORD_LESSP, X, Y, ORD_LESSP, NOT, Y, ORDINALP, Y,
        ZERO, IF, Y, ORDINALP, Y, ZERO, IF, Y, EQUAL, X, ORDINALP, X, ZERO, IF, X, ORDINALP, X,
        ZERO, IF, X, EQUAL,
    ],
    rules: &[
        LawRule::AxiomRow(ground::IF, 2, 0),
        LawRule::Instance(
            1,
            &[
                LawPair { name: 0, term: 0 },
                LawPair { name: 1, term: 1 },
                LawPair { name: 2, term: 2 },
            ],
        ),
        LawRule::Instance(
            1,
            &[LawPair { name: 0, term: 3 }, LawPair { name: 2, term: 2 }],
        ),
        LawRule::Taut(&[4, 5]),
        LawRule::Replace(4, 1, &[2], 6, Side::Backwards),
        LawRule::Cut(3, 5, 7),
        LawRule::Replace(6, 2, &[1], 8, Side::Backwards),
        LawRule::Cut(2, 7, 9),
    ],
};
