//! The table of the law `atom_part_is_smaller`. It is printed.

use crate::table::{Law, LawPair, LawRule};
use crate::words::{ADD1, COUNT, EQUAL, IF, PACK, TRUE, UNPACK, X, ZERO};
use nq_bank::ground;
use nq_rule::Side;

/// The law `atom_part_is_smaller`.
pub const ATOM_PART_IS_SMALLER: Law = Law {
    names: &[b"X1", b"X", b"Y", b"Z"],
    terms: &[
        X, UNPACK, X, X, UNPACK, PACK, X, EQUAL, TRUE, X, UNPACK, COUNT, ZERO, TRUE, X, UNPACK,
        COUNT, ZERO, IF, TRUE, X, UNPACK, COUNT, ZERO, IF, X, UNPACK, COUNT, EQUAL, X, COUNT, X,
        COUNT, TRUE, X, UNPACK, COUNT, ZERO, IF, ADD1, EQUAL,
    ],
    rules: &[
        LawRule::AxiomRow(ground::IF, 2, 0),
        LawRule::AxiomRow(ground::TRUE, 1, 0),
        LawRule::AxiomRow(ground::PACK, 14, 0),
        LawRule::Instance(4, &[LawPair { name: 0, term: 0 }]),
        LawRule::AxiomRow(ground::PACK, 5, 0),
        LawRule::Replace(5, 1, &[1, 1], 1, Side::Forwards),
        LawRule::Cut(6, 7, 2),
        LawRule::Instance(
            2,
            &[
                LawPair { name: 1, term: 3 },
                LawPair { name: 2, term: 4 },
                LawPair { name: 3, term: 5 },
            ],
        ),
        LawRule::Cut(3, 9, 3),
        LawRule::Instance(1, &[LawPair { name: 1, term: 4 }]),
        LawRule::Replace(11, 1, &[2, 1], 6, Side::Backwards),
        LawRule::Cut(10, 12, 7),
        LawRule::Replace(13, 1, &[2], 8, Side::Backwards),
        LawRule::Cut(8, 14, 9),
    ],
};
