//! The table of the law `size_is_ordinal`. It is printed.

use crate::table::{Law, LawPair, LawRule};
use crate::words::{
    AND, CAR, CDR, COUNT, EQUAL, IF, LISTP, NOT, NUMBERP, OR, ORD_LESSP, ORDINALP, X, ZERO,
};
use nq_bank::ground;
use nq_rule::Side;

/// The law `size_is_ordinal`.
pub const SIZE_IS_ORDINAL: Law = Law {
    names: &[b"X", b"Y", b"Z"],
    terms: &[
        X, COUNT, X, COUNT, NUMBERP, X, COUNT, LISTP, X, COUNT, CAR, ORDINALP, X, COUNT, CAR, ZERO,
        EQUAL, NOT, X, COUNT, CDR, ORDINALP, X, COUNT, CDR, LISTP, NOT, X, COUNT, CAR, X, COUNT,
        CDR, CAR, ORD_LESSP, NOT, OR, AND, AND, AND, X, COUNT, LISTP, X, COUNT, CAR, ORDINALP, X,
        COUNT, CAR, ZERO, EQUAL, NOT, X, COUNT, CDR, ORDINALP, X, COUNT, CDR, LISTP, NOT, X, COUNT,
        CAR, X, COUNT, CDR, CAR, ORD_LESSP, NOT, OR, AND, AND, AND, X, COUNT, NUMBERP, IF, X,
        COUNT, LISTP, X, COUNT, CAR, ORDINALP, X, COUNT, CAR, ZERO, EQUAL, NOT, X, COUNT, CDR,
        ORDINALP, X, COUNT, CDR, LISTP, NOT, X, COUNT, CAR, X, COUNT, CDR, CAR, ORD_LESSP, NOT, OR,
        AND, AND, AND, X, COUNT, NUMBERP, IF, X, COUNT, NUMBERP, EQUAL, X, COUNT, ORDINALP, X,
        COUNT, ORDINALP, X, COUNT, LISTP, X, COUNT, CAR, ORDINALP, X, COUNT, CAR, ZERO, EQUAL, NOT,
        X, COUNT, CDR, ORDINALP, X, COUNT, CDR, LISTP, NOT, X, COUNT, CAR, X, COUNT, CDR, CAR,
        ORD_LESSP, NOT, OR, AND, AND, AND, X, COUNT, NUMBERP, IF, EQUAL,
    ],
    rules: &[
        LawRule::AxiomRow(ground::IF, 1, 0),
        LawRule::AxiomRow(ground::CONS, 13, 1),
        LawRule::AxiomRow(ground::COUNT, 1, 0),
        LawRule::Instance(2, &[LawPair { name: 0, term: 0 }]),
        LawRule::Cut(3, 4, 1),
        LawRule::AxiomRow(ground::ORDINALP, 1, 0),
        LawRule::Instance(6, &[LawPair { name: 0, term: 0 }]),
        LawRule::Instance(
            1,
            &[
                LawPair { name: 0, term: 2 },
                LawPair { name: 1, term: 3 },
                LawPair { name: 2, term: 1 },
            ],
        ),
        LawRule::Replace(3, 1, &[], 4, Side::Backwards),
        LawRule::Cut(8, 9, 5),
        LawRule::Cut(10, 5, 2),
        LawRule::Replace(11, 1, &[], 6, Side::Backwards),
        LawRule::Cut(7, 12, 7),
    ],
};
