//! The table of the law `measure_is_ordinal`. It is printed.

use crate::table::{Law, LawPair, LawRule};
use crate::words::{
    AND, CAR, CDR, EQUAL, IF, LISTP, NOT, NUMBERP, OR, ORD_LESSP, ORDINALP, X, ZERO,
};
use nq_bank::ground;
use nq_rule::Side;

/// The law `measure_is_ordinal`.
pub const MEASURE_IS_ORDINAL: Law = Law {
    names: &[b"X", b"Y", b"Z"],
    terms: &[
        ZERO, ZERO, NUMBERP, ZERO, LISTP, ZERO, CAR, ORDINALP, ZERO, CAR, ZERO, EQUAL, NOT, ZERO,
        CDR, ORDINALP, ZERO, CDR, LISTP, NOT, ZERO, CAR, ZERO, CDR, CAR, ORD_LESSP, NOT, OR, AND,
        AND, AND, ZERO, LISTP, ZERO, CAR, ORDINALP, ZERO, CAR, ZERO, EQUAL, NOT, ZERO, CDR,
        ORDINALP, ZERO, CDR, LISTP, NOT, ZERO, CAR, ZERO, CDR, CAR, ORD_LESSP, NOT, OR, AND, AND,
        AND, ZERO, NUMBERP, IF, ZERO, LISTP, ZERO, CAR, ORDINALP, ZERO, CAR, ZERO, EQUAL, NOT,
        ZERO, CDR, ORDINALP, ZERO, CDR, LISTP, NOT, ZERO, CAR, ZERO, CDR, CAR, ORD_LESSP, NOT, OR,
        AND, AND, AND, ZERO, NUMBERP, IF, ZERO, NUMBERP, EQUAL, ZERO, ORDINALP, ZERO, ORDINALP,
        ZERO, LISTP, ZERO, CAR, ORDINALP, ZERO, CAR, ZERO, EQUAL, NOT, ZERO, CDR, ORDINALP, ZERO,
        CDR, LISTP, NOT, ZERO, CAR, ZERO, CDR, CAR, ORD_LESSP, NOT, OR, AND, AND, AND, ZERO,
        NUMBERP, IF, EQUAL, X, ORDINALP, X, X, ORDINALP, NOT, X, ORDINALP, X, ZERO, IF, X,
        ORDINALP, X, ZERO, IF, X, EQUAL, X, ORDINALP, X, ZERO, IF, ZERO, EQUAL,
    ],
    rules: &[
        LawRule::AxiomRow(ground::ADD1, 3, 0),
        LawRule::AxiomRow(ground::IF, 2, 0),
        LawRule::AxiomRow(ground::IF, 1, 0),
        LawRule::AxiomRow(ground::CONS, 13, 1),
        LawRule::AxiomRow(ground::ORDINALP, 1, 0),
        LawRule::Instance(4, &[LawPair { name: 0, term: 0 }]),
        LawRule::Cut(1, 6, 1),
        LawRule::Instance(5, &[LawPair { name: 0, term: 0 }]),
        LawRule::Instance(
            3,
            &[
                LawPair { name: 0, term: 2 },
                LawPair { name: 1, term: 3 },
                LawPair { name: 2, term: 1 },
            ],
        ),
        LawRule::Replace(1, 1, &[], 4, Side::Backwards),
        LawRule::Cut(9, 10, 5),
        LawRule::Cut(11, 7, 2),
        LawRule::Replace(12, 1, &[], 6, Side::Backwards),
        LawRule::Cut(8, 13, 7),
        LawRule::Instance(
            2,
            &[
                LawPair { name: 0, term: 8 },
                LawPair { name: 1, term: 9 },
                LawPair { name: 2, term: 0 },
            ],
        ),
        LawRule::Taut(&[8, 10]),
        LawRule::Replace(16, 1, &[1], 11, Side::Backwards),
        LawRule::Cut(15, 17, 12),
        LawRule::Instance(
            3,
            &[
                LawPair { name: 0, term: 8 },
                LawPair { name: 1, term: 9 },
                LawPair { name: 2, term: 0 },
            ],
        ),
        LawRule::Replace(14, 1, &[1], 11, Side::Backwards),
        LawRule::Cut(19, 20, 13),
        LawRule::Cut(21, 18, 8),
    ],
};
