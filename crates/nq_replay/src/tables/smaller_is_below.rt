//! The table of the law `smaller_is_below`. It is printed.

use crate::table::{Law, LawPair, LawRule};
use crate::words::{
    AND, CAR, CDR, COUNT, EQUAL, FALSE, IF, LESSP, LISTP, NOT, NUMBERP, ORD_LESSP, TRUE, X, Y,
};
use nq_bank::ground;
use nq_rule::Side;

/// The law `smaller_is_below`.
pub const SMALLER_IS_BELOW: Law = Law {
    names: &[b"X", b"Y", b"Z"],
    terms: &[
        X, COUNT, X, COUNT, NUMBERP, Y, LISTP, NOT, X, Y, LESSP, TRUE, FALSE, X, CAR, Y, CAR,
        ORD_LESSP, TRUE, X, CAR, Y, CAR, EQUAL, X, CDR, Y, CDR, ORD_LESSP, AND, IF, X, LISTP, NOT,
        X, LISTP, NOT, X, Y, LESSP, FALSE, IF, X, LISTP, NOT, X, Y, LESSP, FALSE, IF, X, Y, LESSP,
        EQUAL, X, LISTP, Y, LISTP, NOT, FALSE, X, CAR, Y, CAR, ORD_LESSP, TRUE, X, CAR, Y, CAR,
        EQUAL, X, CDR, Y, CDR, ORD_LESSP, AND, IF, IF, Y, LISTP, NOT, FALSE, X, CAR, Y, CAR,
        ORD_LESSP, TRUE, X, CAR, Y, CAR, EQUAL, X, CDR, Y, CDR, ORD_LESSP, AND, IF, IF, FALSE,
        EQUAL, Y, LISTP, NOT, X, Y, LESSP, TRUE, IF, Y, LISTP, NOT, X, Y, LESSP, TRUE, IF, X, Y,
        LESSP, EQUAL, Y, LISTP, X, Y, ORD_LESSP, X, Y, ORD_LESSP, X, LISTP, NOT, Y, LISTP, NOT, X,
        Y, LESSP, TRUE, IF, Y, LISTP, NOT, FALSE, X, CAR, Y, CAR, ORD_LESSP, TRUE, X, CAR, Y, CAR,
        EQUAL, X, CDR, Y, CDR, ORD_LESSP, AND, IF, IF, IF, EQUAL, Y, COUNT, X, COUNT, LISTP, Y, Y,
        COUNT, NUMBERP, Y, COUNT, LISTP, X, COUNT, Y, COUNT, LESSP, X, COUNT, Y, COUNT, LESSP, NOT,
        X, COUNT, Y, COUNT, ORD_LESSP, X, COUNT, Y, COUNT, ORD_LESSP, X, COUNT, Y, COUNT, LESSP,
        EQUAL, X, COUNT, Y, COUNT, ORD_LESSP, NOT,
    ],
    rules: &[
        LawRule::AxiomRow(ground::IF, 2, 0),
        LawRule::AxiomRow(ground::CONS, 13, 1),
        LawRule::AxiomRow(ground::COUNT, 1, 0),
        LawRule::Instance(2, &[LawPair { name: 0, term: 0 }]),
        LawRule::Cut(3, 4, 1),
        LawRule::AxiomRow(ground::ORD_LESSP, 1, 0),
        LawRule::Instance(
            1,
            &[
                LawPair { name: 0, term: 2 },
                LawPair { name: 1, term: 3 },
                LawPair { name: 2, term: 4 },
            ],
        ),
        LawRule::Instance(
            1,
            &[
                LawPair { name: 0, term: 2 },
                LawPair { name: 1, term: 5 },
                LawPair { name: 2, term: 6 },
            ],
        ),
        LawRule::Instance(
            1,
            &[
                LawPair { name: 0, term: 7 },
                LawPair { name: 1, term: 3 },
                LawPair { name: 2, term: 5 },
            ],
        ),
        LawRule::Reflexive(3),
        LawRule::Replace(10, 1, &[1], 8, Side::Backwards),
        LawRule::Cut(9, 11, 9),
        LawRule::Taut(&[10, 7]),
        LawRule::Cut(13, 12, 7),
        LawRule::Replace(14, 2, &[1, 3], 11, Side::Backwards),
        LawRule::Cut(8, 15, 12),
        LawRule::Replace(16, 3, &[1, 2], 13, Side::Backwards),
        LawRule::Cut(7, 17, 14),
        LawRule::Taut(&[15, 2]),
        LawRule::Cut(19, 18, 2),
        LawRule::Replace(20, 3, &[1], 16, Side::Backwards),
        LawRule::Cut(6, 21, 17),
        LawRule::Instance(
            22,
            &[LawPair { name: 0, term: 0 }, LawPair { name: 1, term: 18 }],
        ),
        LawRule::Cut(23, 5, 19),
        LawRule::Instance(3, &[LawPair { name: 0, term: 20 }]),
        LawRule::Instance(2, &[LawPair { name: 0, term: 18 }]),
        LawRule::Cut(25, 26, 21),
        LawRule::Cut(24, 27, 22),
        LawRule::Taut(&[23, 24]),
        LawRule::Replace(29, 1, &[], 25, Side::Backwards),
        LawRule::Cut(28, 30, 26),
        LawRule::Taut(&[27, 25]),
        LawRule::Cut(31, 32, 25),
    ],
};
