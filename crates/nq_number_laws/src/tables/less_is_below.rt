//! The table of the law `less_is_below`. It is printed.

use nq_bank::ground;
use nq_replay::words::{AND, CAR, CDR, EQUAL, FALSE, IF, LESSP, LISTP, NOT, ORD_LESSP, TRUE, X, Y};
use nq_replay::{Law, LawPair, LawRule};
use nq_rule::Side;

/// The law `less_is_below`.
pub const LESS_IS_BELOW: Law = Law {
    names: &[b"X", b"Y", b"Z"],
    terms: &[
        Y, LISTP, NOT, X, Y, LESSP, TRUE, FALSE, X, CAR, Y, CAR, ORD_LESSP, TRUE, X, CAR, Y, CAR,
        EQUAL, X, CDR, Y, CDR, ORD_LESSP, AND, IF, X, LISTP, NOT, X, LISTP, NOT, X, Y, LESSP,
        FALSE, IF, X, LISTP, NOT, X, Y, LESSP, FALSE, IF, X, Y, LESSP, EQUAL, X, LISTP, Y, LISTP,
        NOT, FALSE, X, CAR, Y, CAR, ORD_LESSP, TRUE, X, CAR, Y, CAR, EQUAL, X, CDR, Y, CDR,
        ORD_LESSP, AND, IF, IF, Y, LISTP, NOT, FALSE, X, CAR, Y, CAR, ORD_LESSP, TRUE, X, CAR, Y,
        CAR, EQUAL, X, CDR, Y, CDR, ORD_LESSP, AND, IF, IF, FALSE, EQUAL, Y, LISTP, NOT, X, Y,
        LESSP, TRUE, IF, Y, LISTP, NOT, X, Y, LESSP, TRUE, IF, X, Y, LESSP, EQUAL, Y, LISTP, X, Y,
        ORD_LESSP, X, Y, ORD_LESSP, X, LISTP, NOT, Y, LISTP, NOT, X, Y, LESSP, TRUE, IF, Y, LISTP,
        NOT, FALSE, X, CAR, Y, CAR, ORD_LESSP, TRUE, X, CAR, Y, CAR, EQUAL, X, CDR, Y, CDR,
        ORD_LESSP, AND, IF, IF, IF, EQUAL, Y, X, Y, LESSP, NOT, X, Y, ORD_LESSP, X, Y, LESSP,
        EQUAL,
    ],
    rules: &[
        LawRule::AxiomRow(ground::IF, 2, 0),
        LawRule::AxiomRow(ground::CONS, 13, 1),
        LawRule::AxiomRow(ground::ORD_LESSP, 1, 0),
        LawRule::Instance(
            1,
            &[
                LawPair { name: 0, term: 0 },
                LawPair { name: 1, term: 1 },
                LawPair { name: 2, term: 2 },
            ],
        ),
        LawRule::Instance(
            1,
            &[
                LawPair { name: 0, term: 0 },
                LawPair { name: 1, term: 3 },
                LawPair { name: 2, term: 4 },
            ],
        ),
        LawRule::Instance(
            1,
            &[
                LawPair { name: 0, term: 5 },
                LawPair { name: 1, term: 1 },
                LawPair { name: 2, term: 3 },
            ],
        ),
        LawRule::Reflexive(1),
        LawRule::Replace(7, 1, &[1], 6, Side::Backwards),
        LawRule::Cut(6, 8, 7),
        LawRule::Taut(&[8, 5]),
        LawRule::Cut(10, 9, 5),
        LawRule::Replace(11, 2, &[1, 3], 9, Side::Backwards),
        LawRule::Cut(5, 12, 10),
        LawRule::Replace(13, 3, &[1, 2], 11, Side::Backwards),
        LawRule::Cut(4, 14, 12),
        LawRule::Taut(&[13, 0]),
        LawRule::Cut(16, 15, 0),
        LawRule::Replace(17, 3, &[1], 14, Side::Backwards),
        LawRule::Cut(3, 18, 15),
        LawRule::Cut(19, 2, 8),
        LawRule::Instance(2, &[LawPair { name: 0, term: 16 }]),
        LawRule::Cut(20, 21, 13),
        LawRule::Taut(&[1, 17]),
        LawRule::Replace(23, 1, &[], 14, Side::Backwards),
        LawRule::Cut(22, 24, 18),
    ],
};
