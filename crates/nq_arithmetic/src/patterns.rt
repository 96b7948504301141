//! The literals of facts.

use crate::functions::{One, Two};
use crate::template::{Make, Pattern};

/// The place of the first term.
const X: usize = 0;

/// The place of the second term.
const Y: usize = 1;

/// The place of 0.
const ZERO: usize = 2;

/// The place of T.
const TRUTH: usize = 3;

/// The place of the term that is made first.
const FIRST: usize = 4;

/// The place of the term that is made second.
const SECOND: usize = 5;

/// The place of the term that is made third.
const THIRD: usize = 6;

/// The place of the term that is made fourth.
const FOURTH: usize = 7;

/// The place of the term that is made fifth.
const FIFTH: usize = 8;

/// The place of the term that is made sixth.
const SIXTH: usize = 9;

/// `(NOT (LESSP 0 X))`.
pub const NOT_LESSP_ZERO_X: Pattern = Pattern {
    makes: &[Make::Two(Two::Lessp, ZERO, X)],
    denied: true,
};

/// `(EQUAL (ADD1 (SUB1 X)) X)`.
pub const EQUAL_ADD1_SUB1_X_X: Pattern = Pattern {
    makes: &[
        Make::One(One::Sub1, X),
        Make::One(One::Add1, FIRST),
        Make::Two(Two::Equal, SECOND, X),
    ],
    denied: false,
};

/// `(LESSP 0 X)`.
pub const LESSP_ZERO_X: Pattern = Pattern {
    makes: &[Make::Two(Two::Lessp, ZERO, X)],
    denied: false,
};

/// `(EQUAL (SUB1 X) 0)`.
pub const EQUAL_SUB1_X_ZERO: Pattern = Pattern {
    makes: &[Make::One(One::Sub1, X), Make::Two(Two::Equal, FIRST, ZERO)],
    denied: false,
};

/// `(ZEROP X)`.
pub const ZEROP_X: Pattern = Pattern {
    makes: &[Make::One(One::Zerop, X)],
    denied: false,
};

/// `(NOT (ZEROP X))`.
pub const NOT_ZEROP_X: Pattern = Pattern {
    makes: &[Make::One(One::Zerop, X)],
    denied: true,
};

/// `(EQUAL X 0)`.
pub const EQUAL_X_ZERO: Pattern = Pattern {
    makes: &[Make::Two(Two::Equal, X, ZERO)],
    denied: false,
};

/// `(NOT (NUMBERP X))`.
pub const NOT_NUMBERP_X: Pattern = Pattern {
    makes: &[Make::One(One::Numberp, X)],
    denied: true,
};

/// `(EQUAL 0 Y)`.
pub const EQUAL_ZERO_Y: Pattern = Pattern {
    makes: &[Make::Two(Two::Equal, ZERO, Y)],
    denied: false,
};

/// `(NOT (NUMBERP Y))`.
pub const NOT_NUMBERP_Y: Pattern = Pattern {
    makes: &[Make::One(One::Numberp, Y)],
    denied: true,
};

/// `(LESSP 0 Y)`.
pub const LESSP_ZERO_Y: Pattern = Pattern {
    makes: &[Make::Two(Two::Lessp, ZERO, Y)],
    denied: false,
};

/// `(NOT (ORD-LESSP X Y))`.
pub const NOT_ORD_LESSP_X_Y: Pattern = Pattern {
    makes: &[Make::Two(Two::OrdLessp, X, Y)],
    denied: true,
};

/// `(LESSP X Y)`.
pub const LESSP_X_Y: Pattern = Pattern {
    makes: &[Make::Two(Two::Lessp, X, Y)],
    denied: false,
};

/// `(ORD-LESSP X Y)`.
pub const ORD_LESSP_X_Y: Pattern = Pattern {
    makes: &[Make::Two(Two::OrdLessp, X, Y)],
    denied: false,
};

/// `(NOT (LESSP X Y))`.
pub const NOT_LESSP_X_Y: Pattern = Pattern {
    makes: &[Make::Two(Two::Lessp, X, Y)],
    denied: true,
};

/// `(NOT (LESSP (PLUS Y (DIFFERENCE X Y)) X))`.
pub const NOT_LESSP_PLUS_Y_DIFFERENCE_X_Y_X: Pattern = Pattern {
    makes: &[
        Make::Two(Two::Difference, X, Y),
        Make::Two(Two::Plus, Y, FIRST),
        Make::Two(Two::Lessp, SECOND, X),
    ],
    denied: true,
};

/// `(NOT (LESSP X (PLUS Y (DIFFERENCE X Y))))`.
pub const NOT_LESSP_X_PLUS_Y_DIFFERENCE_X_Y: Pattern = Pattern {
    makes: &[
        Make::Two(Two::Difference, X, Y),
        Make::Two(Two::Plus, Y, FIRST),
        Make::Two(Two::Lessp, X, SECOND),
    ],
    denied: true,
};

/// `(LESSP Y X)`.
pub const LESSP_Y_X: Pattern = Pattern {
    makes: &[Make::Two(Two::Lessp, Y, X)],
    denied: false,
};

/// `(NOT (LESSP 0 (DIFFERENCE X Y)))`.
pub const NOT_LESSP_ZERO_DIFFERENCE_X_Y: Pattern = Pattern {
    makes: &[
        Make::Two(Two::Difference, X, Y),
        Make::Two(Two::Lessp, ZERO, FIRST),
    ],
    denied: true,
};

/// `(NOT (LISTP X))`.
pub const NOT_LISTP_X: Pattern = Pattern {
    makes: &[Make::One(One::Listp, X)],
    denied: true,
};

/// `(LESSP (COUNT (CAR X)) (COUNT X))`.
pub const LESSP_COUNT_CAR_X_COUNT_X: Pattern = Pattern {
    makes: &[
        Make::One(One::Car, X),
        Make::One(One::Count, FIRST),
        Make::One(One::Count, X),
        Make::Two(Two::Lessp, SECOND, THIRD),
    ],
    denied: false,
};

/// `(LESSP (COUNT (CDR X)) (COUNT X))`.
pub const LESSP_COUNT_CDR_X_COUNT_X: Pattern = Pattern {
    makes: &[
        Make::One(One::Cdr, X),
        Make::One(One::Count, FIRST),
        Make::One(One::Count, X),
        Make::Two(Two::Lessp, SECOND, THIRD),
    ],
    denied: false,
};

/// `(LISTP X)`.
pub const LISTP_X: Pattern = Pattern {
    makes: &[Make::One(One::Listp, X)],
    denied: false,
};

/// `(EQUAL (COUNT (CAR X)) 0)`.
pub const EQUAL_COUNT_CAR_X_ZERO: Pattern = Pattern {
    makes: &[
        Make::One(One::Car, X),
        Make::One(One::Count, FIRST),
        Make::Two(Two::Equal, SECOND, ZERO),
    ],
    denied: false,
};

/// `(EQUAL (COUNT (CDR X)) 0)`.
pub const EQUAL_COUNT_CDR_X_ZERO: Pattern = Pattern {
    makes: &[
        Make::One(One::Cdr, X),
        Make::One(One::Count, FIRST),
        Make::Two(Two::Equal, SECOND, ZERO),
    ],
    denied: false,
};

/// `(EQUAL (COUNT (CONS X Y)) (ADD1 (PLUS (COUNT X) (COUNT Y))))`.
pub const EQUAL_COUNT_CONS_X_Y_ADD1_PLUS_COUNT_X_COUNT_Y: Pattern = Pattern {
    makes: &[
        Make::Two(Two::Cons, X, Y),
        Make::One(One::Count, FIRST),
        Make::One(One::Count, X),
        Make::One(One::Count, Y),
        Make::Two(Two::Plus, THIRD, FOURTH),
        Make::One(One::Add1, FIFTH),
        Make::Two(Two::Equal, SECOND, SIXTH),
    ],
    denied: false,
};

/// `(EQUAL (COUNT X) X)`.
pub const EQUAL_COUNT_X_X: Pattern = Pattern {
    makes: &[Make::One(One::Count, X), Make::Two(Two::Equal, FIRST, X)],
    denied: false,
};

/// `(EQUAL (TIMES X Y) (PLUS Y (TIMES (SUB1 X) Y)))`.
pub const EQUAL_TIMES_X_Y_PLUS_Y_TIMES_SUB1_X_Y: Pattern = Pattern {
    makes: &[
        Make::Two(Two::Times, X, Y),
        Make::One(One::Sub1, X),
        Make::Two(Two::Times, SECOND, Y),
        Make::Two(Two::Plus, Y, THIRD),
        Make::Two(Two::Equal, FIRST, FOURTH),
    ],
    denied: false,
};

/// `(EQUAL X Y)`.
pub const EQUAL_X_Y: Pattern = Pattern {
    makes: &[Make::Two(Two::Equal, X, Y)],
    denied: false,
};

/// `(NOT (LESSP 0 Y))`.
pub const NOT_LESSP_ZERO_Y: Pattern = Pattern {
    makes: &[Make::Two(Two::Lessp, ZERO, Y)],
    denied: true,
};

/// `(LESSP (REMAINDER X Y) Y)`.
pub const LESSP_REMAINDER_X_Y_Y: Pattern = Pattern {
    makes: &[
        Make::Two(Two::Remainder, X, Y),
        Make::Two(Two::Lessp, FIRST, Y),
    ],
    denied: false,
};

/// `(NOT (LESSP X (REMAINDER X Y)))`.
pub const NOT_LESSP_X_REMAINDER_X_Y: Pattern = Pattern {
    makes: &[
        Make::Two(Two::Remainder, X, Y),
        Make::Two(Two::Lessp, X, FIRST),
    ],
    denied: true,
};

/// `(NUMBERP X)`.
pub const NUMBERP_X: Pattern = Pattern {
    makes: &[Make::One(One::Numberp, X)],
    denied: false,
};

/// `(NOT (LESSP (FIX X) X))`.
pub const NOT_LESSP_FIX_X_X: Pattern = Pattern {
    makes: &[Make::One(One::Fix, X), Make::Two(Two::Lessp, FIRST, X)],
    denied: true,
};

/// `(NOT (LESSP X (FIX X)))`.
pub const NOT_LESSP_X_FIX_X: Pattern = Pattern {
    makes: &[Make::One(One::Fix, X), Make::Two(Two::Lessp, X, FIRST)],
    denied: true,
};

/// `(EQUAL (LESSP X Y) T)`.
pub const EQUAL_LESSP_X_Y_TRUTH: Pattern = Pattern {
    makes: &[
        Make::Two(Two::Lessp, X, Y),
        Make::Two(Two::Equal, FIRST, TRUTH),
    ],
    denied: false,
};

/// `(NOT (LESSP X (SUB1 X)))`.
pub const NOT_LESSP_X_SUB1_X: Pattern = Pattern {
    makes: &[Make::One(One::Sub1, X), Make::Two(Two::Lessp, X, FIRST)],
    denied: true,
};

/// `(NOT (LESSP (ADD1 (SUB1 X)) X))`.
pub const NOT_LESSP_ADD1_SUB1_X_X: Pattern = Pattern {
    makes: &[
        Make::One(One::Sub1, X),
        Make::One(One::Add1, FIRST),
        Make::Two(Two::Lessp, SECOND, X),
    ],
    denied: true,
};

/// `(NOT (LESSP X (DIFFERENCE X Y)))`.
pub const NOT_LESSP_X_DIFFERENCE_X_Y: Pattern = Pattern {
    makes: &[
        Make::Two(Two::Difference, X, Y),
        Make::Two(Two::Lessp, X, FIRST),
    ],
    denied: true,
};
