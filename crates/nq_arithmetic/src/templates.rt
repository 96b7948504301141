//! The facts that are tried.

use crate::patterns::{
    EQUAL_ADD1_SUB1_X_X, EQUAL_COUNT_CAR_X_ZERO, EQUAL_COUNT_CDR_X_ZERO,
    EQUAL_COUNT_CONS_X_Y_ADD1_PLUS_COUNT_X_COUNT_Y, EQUAL_COUNT_X_X, EQUAL_LESSP_X_Y_TRUTH,
    EQUAL_SUB1_X_ZERO, EQUAL_TIMES_X_Y_PLUS_Y_TIMES_SUB1_X_Y, EQUAL_X_Y, EQUAL_X_ZERO,
    EQUAL_ZERO_Y, LESSP_COUNT_CAR_X_COUNT_X, LESSP_COUNT_CDR_X_COUNT_X, LESSP_REMAINDER_X_Y_Y,
    LESSP_X_Y, LESSP_Y_X, LESSP_ZERO_X, LESSP_ZERO_Y, LISTP_X, NOT_LESSP_ADD1_SUB1_X_X,
    NOT_LESSP_FIX_X_X, NOT_LESSP_PLUS_Y_DIFFERENCE_X_Y_X, NOT_LESSP_X_DIFFERENCE_X_Y,
    NOT_LESSP_X_FIX_X, NOT_LESSP_X_PLUS_Y_DIFFERENCE_X_Y, NOT_LESSP_X_REMAINDER_X_Y,
    NOT_LESSP_X_SUB1_X, NOT_LESSP_X_Y, NOT_LESSP_ZERO_DIFFERENCE_X_Y, NOT_LESSP_ZERO_X,
    NOT_LESSP_ZERO_Y, NOT_LISTP_X, NOT_NUMBERP_X, NOT_NUMBERP_Y, NOT_ORD_LESSP_X_Y, NOT_ZEROP_X,
    NUMBERP_X, ORD_LESSP_X_Y, ZEROP_X,
};
use crate::template::{ArithmeticLaw, Guard, Template, Way};
use nq_bank::ground;
use nq_division_laws::DivisionLaw;
use nq_number_laws::{InductiveLaw, PlainLaw};

/// The facts, each at a call of its function.
pub const TEMPLATES: &[Template] = &[
    Template {
        outer: ground::SUB1,
        inner: None,
        guards: &[],
        fact: NOT_LESSP_X_SUB1_X,
        law: ArithmeticLaw::Inductive(InductiveLaw::OneLessIsNoMore),
    },
    Template {
        outer: ground::SUB1,
        inner: None,
        guards: &[],
        fact: NOT_LESSP_ADD1_SUB1_X_X,
        law: ArithmeticLaw::Inductive(InductiveLaw::OneLessIsEnough),
    },
    Template {
        outer: ground::DIFFERENCE,
        inner: None,
        guards: &[],
        fact: NOT_LESSP_X_DIFFERENCE_X_Y,
        law: ArithmeticLaw::Inductive(InductiveLaw::DifferenceIsNoMore),
    },
    Template {
        outer: ground::SUB1,
        inner: None,
        guards: &[Guard {
            pattern: NOT_LESSP_ZERO_X,
            way: Way::Sum,
        }],
        fact: EQUAL_ADD1_SUB1_X_X,
        law: ArithmeticLaw::Plain(PlainLaw::OneLessOfPositive),
    },
    Template {
        outer: ground::SUB1,
        inner: None,
        guards: &[Guard {
            pattern: LESSP_ZERO_X,
            way: Way::Sum,
        }],
        fact: EQUAL_SUB1_X_ZERO,
        law: ArithmeticLaw::Plain(PlainLaw::OneLessOfZero),
    },
    Template {
        outer: ground::ZEROP,
        inner: None,
        guards: &[Guard {
            pattern: ZEROP_X,
            way: Way::Goal,
        }],
        fact: LESSP_ZERO_X,
        law: ArithmeticLaw::Plain(PlainLaw::PositiveIsMore),
    },
    Template {
        outer: ground::ZEROP,
        inner: None,
        guards: &[Guard {
            pattern: NOT_ZEROP_X,
            way: Way::Goal,
        }],
        fact: NOT_LESSP_ZERO_X,
        law: ArithmeticLaw::Plain(PlainLaw::ZeroIsNoMore),
    },
    Template {
        outer: ground::ZEROP,
        inner: None,
        guards: &[Guard {
            pattern: NOT_LESSP_ZERO_X,
            way: Way::Sum,
        }],
        fact: NOT_ZEROP_X,
        law: ArithmeticLaw::Plain(PlainLaw::ZeroIsNoMore),
    },
    Template {
        outer: ground::ZEROP,
        inner: None,
        guards: &[Guard {
            pattern: LESSP_ZERO_X,
            way: Way::Sum,
        }],
        fact: ZEROP_X,
        law: ArithmeticLaw::Plain(PlainLaw::PositiveIsMore),
    },
    Template {
        outer: ground::EQUAL,
        inner: None,
        guards: &[
            Guard {
                pattern: EQUAL_X_ZERO,
                way: Way::Goal,
            },
            Guard {
                pattern: NOT_NUMBERP_X,
                way: Way::Number,
            },
        ],
        fact: LESSP_ZERO_X,
        law: ArithmeticLaw::Plain(PlainLaw::NumberIsMore),
    },
    Template {
        outer: ground::EQUAL,
        inner: None,
        guards: &[
            Guard {
                pattern: EQUAL_ZERO_Y,
                way: Way::Goal,
            },
            Guard {
                pattern: NOT_NUMBERP_Y,
                way: Way::Number,
            },
        ],
        fact: LESSP_ZERO_Y,
        law: ArithmeticLaw::Plain(PlainLaw::NumberIsMoreTurned),
    },
    Template {
        outer: ground::ORD_LESSP,
        inner: None,
        guards: &[
            Guard {
                pattern: NOT_ORD_LESSP_X_Y,
                way: Way::Goal,
            },
            Guard {
                pattern: NOT_NUMBERP_X,
                way: Way::Number,
            },
            Guard {
                pattern: NOT_NUMBERP_Y,
                way: Way::Number,
            },
        ],
        fact: LESSP_X_Y,
        law: ArithmeticLaw::Plain(PlainLaw::BelowIsLess),
    },
    Template {
        outer: ground::ORD_LESSP,
        inner: None,
        guards: &[
            Guard {
                pattern: ORD_LESSP_X_Y,
                way: Way::Goal,
            },
            Guard {
                pattern: NOT_NUMBERP_X,
                way: Way::Number,
            },
            Guard {
                pattern: NOT_NUMBERP_Y,
                way: Way::Number,
            },
        ],
        fact: NOT_LESSP_X_Y,
        law: ArithmeticLaw::Plain(PlainLaw::LessIsBelow),
    },
    Template {
        outer: ground::DIFFERENCE,
        inner: None,
        guards: &[],
        fact: NOT_LESSP_PLUS_Y_DIFFERENCE_X_Y_X,
        law: ArithmeticLaw::Inductive(InductiveLaw::DifferenceIsEnough),
    },
    Template {
        outer: ground::DIFFERENCE,
        inner: None,
        guards: &[Guard {
            pattern: LESSP_X_Y,
            way: Way::Sum,
        }],
        fact: NOT_LESSP_X_PLUS_Y_DIFFERENCE_X_Y,
        law: ArithmeticLaw::Inductive(InductiveLaw::DifferenceIsExact),
    },
    Template {
        outer: ground::DIFFERENCE,
        inner: None,
        guards: &[Guard {
            pattern: LESSP_Y_X,
            way: Way::Sum,
        }],
        fact: NOT_LESSP_ZERO_DIFFERENCE_X_Y,
        law: ArithmeticLaw::Inductive(InductiveLaw::DifferenceIsNone),
    },
    Template {
        outer: ground::COUNT,
        inner: Some(ground::CAR),
        guards: &[Guard {
            pattern: NOT_LISTP_X,
            way: Way::Goal,
        }],
        fact: LESSP_COUNT_CAR_X_COUNT_X,
        law: ArithmeticLaw::FirstIsSmaller,
    },
    Template {
        outer: ground::COUNT,
        inner: Some(ground::CDR),
        guards: &[Guard {
            pattern: NOT_LISTP_X,
            way: Way::Goal,
        }],
        fact: LESSP_COUNT_CDR_X_COUNT_X,
        law: ArithmeticLaw::RestIsSmaller,
    },
    Template {
        outer: ground::COUNT,
        inner: Some(ground::CAR),
        guards: &[Guard {
            pattern: LISTP_X,
            way: Way::Goal,
        }],
        fact: EQUAL_COUNT_CAR_X_ZERO,
        law: ArithmeticLaw::Plain(PlainLaw::NoFirst),
    },
    Template {
        outer: ground::COUNT,
        inner: Some(ground::CDR),
        guards: &[Guard {
            pattern: LISTP_X,
            way: Way::Goal,
        }],
        fact: EQUAL_COUNT_CDR_X_ZERO,
        law: ArithmeticLaw::Plain(PlainLaw::NoRest),
    },
    Template {
        outer: ground::COUNT,
        inner: Some(ground::CONS),
        guards: &[],
        fact: EQUAL_COUNT_CONS_X_Y_ADD1_PLUS_COUNT_X_COUNT_Y,
        law: ArithmeticLaw::Plain(PlainLaw::SizeOfPair),
    },
    Template {
        outer: ground::COUNT,
        inner: None,
        guards: &[Guard {
            pattern: NOT_NUMBERP_X,
            way: Way::Number,
        }],
        fact: EQUAL_COUNT_X_X,
        law: ArithmeticLaw::Inductive(InductiveLaw::SizeOfNumber),
    },
    Template {
        outer: ground::COUNT,
        inner: None,
        guards: &[Guard {
            pattern: NOT_LESSP_ZERO_X,
            way: Way::Sum,
        }],
        fact: EQUAL_COUNT_X_X,
        law: ArithmeticLaw::Inductive(InductiveLaw::SizeOfPositive),
    },
    Template {
        outer: ground::FIX,
        inner: None,
        guards: &[],
        fact: NOT_LESSP_FIX_X_X,
        law: ArithmeticLaw::Inductive(InductiveLaw::FixIsEnough),
    },
    Template {
        outer: ground::FIX,
        inner: None,
        guards: &[],
        fact: NOT_LESSP_X_FIX_X,
        law: ArithmeticLaw::Inductive(InductiveLaw::FixIsNoMore),
    },
    Template {
        outer: ground::EQUAL,
        inner: Some(ground::LESSP),
        guards: &[Guard {
            pattern: EQUAL_LESSP_X_Y_TRUTH,
            way: Way::Goal,
        }],
        fact: NOT_LESSP_X_Y,
        law: ArithmeticLaw::Inductive(InductiveLaw::LessIsTruth),
    },
    Template {
        outer: ground::NUMBERP,
        inner: None,
        guards: &[Guard {
            pattern: NOT_LESSP_ZERO_X,
            way: Way::Sum,
        }],
        fact: NUMBERP_X,
        law: ArithmeticLaw::Plain(PlainLaw::PositiveIsNumber),
    },
    Template {
        outer: ground::TIMES,
        inner: None,
        guards: &[Guard {
            pattern: NOT_LESSP_ZERO_X,
            way: Way::Sum,
        }],
        fact: EQUAL_TIMES_X_Y_PLUS_Y_TIMES_SUB1_X_Y,
        law: ArithmeticLaw::Plain(PlainLaw::ProductOfPositive),
    },
    Template {
        outer: ground::REMAINDER,
        inner: None,
        guards: &[],
        fact: NOT_LESSP_X_REMAINDER_X_Y,
        law: ArithmeticLaw::Division(DivisionLaw::RemainderIsNoMore),
    },
    Template {
        outer: ground::REMAINDER,
        inner: None,
        guards: &[Guard {
            pattern: NOT_LESSP_ZERO_Y,
            way: Way::Sum,
        }],
        fact: LESSP_REMAINDER_X_Y_Y,
        law: ArithmeticLaw::Division(DivisionLaw::RemainderIsLess),
    },
];

/// Two numbers, neither of which is below the other, are one.
pub const COMPARISON: Template = Template {
    outer: ground::EQUAL,
    inner: None,
    guards: &[
        Guard {
            pattern: NOT_NUMBERP_X,
            way: Way::Number,
        },
        Guard {
            pattern: NOT_NUMBERP_Y,
            way: Way::Number,
        },
        Guard {
            pattern: LESSP_X_Y,
            way: Way::Sum,
        },
        Guard {
            pattern: LESSP_Y_X,
            way: Way::Sum,
        },
    ],
    fact: EQUAL_X_Y,
    law: ArithmeticLaw::Inductive(InductiveLaw::NumbersCompare),
};
