//! The steps of the terms of laws: the call of each ground function, and letters. Their names are short, so that tables are.

use nq_bank::ground;
use nq_steps::{Leaf, Step};

/// A call of `ADD1`.
pub const ADD1: Step = Step::Call(ground::ADD1, 1);

/// A call of `AND`.
pub const AND: Step = Step::Call(ground::AND, 2);

/// A call of `CAR`.
pub const CAR: Step = Step::Call(ground::CAR, 1);

/// A call of `CDR`.
pub const CDR: Step = Step::Call(ground::CDR, 1);

/// A call of `CONS`.
pub const CONS: Step = Step::Call(ground::CONS, 2);

/// A call of `COUNT`.
pub const COUNT: Step = Step::Call(ground::COUNT, 1);

/// A call of `DIFFERENCE`.
pub const DIFFERENCE: Step = Step::Call(ground::DIFFERENCE, 2);

/// A call of `EQUAL`.
pub const EQUAL: Step = Step::Call(ground::EQUAL, 2);

/// `(FALSE)`.
pub const FALSE: Step = Step::Call(ground::FALSE, 0);

/// A call of `FIX`.
pub const FIX: Step = Step::Call(ground::FIX, 1);

/// A call of `NEGATIVE-GUTS`.
pub const GUTS: Step = Step::Call(ground::NEGATIVE_GUTS, 1);

/// A call of `IF`.
pub const IF: Step = Step::Call(ground::IF, 3);

/// A call of `IMPLIES`.
pub const IMPLIES: Step = Step::Call(ground::IMPLIES, 2);

/// A call of `LESSP`.
pub const LESSP: Step = Step::Call(ground::LESSP, 2);

/// A call of `LISTP`.
pub const LISTP: Step = Step::Call(ground::LISTP, 1);

/// A call of `MINUS`.
pub const MINUS: Step = Step::Call(ground::MINUS, 1);

/// A call of `NLISTP`.
pub const NLISTP: Step = Step::Call(ground::NLISTP, 1);

/// A call of `NOT`.
pub const NOT: Step = Step::Call(ground::NOT, 1);

/// A call of `NUMBERP`.
pub const NUMBERP: Step = Step::Call(ground::NUMBERP, 1);

/// A call of `OR`.
pub const OR: Step = Step::Call(ground::OR, 2);

/// A call of `ORDINALP`.
pub const ORDINALP: Step = Step::Call(ground::ORDINALP, 1);

/// A call of `ORD-LESSP`.
pub const ORD_LESSP: Step = Step::Call(ground::ORD_LESSP, 2);

/// A call of `PACK`.
pub const PACK: Step = Step::Call(ground::PACK, 1);

/// A call of `PLUS`.
pub const PLUS: Step = Step::Call(ground::PLUS, 2);

/// A call of `QUOTIENT`.
pub const QUOTIENT: Step = Step::Call(ground::QUOTIENT, 2);

/// A call of `SUB1`.
pub const SUB1: Step = Step::Call(ground::SUB1, 1);

/// A call of `TIMES`.
pub const TIMES: Step = Step::Call(ground::TIMES, 2);

/// `(TRUE)`.
pub const TRUE: Step = Step::Call(ground::TRUE, 0);

/// A call of `UNPACK`.
pub const UNPACK: Step = Step::Call(ground::UNPACK, 1);

/// `(ZERO)`.
pub const ZERO: Step = Step::Call(ground::ZERO, 0);

/// A call of `ZEROP`.
pub const ZEROP: Step = Step::Call(ground::ZEROP, 1);

/// The letter A.
pub const A: Step = Step::Leaf(Leaf::Letter(b'A'));

/// The letter B.
pub const B: Step = Step::Leaf(Leaf::Letter(b'B'));

/// The letter X.
pub const X: Step = Step::Leaf(Leaf::Letter(b'X'));

/// The letter Y.
pub const Y: Step = Step::Leaf(Leaf::Letter(b'Y'));

/// The letter Z.
pub const Z: Step = Step::Leaf(Leaf::Letter(b'Z'));

/// The first part.
pub const PART: Step = Step::Leaf(Leaf::Part(0));
