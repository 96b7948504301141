//! The ground history as a table: TRUE, FALSE, EQUAL, IF and COUNT, the four shells, and the definitions, in their order.
//!
//! A term is written as steps on a stack, so each function stands behind its arguments: `(IF (NUMBERP X) X 0)` is written
//! `X NUMBERP X ZERO IF`.

use nq_bank::{Sym, ground};
use nq_steps::{Leaf, Step};

/// A part of a ground shell. Its default is 0.
#[derive(Clone, Copy)]
pub enum PartRow {
    /// The accessor of a part that is a number.
    Number(Sym),
    /// The accessor of a part that is any object.
    Any(Sym),
}

/// An event of the ground history.
#[derive(Clone, Copy)]
pub enum Row {
    /// A function without a definition, with its number of arguments.
    Declared(Sym, u32),
    /// A shell: its constructor, its base if there is one, its recognizer and its parts.
    Shell(Sym, Option<Sym>, Sym, &'static [PartRow]),
    /// A definition: its function, its formals, each a variable of one letter, its body, and its measure; no steps stand for
    /// none.
    Defined(Sym, &'static [u8], &'static [Step], &'static [Step]),
}

const X: Step = Step::Leaf(Leaf::Letter(b'X'));

const Y: Step = Step::Leaf(Leaf::Letter(b'Y'));

const P: Step = Step::Leaf(Leaf::Letter(b'P'));

const Q: Step = Step::Leaf(Leaf::Letter(b'Q'));

/// The code of the letter, as in the literal atom NIL.
const N: Step = Step::Leaf(Leaf::Number(78));

const I: Step = Step::Leaf(Leaf::Number(73));

const L: Step = Step::Leaf(Leaf::Number(76));

const T: Step = Step::Call(ground::TRUE, 0);

const F: Step = Step::Call(ground::FALSE, 0);

const ZERO: Step = Step::Call(ground::ZERO, 0);

const COUNT: Step = Step::Call(ground::COUNT, 1);

const EQUAL: Step = Step::Call(ground::EQUAL, 2);

const IF: Step = Step::Call(ground::IF, 3);

const ADD1: Step = Step::Call(ground::ADD1, 1);

const NUMBERP: Step = Step::Call(ground::NUMBERP, 1);

const SUB1: Step = Step::Call(ground::SUB1, 1);

const CONS: Step = Step::Call(ground::CONS, 2);

const LISTP: Step = Step::Call(ground::LISTP, 1);

const CAR: Step = Step::Call(ground::CAR, 1);

const CDR: Step = Step::Call(ground::CDR, 1);

const PACK: Step = Step::Call(ground::PACK, 1);

const NOT: Step = Step::Call(ground::NOT, 1);

const AND: Step = Step::Call(ground::AND, 2);

const OR: Step = Step::Call(ground::OR, 2);

const ZEROP: Step = Step::Call(ground::ZEROP, 1);

const FIX: Step = Step::Call(ground::FIX, 1);

const PLUS: Step = Step::Call(ground::PLUS, 2);

const LESSP: Step = Step::Call(ground::LESSP, 2);

const DIFFERENCE: Step = Step::Call(ground::DIFFERENCE, 2);

const TIMES: Step = Step::Call(ground::TIMES, 2);

const QUOTIENT: Step = Step::Call(ground::QUOTIENT, 2);

const REMAINDER: Step = Step::Call(ground::REMAINDER, 2);

const NLISTP: Step = Step::Call(ground::NLISTP, 1);

const APPEND: Step = Step::Call(ground::APPEND, 2);

const MEMBER: Step = Step::Call(ground::MEMBER, 2);

const ORD_LESSP: Step = Step::Call(ground::ORD_LESSP, 2);

const ORDINALP: Step = Step::Call(ground::ORDINALP, 1);

const UNION: Step = Step::Call(ground::UNION, 2);

const ASSOC: Step = Step::Call(ground::ASSOC, 2);

const PAIRLIST: Step = Step::Call(ground::PAIRLIST, 2);

/// The events, in their order.
pub const EVENTS: [Row; 38] = [
    Row::Declared(ground::TRUE, 0),
    Row::Declared(ground::FALSE, 0),
    Row::Declared(ground::EQUAL, 2),
    Row::Declared(ground::IF, 3),
    Row::Declared(ground::COUNT, 1),
    Row::Shell(
        ground::ADD1,
        Some(ground::ZERO),
        ground::NUMBERP,
        &[PartRow::Number(ground::SUB1)],
    ),
    Row::Shell(
        ground::CONS,
        None,
        ground::LISTP,
        &[PartRow::Any(ground::CAR), PartRow::Any(ground::CDR)],
    ),
    Row::Shell(
        ground::PACK,
        None,
        ground::LITATOM,
        &[PartRow::Any(ground::UNPACK)],
    ),
    Row::Shell(
        ground::MINUS,
        None,
        ground::NEGATIVEP,
        &[PartRow::Number(ground::NEGATIVE_GUTS)],
    ),
    Row::Defined(ground::TRUEP, b"X", &[X, T, EQUAL], &[]),
    Row::Defined(ground::FALSEP, b"X", &[X, F, EQUAL], &[]),
    Row::Defined(ground::NOT, b"P", &[P, F, T, IF], &[]),
    Row::Defined(ground::AND, b"PQ", &[P, Q, T, F, IF, F, IF], &[]),
    Row::Defined(ground::OR, b"PQ", &[P, T, Q, T, F, IF, IF], &[]),
    Row::Defined(ground::IMPLIES, b"PQ", &[P, Q, T, F, IF, T, IF], &[]),
    Row::Defined(ground::IFF, b"PQ", &[P, Q, T, F, IF, Q, F, T, IF, IF], &[]),
    Row::Defined(
        ground::ZEROP,
        b"X",
        &[X, ZERO, EQUAL, T, X, NUMBERP, F, T, IF, IF],
        &[],
    ),
    Row::Defined(ground::FIX, b"X", &[X, NUMBERP, X, ZERO, IF], &[]),
    Row::Defined(
        ground::PLUS,
        b"XY",
        &[X, ZEROP, Y, FIX, X, SUB1, Y, PLUS, ADD1, IF],
        &[X, COUNT],
    ),
    Row::Defined(
        ground::LESSP,
        b"XY",
        &[Y, ZEROP, F, X, ZEROP, T, X, SUB1, Y, SUB1, LESSP, IF, IF],
        &[X, COUNT],
    ),
    Row::Defined(
        ground::DIFFERENCE,
        b"XY",
        &[
            X, ZEROP, ZERO, Y, ZEROP, X, X, SUB1, Y, SUB1, DIFFERENCE, IF, IF,
        ],
        &[X, COUNT],
    ),
    Row::Defined(
        ground::TIMES,
        b"XY",
        &[X, ZEROP, ZERO, Y, X, SUB1, Y, TIMES, PLUS, IF],
        &[X, COUNT],
    ),
    Row::Defined(
        ground::QUOTIENT,
        b"XY",
        &[
            Y, ZEROP, ZERO, X, Y, LESSP, ZERO, X, Y, DIFFERENCE, Y, QUOTIENT, ADD1, IF, IF,
        ],
        &[X, COUNT],
    ),
    Row::Defined(
        ground::REMAINDER,
        b"XY",
        &[
            Y, ZEROP, X, FIX, X, Y, LESSP, X, FIX, X, Y, DIFFERENCE, Y, REMAINDER, IF, IF,
        ],
        &[X, COUNT],
    ),
    Row::Defined(ground::GREATERP, b"XY", &[Y, X, LESSP], &[]),
    Row::Defined(ground::LEQ, b"XY", &[Y, X, LESSP, NOT], &[]),
    Row::Defined(ground::GEQ, b"XY", &[X, Y, LESSP, NOT], &[]),
    Row::Defined(ground::NLISTP, b"X", &[X, LISTP, NOT], &[]),
    Row::Defined(
        ground::APPEND,
        b"XY",
        &[X, LISTP, X, CAR, X, CDR, Y, APPEND, CONS, Y, IF],
        &[X, COUNT],
    ),
    Row::Defined(
        ground::MEMBER,
        b"XY",
        &[Y, NLISTP, F, X, Y, CAR, EQUAL, T, X, Y, CDR, MEMBER, IF, IF],
        &[Y, COUNT],
    ),
    Row::Defined(
        ground::ORD_LESSP,
        b"XY",
        &[
            X, LISTP, NOT, Y, LISTP, NOT, X, Y, LESSP, T, IF, Y, LISTP, NOT, F, X, CAR, Y, CAR,
            ORD_LESSP, T, X, CAR, Y, CAR, EQUAL, X, CDR, Y, CDR, ORD_LESSP, AND, IF, IF, IF,
        ],
        &[X, COUNT],
    ),
    Row::Defined(
        ground::ORDINALP,
        b"X",
        &[
            X, LISTP, X, CAR, ORDINALP, X, CAR, ZERO, EQUAL, NOT, X, CDR, ORDINALP, X, CDR, LISTP,
            NOT, X, CAR, X, CDR, CAR, ORD_LESSP, NOT, OR, AND, AND, AND, X, NUMBERP, IF,
        ],
        &[X, COUNT],
    ),
    Row::Defined(ground::IDENTITY, b"X", &[X], &[]),
    Row::Defined(ground::MAX, b"XY", &[X, Y, LESSP, Y, X, FIX, IF], &[]),
    Row::Defined(
        ground::UNION,
        b"XY",
        &[
            X, LISTP, X, CAR, Y, MEMBER, X, CDR, Y, UNION, X, CAR, X, CDR, Y, UNION, CONS, IF, Y,
            IF,
        ],
        &[X, COUNT],
    ),
    Row::Defined(
        ground::ADD_TO_SET,
        b"XY",
        &[X, Y, MEMBER, Y, X, Y, CONS, IF],
        &[],
    ),
    Row::Defined(
        ground::ASSOC,
        b"XY",
        &[
            Y, LISTP, X, Y, CAR, CAR, EQUAL, Y, CAR, X, Y, CDR, ASSOC, IF, F, IF,
        ],
        &[Y, COUNT],
    ),
    Row::Defined(
        ground::PAIRLIST,
        b"XY",
        &[
            X, LISTP, X, CAR, Y, CAR, CONS, X, CDR, Y, CDR, PAIRLIST, CONS, N, I, L, ZERO, CONS,
            CONS, CONS, PACK, IF,
        ],
        &[X, COUNT],
    ),
];
