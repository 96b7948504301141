//! The functions of which facts speak.
ghost use Rattle.std.specs.Prelude.{◌<◌};
ghost use Rattle.nq_bank.specs.GroundNames.{ground_count};
ghost use Rattle.nq_arithmetic.specs.Functions.{IsFunctionOf};

use nq_bank::{Sym, ground};

/// A function of one argument.
#[derive(Clone, Copy, Debug, PartialEq, Eq)]
pub enum One {
    /// ADD1.
    Add1,
    /// SUB1.
    Sub1,
    /// COUNT.
    Count,
    /// CAR.
    Car,
    /// CDR.
    Cdr,
    /// NUMBERP.
    Numberp,
    /// LISTP.
    Listp,
    /// ZEROP.
    Zerop,
    /// FIX.
    Fix,
}

/// A function of two arguments.
#[derive(Clone, Copy, Debug, PartialEq, Eq)]
pub enum Two {
    /// EQUAL.
    Equal,
    /// LESSP.
    Lessp,
    /// PLUS.
    Plus,
    /// TIMES.
    Times,
    /// DIFFERENCE.
    Difference,
    /// QUOTIENT.
    Quotient,
    /// REMAINDER.
    Remainder,
    /// ORD-LESSP.
    OrdLessp,
    /// CONS.
    Cons,
}

/// The name of a function of one argument.
pub fn name_of_one(f: One) -> Sym
    ensures ground { result.0 < ground_count }
    ensures function { IsFunctionOf result 1 }
{
    match f {
        One::Add1 => ground::ADD1,
        One::Sub1 => ground::SUB1,
        One::Count => ground::COUNT,
        One::Car => ground::CAR,
        One::Cdr => ground::CDR,
        One::Numberp => ground::NUMBERP,
        One::Listp => ground::LISTP,
        One::Zerop => ground::ZEROP,
        One::Fix => ground::FIX,
    }
}

/// The name of a function of two arguments.
pub fn name_of_two(f: Two) -> Sym
    ensures ground { result.0 < ground_count }
    ensures function { IsFunctionOf result 2 }
{
    match f {
        Two::Equal => ground::EQUAL,
        Two::Lessp => ground::LESSP,
        Two::Plus => ground::PLUS,
        Two::Times => ground::TIMES,
        Two::Difference => ground::DIFFERENCE,
        Two::Quotient => ground::QUOTIENT,
        Two::Remainder => ground::REMAINDER,
        Two::OrdLessp => ground::ORD_LESSP,
        Two::Cons => ground::CONS,
    }
}
