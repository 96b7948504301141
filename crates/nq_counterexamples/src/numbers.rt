//! Calls of functions on numbers.
ghost use Rattle.std.specs.Prelude.{◌<◌, IfOk};

use crate::stuck::Stuck;
use crate::trial::{Trial, Value};
use nq_bank::{Sym, ground};

/// The numbers of a trial lie below this one.
const LIMIT: u64 = 1_000_000;

/// The number that a value counts for: 0 where it is none.
fn number_at(trial: &Trial, place: usize) -> Result<u64, Stuck>
    ensures { IfOk result (λ n. n < 1_000_000) }
{
    match trial.value(place) {
        Value::Number(n) => if n < LIMIT { Ok(n) } else { Err(Stuck::Over) },
        Value::True => Ok(0),
        Value::False => Ok(0),
        Value::Bottom(_) => Ok(0),
        Value::Made(_, _) => Ok(0),
        Value::Part(_, _) => Ok(0),
        Value::End => Ok(0),
    }
}

/// The value of a call of a function on two numbers, where it is one of these.
fn value_of_two(f: Sym, a: u64, b: u64) -> Option<Value>
    requires first { a < 1_000_000 }
    requires second { b < 1_000_000 }
{
    if f.0 == ground::PLUS.0 {
        Some(Value::Number(a + b))
    } else if f.0 == ground::TIMES.0 {
        Some(Value::Number(a * b))
    } else if f.0 == ground::DIFFERENCE.0 {
        Some(Value::Number(a.saturating_sub(b)))
    } else if f.0 == ground::QUOTIENT.0 {
        Some(Value::Number(if b == 0 { 0 } else { a / b }))
    } else if f.0 == ground::REMAINDER.0 {
        Some(Value::Number(if b == 0 { a } else { a % b }))
    } else if f.0 == ground::LESSP.0 {
        Some(if a < b { Value::True } else { Value::False })
    } else {
        None
    }
}

/// The value of a call of a function on a number, where it is one of these.
fn value_of_one(f: Sym, a: u64) -> Option<Value>
    requires { a < 1_000_000 }
{
    if f.0 == ground::ADD1.0 {
        Some(Value::Number(a + 1))
    } else if f.0 == ground::SUB1.0 {
        Some(Value::Number(a.saturating_sub(1)))
    } else {
        None
    }
}

/// The place of the value of a call of a function on numbers, where it is one of these.
pub fn number_call(trial: &mut Trial, f: Sym, arguments: &[usize]) -> Result<Option<usize>, Stuck> {
    let found = match arguments {
        [a] => {
            let a = number_at(trial, *a)?;
            value_of_one(f, a)
        }
        [a, b] => {
            let a = number_at(trial, *a)?;
            let b = number_at(trial, *b)?;
            value_of_two(f, a, b)
        }
        _ => None,
    };
    match found {
        Some(value) => {
            let place = trial.add(value)?;
            Ok(Some(place))
        }
        None => Ok(None),
    }
}
