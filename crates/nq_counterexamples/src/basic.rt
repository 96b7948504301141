//! Calls of functions that are not defined by a term.
use crate::numbers::number_call;
use crate::shells::shell_call;
use crate::stuck::Stuck;
use crate::trial::{Trial, Value, are_same, count_of};
use nq_bank::{Sym, ground};
use nq_history::History;

/// The value of a call of EQUAL or of COUNT, where it is one.
fn common_call(trial: &mut Trial, f: Sym, arguments: &[usize]) -> Result<Option<usize>, Stuck> {
    match arguments {
        [a] => {
            if f.0 != ground::COUNT.0 {
                return Ok(None);
            }
            let count = count_of(trial, *a)?;
            let place = trial.add(Value::Number(count))?;
            Ok(Some(place))
        }
        [a, b] => {
            if f.0 != ground::EQUAL.0 {
                return Ok(None);
            }
            let same = are_same(trial, *a, *b)?;
            let place = trial.truth(same)?;
            Ok(Some(place))
        }
        _ => Ok(None),
    }
}

/// The value of a call of a function that is not defined by a term, or that is known without its definition.
pub fn basic_call(
    history: &History,
    trial: &mut Trial,
    f: Sym,
    arguments: &[usize],
) -> Result<Option<usize>, Stuck> {
    let found = common_call(trial, f, arguments)?;
    if found.is_some() {
        return Ok(found);
    }
    let found = number_call(trial, f, arguments)?;
    if found.is_some() {
        return Ok(found);
    }
    shell_call(history, trial, f, arguments)
}
