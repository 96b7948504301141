//! Calls of the functions of shells.
use crate::stuck::Stuck;
use crate::trial::{Trial, Value};
use nq_bank::{Part, Shell, Sym, ground};
use nq_history::History;

/// Is the value at a place an object of the shell at a place?
fn is_of(history: &History, trial: &Trial, shell: usize, place: usize) -> bool {
    match trial.value(place) {
        Value::Number(_) => is_constructor(history, shell, ground::ADD1),
        Value::Bottom(s) => s == shell,
        Value::Made(s, _) => s == shell,
        Value::True => false,
        Value::False => false,
        Value::Part(_, _) => false,
        Value::End => false,
    }
}

/// Is this the constructor of the shell at a place?
fn is_constructor(history: &History, shell: usize, f: Sym) -> bool {
    let shells = history.shells();
    if shell < shells.len() {
        shells[shell].constructor.0 == f.0
    } else {
        false
    }
}

/// The place of the shell of this constructor.
pub fn place_of_constructor(history: &History, f: Sym) -> Option<usize> {
    let shells = history.shells();
    for place in 0..shells.len() {
        if shells[place].constructor.0 == f.0 {
            return Some(place);
        }
    }
    None
}

/// The place of the shell of this recognizer.
pub fn place_of_recognizer(history: &History, r: Sym) -> Option<usize> {
    let shells = history.shells();
    for place in 0..shells.len() {
        if shells[place].recognizer.0 == r.0 {
            return Some(place);
        }
    }
    None
}

/// The place of the shell with this bottom object.
fn place_of_base(history: &History, f: Sym) -> Option<usize> {
    let shells = history.shells();
    for place in 0..shells.len() {
        if let Some(base) = shells[place].base {
            if base.0 == f.0 {
                return Some(place);
            }
        }
    }
    None
}

/// Does a recognizer hold of the value at a place?
fn is_recognized(history: &History, trial: &Trial, r: Sym, place: usize) -> bool {
    if r.0 == ground::TRUEP.0 {
        return trial.value(place) == Value::True;
    }
    if r.0 == ground::FALSEP.0 {
        return trial.value(place) == Value::False;
    }
    match place_of_recognizer(history, r) {
        Some(shell) => is_of(history, trial, shell, place),
        None => false,
    }
}

/// Adds the value of a constant.
pub fn constant(history: &History, trial: &mut Trial, f: Sym) -> Result<Option<usize>, Stuck> {
    if f.0 == ground::TRUE.0 || f.0 == ground::FALSE.0 {
        let place = trial.truth(f.0 == ground::TRUE.0)?;
        return Ok(Some(place));
    }
    if f.0 == ground::ZERO.0 {
        let place = trial.add(Value::Number(0))?;
        return Ok(Some(place));
    }
    match place_of_base(history, f) {
        Some(shell) => {
            let place = trial.add(Value::Bottom(shell))?;
            Ok(Some(place))
        }
        None => Ok(None),
    }
}

/// Adds the value that stands for a part.
fn default_of(history: &History, trial: &mut Trial, part: &Part) -> Result<usize, Stuck> {
    match constant(history, trial, part.default)? {
        Some(place) => Ok(place),
        None => Err(Stuck::Over),
    }
}

/// Does one of the recognizers of a part's restriction hold of the value at a place?
fn is_among_kinds(history: &History, trial: &Trial, part: &Part, place: usize) -> bool {
    for r in part.recognizers.as_slice() {
        if is_recognized(history, trial, *r, place) {
            return true;
        }
    }
    false
}

/// A value as a part: what stands for it where it doesn't meet the restriction.
fn fitted(history: &History, trial: &mut Trial, part: &Part, place: usize) -> Result<usize, Stuck> {
    if is_among_kinds(history, trial, part, place) == part.one_of {
        Ok(place)
    } else {
        default_of(history, trial, part)
    }
}

/// Adds the object of the shell at a place that has these parts.
pub fn made(
    history: &History,
    trial: &mut Trial,
    place: usize,
    arguments: &[usize],
) -> Result<usize, Stuck> {
    let shells = history.shells();
    if place >= shells.len() || shells[place].parts.len() != arguments.len() {
        return Err(Stuck::Over);
    }
    let parts = shells[place].parts.as_slice();
    let mut row = trial.add(Value::End)?;
    let count = arguments.len();
    for i in 0..count {
        let at = count - 1 - i;
        let part = fitted(history, trial, &parts[at], arguments[at])?;
        row = trial.add(Value::Part(part, row))?;
    }
    trial.add(Value::Made(place, row))
}

/// The part at an index of a list of parts.
fn part_at(trial: &Trial, row: usize, index: usize) -> Option<usize> {
    let mut rest = row;
    for _ in 0..index {
        match trial.value(rest) {
            Value::Part(_, further) => rest = further,
            _ => return None,
        }
    }
    match trial.value(rest) {
        Value::Part(part, _) => Some(part),
        _ => None,
    }
}

/// The part of a value that an accessor gives.
fn accessed(
    history: &History,
    trial: &mut Trial,
    shell: usize,
    index: usize,
    part: &Part,
    place: usize,
) -> Result<usize, Stuck> {
    if let Value::Made(s, row) = trial.value(place) {
        if s == shell {
            if let Some(found) = part_at(trial, row, index) {
                return Ok(found);
            }
        }
    }
    default_of(history, trial, part)
}

/// The index of an accessor of a shell.
fn accessor_index(shell: &Shell, f: Sym) -> Option<usize> {
    let parts = shell.parts.as_slice();
    for index in 0..parts.len() {
        if parts[index].accessor.0 == f.0 {
            return Some(index);
        }
    }
    None
}

/// The value of a call of an accessor.
fn access(
    history: &History,
    trial: &mut Trial,
    f: Sym,
    place: usize,
) -> Result<Option<usize>, Stuck> {
    let shells = history.shells();
    for s in 0..shells.len() {
        let shell = &shells[s];
        if let Some(index) = accessor_index(shell, f) {
            if index < shell.parts.len() {
                let found = accessed(history, trial, s, index, &shell.parts[index], place)?;
                return Ok(Some(found));
            }
        }
    }
    Ok(None)
}

/// The value of a call of a recognizer or of an accessor.
fn shell_call_of_one(
    history: &History,
    trial: &mut Trial,
    f: Sym,
    place: usize,
) -> Result<Option<usize>, Stuck> {
    if place_of_recognizer(history, f).is_some() {
        let holds = is_recognized(history, trial, f, place);
        let truth = trial.truth(holds)?;
        return Ok(Some(truth));
    }
    access(history, trial, f, place)
}

/// The value of a call of a function of a shell, where it is one.
pub fn shell_call(
    history: &History,
    trial: &mut Trial,
    f: Sym,
    arguments: &[usize],
) -> Result<Option<usize>, Stuck> {
    if let Some(place) = place_of_constructor(history, f) {
        let found = made(history, trial, place, arguments)?;
        return Ok(Some(found));
    }
    match arguments {
        [] => constant(history, trial, f),
        [a] => shell_call_of_one(history, trial, f, *a),
        _ => Ok(None),
    }
}
