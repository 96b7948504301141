//! Small values, as dice choose them.
use crate::dice::Dice;
use crate::shells::{made, place_of_constructor, place_of_recognizer};
use crate::stuck::Stuck;
use crate::trial::{Trial, Value};
use nq_bank::{Part, ground};
use nq_history::History;
use std::alloc::Global;

/// How deep objects nest that dice choose.
const DEPTH: u32 = 3;

/// A value: of the shell at a place, where there is one.
pub fn chosen(
    alloc: Global,
    history: &History,
    trial: &mut Trial,
    dice: &mut Dice,
    kind: Option<usize>,
) -> Result<usize, Stuck> {
    match kind {
        Some(shell) => chosen_object(alloc, history, trial, dice, shell, DEPTH),
        None => chosen_value(alloc, history, trial, dice, DEPTH),
    }
}

/// A small number.
fn chosen_number(trial: &mut Trial, dice: &mut Dice) -> Result<usize, Stuck> {
    let number = match dice.below(8) {
        0 => 0,
        1 => 1,
        2 => 1,
        3 => 2,
        4 => 2,
        5 => 3,
        6 => 4,
        _ => 6,
    };
    trial.add(Value::Number(number))
}

/// The object of the shell of a constructor, with these parts.
fn object(
    history: &History,
    trial: &mut Trial,
    shell: Option<usize>,
    parts: &[usize],
) -> Result<usize, Stuck> {
    match shell {
        Some(place) => made(history, trial, place, parts),
        None => Err(Stuck::Over),
    }
}

/// The literal atom that is spelled by these characters.
fn atom(history: &History, trial: &mut Trial, spelling: &[u64]) -> Result<usize, Stuck> {
    let lists = place_of_constructor(history, ground::CONS);
    let mut row = trial.add(Value::Number(0))?;
    let count = spelling.len();
    for i in 0..count {
        let character = trial.add(Value::Number(spelling[count - 1 - i]))?;
        row = object(history, trial, lists, &[character, row])?;
    }
    let atoms = place_of_constructor(history, ground::PACK);
    object(history, trial, atoms, &[row])
}

/// A literal atom.
fn chosen_atom(history: &History, trial: &mut Trial, dice: &mut Dice) -> Result<usize, Stuck> {
    match dice.below(3) {
        0 => atom(history, trial, &[65]),
        _ => atom(history, trial, &[78, 73, 76]),
    }
}

/// Any value.
#[cycle(choosing)]
fn chosen_value(
    alloc: Global,
    history: &History,
    trial: &mut Trial,
    dice: &mut Dice,
    depth: u32,
) -> Result<usize, Stuck> {
    if depth == 0 {
        return chosen_number(trial, dice);
    }
    let below = depth - 1;
    match dice.below(12) {
        0 => trial.truth(true),
        1 => trial.truth(false),
        2 => chosen_atom(history, trial, dice),
        3 => chosen_any_object(alloc, history, trial, dice, below),
        4 => chosen_any_object(alloc, history, trial, dice, below),
        5 => chosen_any_object(alloc, history, trial, dice, below),
        6 => chosen_list(alloc, history, trial, dice, below),
        7 => chosen_list(alloc, history, trial, dice, below),
        8 => chosen_list(alloc, history, trial, dice, below),
        _ => chosen_number(trial, dice),
    }
}

/// An object of any shell.
#[cycle(choosing)]
fn chosen_any_object(
    alloc: Global,
    history: &History,
    trial: &mut Trial,
    dice: &mut Dice,
    depth: u32,
) -> Result<usize, Stuck> {
    let count = history.shells().len() as u64;
    let shell = dice.below(count) as usize;
    chosen_object(alloc, history, trial, dice, shell, depth)
}

/// A list of at most three elements.
#[cycle(choosing)]
fn chosen_list(
    alloc: Global,
    history: &History,
    trial: &mut Trial,
    dice: &mut Dice,
    depth: u32,
) -> Result<usize, Stuck> {
    let lists = place_of_constructor(history, ground::CONS);
    let mut list = match dice.below(4) {
        0 => chosen_number(trial, dice)?,
        _ => atom(history, trial, &[78, 73, 76])?,
    };
    let count = match dice.below(3) {
        0 => 1,
        1 => 2,
        _ => 3,
    };
    for _ in 0..count {
        let element = chosen_value(alloc, history, trial, dice, depth)?;
        list = object(history, trial, lists, &[element, list])?;
    }
    Ok(list)
}

/// An object of the shell at a place.
#[cycle(choosing)]
fn chosen_object(
    alloc: Global,
    history: &History,
    trial: &mut Trial,
    dice: &mut Dice,
    shell: usize,
    depth: u32,
) -> Result<usize, Stuck> {
    let shells = history.shells();
    if shell >= shells.len() {
        return Err(Stuck::Over);
    }
    let constructor = shells[shell].constructor;
    if constructor.0 == ground::ADD1.0 {
        return chosen_number(trial, dice);
    }
    if constructor.0 == ground::PACK.0 {
        return chosen_atom(history, trial, dice);
    }
    if depth == 0 {
        return chosen_least(alloc, history, trial, dice, shell);
    }
    if constructor.0 == ground::CONS.0 {
        return chosen_list(alloc, history, trial, dice, depth - 1);
    }
    if shells[shell].base.is_some() && dice.below(3) == 0 {
        return trial.add(Value::Bottom(shell));
    }
    chosen_made(alloc, history, trial, dice, shell, depth - 1)
}

/// The least object of the shell at a place: the one without parts, or one of which the parts are numbers.
fn chosen_least(
    alloc: Global,
    history: &History,
    trial: &mut Trial,
    dice: &mut Dice,
    shell: usize,
) -> Result<usize, Stuck> {
    let shells = history.shells();
    if shell >= shells.len() {
        return Err(Stuck::Over);
    }
    if shells[shell].base.is_some() {
        return trial.add(Value::Bottom(shell));
    }
    let mut parts = Vec::new(alloc);
    for _ in 0..shells[shell].parts.len() {
        let part = chosen_number(trial, dice)?;
        if parts.push(part).is_err() {
            return Err(Stuck::Memory);
        }
    }
    made(history, trial, shell, parts.as_slice())
}

/// An object with parts of the shell at a place.
#[cycle(choosing)]
fn chosen_made(
    alloc: Global,
    history: &History,
    trial: &mut Trial,
    dice: &mut Dice,
    shell: usize,
    depth: u32,
) -> Result<usize, Stuck> {
    let shells = history.shells();
    if shell >= shells.len() {
        return Err(Stuck::Over);
    }
    let mut parts = Vec::new(alloc);
    for part in shells[shell].parts.as_slice() {
        let chosen = chosen_part(alloc, history, trial, dice, part, depth)?;
        if parts.push(chosen).is_err() {
            return Err(Stuck::Memory);
        }
    }
    made(history, trial, shell, parts.as_slice())
}

/// A value that may be a part.
#[cycle(choosing)]
fn chosen_part(
    alloc: Global,
    history: &History,
    trial: &mut Trial,
    dice: &mut Dice,
    part: &Part,
    depth: u32,
) -> Result<usize, Stuck> {
    let kinds = part.recognizers.as_slice();
    if part.one_of && kinds.len() > 0 {
        let at = dice.below(kinds.len() as u64) as usize;
        if at < kinds.len() {
            if let Some(shell) = place_of_recognizer(history, kinds[at]) {
                return chosen_object(alloc, history, trial, dice, shell, depth);
            }
        }
    }
    chosen_value(alloc, history, trial, dice, depth)
}
