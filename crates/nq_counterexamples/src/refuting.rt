//! Goals that are tried on small values.
use crate::choosing::chosen;
use crate::dice::Dice;
use crate::evaluating::{Binding, value_of};
use crate::stuck::Stuck;
use crate::trial::{Trial, Value};
use crate::variables::{Variable, variables_of};
use nq_bank::{Bank, TermId};
use nq_history::History;
use std::alloc::AllocError;

/// How often a goal is tried.
const TRIALS: u32 = 100;

/// How often a goal is tried of which only a few trials are made.
const FEW_TRIALS: u32 = 20;

/// The most nodes of a literal that is tried.
const NODE_LIMIT: u64 = 3000;

/// After how many trials that tell nothing no more are made.
const STUCK_TRIALS: u32 = 20;

/// The variables, bound to values that dice choose.
fn chosen_bindings(
    bank: &Bank,
    history: &History,
    trial: &mut Trial,
    dice: &mut Dice,
    variables: &[Variable],
) -> Result<Vec<Binding>, Stuck> {
    let mut bindings = Vec::new(bank.alloc());
    for variable in variables {
        let value = chosen(bank.alloc(), history, trial, dice, variable.kind)?;
        let binding = Binding {
            name: variable.name,
            value,
        };
        if bindings.push(binding).is_err() {
            return Err(Stuck::Memory);
        }
    }
    Ok(bindings)
}

/// Is each literal F where the variables have values that dice choose?
fn fails_once(
    bank: &Bank,
    history: &History,
    dice: &mut Dice,
    variables: &[Variable],
    goal: &[TermId],
) -> Result<bool, Stuck> {
    let mut trial = Trial::new(bank.alloc());
    let bindings = chosen_bindings(bank, history, &mut trial, dice, variables)?;
    for literal in goal {
        let value = value_of(bank, history, &mut trial, bindings.as_slice(), *literal)?;
        if value != Value::False {
            return Ok(false);
        }
    }
    Ok(true)
}

/// Is each literal of a goal small enough to be tried?
fn are_small(bank: &Bank, goal: &[TermId]) -> bool {
    for t in goal {
        if t.0 >= bank.len() || bank.size(*t) > NODE_LIMIT {
            return false;
        }
    }
    true
}

/// Has a goal a counterexample among small values? Where the answer is false, it may have one all the same. It fails only for
/// want of memory.
pub fn is_refuted(bank: &Bank, history: &History, goal: &[TermId]) -> Result<bool, AllocError> {
    is_refuted_within(bank, history, goal, TRIALS)
}

/// The same, by so many trials.
fn is_refuted_within(
    bank: &Bank,
    history: &History,
    goal: &[TermId],
    trials: u32,
) -> Result<bool, AllocError> {
    if !are_small(bank, goal) {
        return Ok(false);
    }
    let variables = variables_of(bank, history, goal)?;
    let mut dice = Dice::new();
    let mut patience = STUCK_TRIALS;
    for _ in 0..trials {
        match fails_once(bank, history, &mut dice, variables.as_slice(), goal) {
            Ok(true) => return Ok(true),
            Ok(false) => {}
            Err(Stuck::Over) => {
                if patience == 0 {
                    return Ok(false);
                }
                patience -= 1;
            }
            Err(Stuck::Memory) => return Err(AllocError),
        }
    }
    Ok(false)
}

/// Has one of these goals a counterexample among small values? It fails only for want of memory.
pub fn is_one_refuted(
    bank: &Bank,
    history: &History,
    goals: &[Vec<TermId>],
) -> Result<bool, AllocError> {
    is_one_refuted_within(bank, history, goals, TRIALS)
}

/// The same, where each goal is tried a few times.
pub fn is_one_refuted_soon(
    bank: &Bank,
    history: &History,
    goals: &[Vec<TermId>],
) -> Result<bool, AllocError> {
    is_one_refuted_within(bank, history, goals, FEW_TRIALS)
}

/// The same, by so many trials of each goal.
fn is_one_refuted_within(
    bank: &Bank,
    history: &History,
    goals: &[Vec<TermId>],
    trials: u32,
) -> Result<bool, AllocError> {
    for goal in goals {
        if is_refuted_within(bank, history, goal.as_slice(), trials)? {
            return Ok(true);
        }
    }
    Ok(false)
}
