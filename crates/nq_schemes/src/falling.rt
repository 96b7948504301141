//! What falls in the scheme that a call suggests.
ghost use Rattle.nq_bank.specs.Content.{Stands};

use crate::draft::Change;
use crate::suggestion::{Recursion, arguments_at, suggestion_of};
use crate::terms::add_variables;
use nq_bank::{Bank, Node, Sym, TermId};
use nq_history::History;
use std::alloc::AllocError;

/// What falls.
#[derive(Drop)]
pub struct Falling {
    /// The measure of the call's function.
    pub measure: TermId,
    /// What the variables of the measure are at the call.
    pub changes: Vec<Change>,
    /// The variable whose size that is at the call, where it is the size of a variable.
    pub sized: Option<TermId>,
}

/// The argument in the place of a formal.
fn argument_for(formals: &[Sym], arguments: &[TermId], x: Sym) -> Option<TermId> {
    for i in 0..formals.len() {
        if formals[i].0 == x.0 && i < arguments.len() {
            return Some(arguments[i]);
        }
    }
    None
}

/// Adds what a variable of the measure is at a call with these arguments.
fn add_change(
    bank: &Bank,
    changes: &mut Vec<Change>,
    formals: &[Sym],
    arguments: &[TermId],
    variable: TermId,
) -> Result<(), AllocError> {
    if variable.0 < bank.len() {
        if let Node::Var(x) = bank.node(variable) {
            if let Some(term) = argument_for(formals, arguments, x) {
                changes.push(Change { variable, term })?;
            }
        }
    }
    Ok(())
}

/// What the variables of the measure are at a call with these arguments.
fn changes_at(
    bank: &Bank,
    recursion: &Recursion,
    arguments: &[TermId],
) -> Result<Vec<Change>, AllocError> {
    let mut variables = Vec::new(bank.alloc());
    if recursion.measure.0 < bank.len() {
        add_variables(bank, &mut variables, recursion.measure)?;
    }
    let mut changes = Vec::new(bank.alloc());
    for v in variables.as_slice() {
        add_change(
            bank,
            &mut changes,
            recursion.formals.as_slice(),
            arguments,
            *v,
        )?;
    }
    Ok(changes)
}

/// What falls where a call of the function suggests the scheme.
pub fn falling_by(bank: &Bank, recursion: &Recursion, call: TermId) -> Result<Falling, AllocError>
    requires { Stands bank.now call }
{
    let measured = arguments_at(bank, recursion.measured.as_slice(), call)?;
    let changes = changes_at(bank, recursion, bank.args(call))?;
    let sized = if recursion.is_sized {
        measured.first().copied()
    } else {
        None
    };
    Ok(Falling {
        measure: recursion.measure,
        changes,
        sized,
    })
}

/// What falls where the first of these calls suggests the scheme.
pub fn falling_of(
    bank: &Bank,
    history: &History,
    calls: &[TermId],
) -> Result<Option<Falling>, AllocError> {
    let Some(call) = calls.first() else {
        return Ok(None);
    };
    if call.0 < bank.len() {
        if let Some(recursion) = suggestion_of(bank, history, *call)? {
            let falling = falling_by(bank, &recursion, *call)?;
            return Ok(Some(falling));
        }
    }
    Ok(None)
}
