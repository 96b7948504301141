//! The variables of a goal, each with the kind that the goal tells of it.
ghost use Rattle.nq_bank.specs.Content.{Stands};

use crate::shells::place_of_recognizer;
use nq_bank::{Bank, Node, Sym, TermId, ground};
use nq_history::History;
use std::alloc::AllocError;

/// A variable.
#[derive(Clone, Copy, Debug)]
pub struct Variable {
    /// Its name.
    pub name: Sym,
    /// The place of the shell of which it is an object, where the goal tells that.
    pub kind: Option<usize>,
}

/// Is there this variable?
fn has_name(variables: &[Variable], name: Sym) -> bool {
    for variable in variables {
        if variable.name.0 == name.0 {
            return true;
        }
    }
    false
}

/// Adds the variables of a term, those that are not there yet.
fn add_variables(bank: &Bank, variables: &mut Vec<Variable>, t: TermId) -> Result<(), AllocError>
    requires { Stands bank.now t }
{
    if let Node::Var(name) = bank.node(t) {
        if !has_name(variables.as_slice(), name) {
            variables.push(Variable { name, kind: None })?;
        }
    }
    for a in bank.args(t) {
        add_variables(bank, variables, *a)?;
    }
    Ok(())
}

/// The one argument of a call of this function, or of a call of any function.
fn only_argument(bank: &Bank, t: TermId) -> Option<(Sym, TermId)> {
    if t.0 >= bank.len() {
        return None;
    }
    match bank.node(t) {
        Node::App(f, _) => match bank.args(t) {
            [a] => Some((f, *a)),
            _ => None,
        },
        Node::Num(_) => None,
        Node::Var(_) => None,
    }
}

/// The variable of which a literal denies that it is of a kind, with that kind.
fn told_kind(bank: &Bank, history: &History, literal: TermId) -> Option<Variable> {
    let (f, inner) = only_argument(bank, literal)?;
    if f.0 != ground::NOT.0 {
        return None;
    }
    let (r, a) = only_argument(bank, inner)?;
    let shell = place_of_recognizer(history, r)?;
    if a.0 >= bank.len() {
        return None;
    }
    match bank.node(a) {
        Node::Var(name) => Some(Variable {
            name,
            kind: Some(shell),
        }),
        Node::App(_, _) => None,
        Node::Num(_) => None,
    }
}

/// The variables of a goal: first those of which it tells the kind.
pub fn variables_of(
    bank: &Bank,
    history: &History,
    goal: &[TermId],
) -> Result<Vec<Variable>, AllocError> {
    let mut variables = Vec::new(bank.alloc());
    for literal in goal {
        if let Some(variable) = told_kind(bank, history, *literal) {
            if !has_name(variables.as_slice(), variable.name) {
                variables.push(variable)?;
            }
        }
    }
    add_untold(bank, &mut variables, goal)?;
    Ok(variables)
}

/// Adds the variables of a goal of which it doesn't tell the kind.
fn add_untold(
    bank: &Bank,
    variables: &mut Vec<Variable>,
    goal: &[TermId],
) -> Result<(), AllocError> {
    for literal in goal {
        if literal.0 < bank.len() {
            add_variables(bank, variables, *literal)?;
        }
    }
    Ok(())
}
