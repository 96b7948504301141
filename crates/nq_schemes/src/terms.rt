//! Walks over terms. They decide only what is tried.
ghost use Rattle.nq_bank.specs.Content.{Stands};

use nq_bank::{Bank, Node, Sym, TermId};
use std::alloc::AllocError;

/// The size from which on terms are not walked.
const WALK_LIMIT: u64 = 20000;

/// Is a term small enough to be walked as a tree?
pub fn is_walked(bank: &Bank, t: TermId) -> bool
    requires { Stands bank.now t }
{
    bank.size(t) < WALK_LIMIT
}

/// Is a term among these?
pub fn has_id(ids: &[TermId], t: TermId) -> bool {
    for u in ids {
        if u.0 == t.0 {
            return true;
        }
    }
    false
}

/// Are two lists without a term in common?
pub fn are_apart(ids: &[TermId], others: &[TermId]) -> bool {
    for t in ids {
        if has_id(others, *t) {
            return false;
        }
    }
    true
}

/// Adds those of some terms that are not there yet.
pub fn add_ids(ids: &mut Vec<TermId>, more: &[TermId]) -> Result<(), AllocError> {
    for t in more {
        if !has_id(ids.as_slice(), *t) {
            ids.push(*t)?;
        }
    }
    Ok(())
}

/// The function of a call.
pub fn function_of(bank: &Bank, t: TermId) -> Option<Sym>
    requires { Stands bank.now t }
{
    match bank.node(t) {
        Node::App(f, _) => Some(f),
        Node::Num(_) => None,
        Node::Var(_) => None,
    }
}

/// Is a term a variable?
pub fn is_variable(bank: &Bank, t: TermId) -> bool
    requires { Stands bank.now t }
{
    match bank.node(t) {
        Node::Var(_) => true,
        Node::Num(_) => false,
        Node::App(_, _) => false,
    }
}

/// Is a term a call of this function?
pub fn is_call_of(bank: &Bank, f: Sym, t: TermId) -> bool
    requires { Stands bank.now t }
{
    match function_of(bank, t) {
        Some(g) => g.0 == f.0,
        None => false,
    }
}

/// The argument of a term at a place.
pub fn argument_of(bank: &Bank, t: TermId, i: usize) -> Option<TermId> {
    if t.0 < bank.len() {
        bank.args(t).get(i).copied()
    } else {
        None
    }
}

/// Does a call of a function stand in a term?
pub fn mentions(bank: &Bank, f: Sym, t: TermId) -> bool
    requires { Stands bank.now t }
{
    if is_call_of(bank, f, t) {
        return true;
    }
    for a in bank.args(t) {
        if mentions(bank, f, *a) {
            return true;
        }
    }
    false
}

/// Does a variable stand in a term?
pub fn has_variable(bank: &Bank, x: Sym, t: TermId) -> bool
    requires { Stands bank.now t }
{
    match bank.node(t) {
        Node::Var(y) => y.0 == x.0,
        Node::Num(_) => false,
        Node::App(_, _) => {
            for a in bank.args(t) {
                if has_variable(bank, x, *a) {
                    return true;
                }
            }
            false
        }
    }
}

/// Does a term stand in another? The parts of a term stand before it in the bank.
pub fn stands_in(bank: &Bank, part: TermId, t: TermId) -> bool
    requires { Stands bank.now t }
{
    if part.0 >= t.0 {
        return part.0 == t.0;
    }
    for a in bank.args(t) {
        if stands_in(bank, part, *a) {
            return true;
        }
    }
    false
}

/// Adds the variables of a term, those that are not there yet.
pub fn add_variables(bank: &Bank, variables: &mut Vec<TermId>, t: TermId) -> Result<(), AllocError>
    requires { Stands bank.now t }
{
    if is_variable(bank, t) && !has_id(variables.as_slice(), t) {
        variables.push(t)?;
    }
    for a in bank.args(t) {
        add_variables(bank, variables, *a)?;
    }
    Ok(())
}
