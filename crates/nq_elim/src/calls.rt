//! Calls of variables alone, as they stand in terms.
ghost use Rattle.std.specs.Prelude.{◌≡◌, All, IfOk, OnOk, Err};
ghost use Rattle.nq_bank.specs.Content.{Stands};
ghost use Rattle.nq_kernel.specs.Growing.{WorkStands};
ghost use Rattle.nq_lines.specs.Lines.{IsTermIn};

use crate::lists::{has_id, push_id};
use nq_bank::{Bank, Node, TermId};
use nq_history::History;
use nq_kernel::{Stop, Work};
use std::collections::HashMap;

/// Is a term a variable?
pub fn is_variable(bank: &Bank, t: TermId) -> bool
    requires { Stands bank.now t }
{
    match bank.node(t) {
        Node::Var(_) => true,
        Node::Num(_) => false,
        Node::App(_, _) => false,
    }
}

/// Are all of these variables?
fn are_variables(bank: &Bank, these: &[TermId]) -> bool
    requires { All (Stands bank.now) these.now }
{
    for t in these {
        if !is_variable(bank, *t) {
            return false;
        }
    }
    true
}

/// Is a term a call of variables alone?
fn is_flat(bank: &Bank, t: TermId) -> bool
    requires { Stands bank.now t }
{
    match bank.node(t) {
        Node::App(_, _) => {
            let arguments = bank.args(t);
            !arguments.is_empty() && are_variables(bank, arguments)
        }
        Node::Num(_) => false,
        Node::Var(_) => false,
    }
}

/// Is a call one of this argument, among others?
pub fn has_argument(bank: &Bank, call: TermId, a: TermId) -> bool
    requires { Stands bank.now call }
{
    match bank.node(call) {
        Node::App(_, _) => has_id(bank, bank.args(call), a),
        Node::Num(_) => false,
        Node::Var(_) => false,
    }
}

/// Was the term looked at?
fn was_seen(seen: &HashMap<u64, bool>, t: TermId) -> bool {
    seen.get(&t.0).is_some()
}

/// Keeps that a term was looked at.
fn keep_seen(seen: &mut HashMap<u64, bool>, t: TermId) -> Result<(), Stop>
    ensures memory { result ≡ Err Stop.OutOfSteps → ⊥ }
{
    match seen.insert(t.0, true) {
        Ok(_) => Ok(()),
        Err(_) => Err(Stop::Memory),
    }
}

/// Puts a term to those that were found, if it is a call of variables alone.
fn keep_flat(work: &Work, history: &History, found: &mut Vec<TermId>, t: TermId) -> Result<(), Stop>
    requires term { IsTermIn history.now work.now t }
    requires found { All (IsTermIn history.now work.now) found.old.items }
    ensures found { OnOk result (All (IsTermIn history.now work.now) found.new.items) }
    ensures memory { result ≡ Err Stop.OutOfSteps → ⊥ }
{
    let _ = history.len();
    if is_flat(&work.bank, t) {
        push_id(found, t)
    } else {
        Ok(())
    }
}

/// Collects the calls of variables alone that are arguments in a term, as often as they stand there. Each shared node is looked at
/// once.
fn collect_flat(
    work: &Work,
    history: &History,
    seen: &mut HashMap<u64, bool>,
    found: &mut Vec<TermId>,
    t: TermId,
) -> Result<(), Stop>
    requires stands { WorkStands history.now work.now }
    requires term { IsTermIn history.now work.now t }
    requires found { All (IsTermIn history.now work.now) found.old.items }
    ensures found { OnOk result (All (IsTermIn history.now work.now) found.new.items) }
    ensures memory { result ≡ Err Stop.OutOfSteps → ⊥ }
{
    match work.bank.node(t) {
        Node::Var(_) => Ok(()),
        Node::Num(_) => Ok(()),
        Node::App(_, _) => {
            if was_seen(seen, t) {
                return Ok(());
            }
            let arguments = work.bank.args(t);
            for i in 0..arguments.len() {
                let a = arguments[i];
                collect_flat(work, history, seen, found, a)?;
                keep_flat(work, history, found, a)?;
            }
            keep_seen(seen, t)?;
            Ok(())
        }
    }
}

/// The calls of variables alone in these terms, as often as they stand there.
pub fn flat_calls(work: &Work, history: &History, terms: &[TermId]) -> Result<Vec<TermId>, Stop>
    requires stands { WorkStands history.now work.now }
    requires terms { All (IsTermIn history.now work.now) terms.now }
    ensures calls { IfOk result (λ v. All (IsTermIn history.now work.now) v.items) }
    ensures memory { result ≡ Err Stop.OutOfSteps → ⊥ }
{
    let alloc = work.bank.alloc();
    let mut seen = HashMap::new(alloc);
    let mut found = Vec::new(alloc);
    for t in terms {
        collect_flat(work, history, &mut seen, &mut found, *t)?;
        keep_flat(work, history, &mut found, *t)?;
    }
    Ok(found)
}
