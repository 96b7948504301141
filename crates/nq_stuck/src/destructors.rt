//! ELIM: whether a goal has a candidate.
ghost use Rattle.std.specs.Prelude.{◌≡◌, All, IfOk, false, map};
ghost use Rattle.std.specs.List.{list_any};
ghost use Rattle.nq_logic.specs.Terms.{call};
ghost use Rattle.nq_bank.specs.Content.{Content, IsNamed, Stands, term_at, terms_at, text_at};
ghost use Rattle.nq_bank.specs.Shells.{shells_at, ShellStands};
ghost use Rattle.nq_history.specs.Events.{all_events_at, class_of, event_at, events_at, HistoryStands};
ghost use Rattle.nq_goals.specs.Eliminating.{has_elim};
ghost use Rattle.nq_stuck.specs.Destructors.{is_accessor_call, is_elim_event, is_variable, EliminatesNone};

use crate::calls::{CALL_LIMIT, calls_in};
use crate::fault::Fault;
use crate::lists::{is_both, is_either};
use crate::shells::is_accessor;
use nq_bank::{Bank, Node, Shell, Sym, TermId};
use nq_history::{Class, Entry, EntryKind, History};

/// Is ELIM among the classes?
fn has_elim(classes: &[Class]) -> bool
    ensures { result ≡ has_elim (map class_of classes.now) }
{
    match classes {
        [] => false,
        [Class::Elim, ..] => true,
        [_, rest @ ..] => has_elim(rest),
    }
}

/// Is the event of an entry an axiom or a lemma of the class ELIM?
fn is_elim_event(entry: &Entry) -> bool
    ensures { (bank : Content) → result ≡ is_elim_event (event_at bank entry.now) }
{
    match &entry.kind {
        EntryKind::Axiom(classes, _) => has_elim(classes.as_slice()),
        EntryKind::Lemma(classes, _) => has_elim(classes.as_slice()),
        EntryKind::Shell(_) => false,
        EntryKind::Dcl(_) => false,
        EntryKind::Defn(_, _, _) => false,
        EntryKind::Toggle(_, _) => false,
    }
}

/// Is one of these events an axiom or a lemma of the class ELIM?
fn has_elim_event(entries: &[Entry]) -> bool
    ensures { (bank : Content) → result ≡ list_any is_elim_event (all_events_at bank entries.now) }
{
    let mut found = false;
    for entry in entries {
        let here = is_elim_event(entry);
        found = is_either(found, here);
    }
    found
}

/// Is the term a variable?
fn is_variable(bank: &Bank, t: TermId) -> bool
    requires { Stands bank.now t }
    ensures { result ≡ is_variable (term_at bank.now t) }
{
    match bank.node(t) {
        Node::Var(_) => true,
        Node::Num(_) => false,
        Node::App(_, _) => false,
    }
}

/// Is this the call of an accessor on a variable?
fn accesses_variable(bank: &Bank, shells: &[Shell], f: Sym, arguments: &[TermId]) -> bool
    requires shells { All (ShellStands bank.now) shells.now }
    requires name { IsNamed bank.now f }
    requires arguments { All (Stands bank.now) arguments.now }
    ensures { result ≡ is_accessor_call (shells_at bank.now shells.now) (call (text_at bank.now f) (terms_at bank.now arguments.now)) }
{
    match arguments {
        [] => false,
        [only] => {
            let variable = is_variable(bank, *only);
            let accessor = is_accessor(bank, shells, f);
            is_both(variable, accessor)
        }
        [_, _, ..] => false,
    }
}

/// Is the term a call of an accessor on a variable?
fn is_accessor_call(bank: &Bank, shells: &[Shell], t: TermId) -> bool
    requires shells { All (ShellStands bank.now) shells.now }
    requires term { Stands bank.now t }
    ensures { result ≡ is_accessor_call (shells_at bank.now shells.now) (term_at bank.now t) }
{
    match bank.node(t) {
        Node::Var(_) => false,
        Node::Num(_) => false,
        Node::App(f, _) => accesses_variable(bank, shells, f, bank.args(t)),
    }
}

/// Is one of these a call of an accessor on a variable?
fn has_accessor_call(bank: &Bank, shells: &[Shell], calls: &[TermId]) -> bool
    requires shells { All (ShellStands bank.now) shells.now }
    requires calls { All (Stands bank.now) calls.now }
    ensures { result ≡ list_any (is_accessor_call (shells_at bank.now shells.now)) (terms_at bank.now calls.now) }
{
    let mut found = false;
    for t in calls {
        let here = is_accessor_call(bank, shells, *t);
        found = is_either(found, here);
    }
    found
}

/// May the goal have a candidate of ELIM? It has none where no axiom or lemma has the class ELIM, and no accessor is called on a
/// variable.
pub fn has_elimination(bank: &Bank, history: &History, goal: &[TermId]) -> Result<bool, Fault>
    requires history { HistoryStands bank.now history.now }
    requires goal { All (Stands bank.now) goal.now }
    ensures { IfOk result (λ b. b ≡ false → EliminatesNone (events_at bank.now history.now) (terms_at bank.now goal.now)) }
{
    if has_elim_event(history.entries()) {
        return Ok(true);
    }
    let calls = calls_in(bank, goal, CALL_LIMIT)?;
    Ok(has_accessor_call(bank, history.shells(), calls.as_slice()))
}
