//! Axioms and lemmas that say of what kind the calls of a function are, as `(NUMBERP (APPLY F X Y))` does for a declared one.
ghost use Rattle.std.specs.Prelude.{◌≡◌, ◌<◌, IfOk, IfSome, Err, length};
ghost use Rattle.nq_bank.specs.Content.{IsNamed, Stands};
ghost use Rattle.nq_history.specs.Events.{events_at};
ghost use Rattle.nq_kernel.specs.Growing.{WorkGrows, WorkStands};
ghost use Rattle.nq_lines.specs.Facts.{IsFact};
ghost use Rattle.nq_lines.specs.OwnTerms.{HasOwnTerms};

use nq_bank::{Bank, Node, Sym, TermId};
use nq_history::{Entry, EntryKind, History};
use nq_kernel::{Stop, Work};
use nq_lines::{Fact, event_fact};

/// Are the arguments of a call different variables?
fn has_variables(bank: &Bank, t: TermId) -> bool
    requires { Stands bank.now t }
{
    let arguments = bank.args(t);
    for i in 0..arguments.len() {
        match bank.node(arguments[i]) {
            Node::Var(_) => {
                if stands_before(arguments, i) {
                    return false;
                }
            }
            Node::Num(_) => return false,
            Node::App(_, _) => return false,
        }
    }
    true
}

/// Does the term at a place stand before it?
fn stands_before(terms: &[TermId], place: usize) -> bool {
    for i in 0..terms.len() {
        if i < place && place < terms.len() && terms[i].0 == terms[place].0 {
            return true;
        }
    }
    false
}

/// Is a term a call of this function on different variables?
fn is_plain_call(bank: &Bank, f: Sym, t: TermId) -> bool
    requires { Stands bank.now t }
{
    match bank.node(t) {
        Node::App(g, _) => g.0 == f.0 && has_variables(bank, t),
        Node::Num(_) => false,
        Node::Var(_) => false,
    }
}

/// Is a function a recognizer?
fn is_recognizer(history: &History, r: Sym) -> bool {
    for shell in history.shells() {
        if shell.recognizer.0 == r.0 {
            return true;
        }
    }
    false
}

/// Does a term say that a recognizer holds of the calls of a function?
fn tells_kind(bank: &Bank, history: &History, f: Sym, t: TermId) -> bool
    requires { Stands bank.now t }
{
    match bank.node(t) {
        Node::App(r, _) => {
            let arguments = bank.args(t);
            arguments.len() == 1
                && is_recognizer(history, r)
                && is_plain_call(bank, f, arguments[0])
        }
        Node::Num(_) => false,
        Node::Var(_) => false,
    }
}

/// Does the term of an axiom or lemma say it?
fn is_told_by(bank: &Bank, history: &History, f: Sym, e: &Entry) -> bool {
    let term = match &e.kind {
        EntryKind::Axiom(_, t) => *t,
        EntryKind::Lemma(_, t) => *t,
        EntryKind::Shell(_) => return false,
        EntryKind::Dcl(_) => return false,
        EntryKind::Defn(_, _, _) => return false,
        EntryKind::Toggle(_, _) => return false,
    };
    if term.0 < bank.len() {
        tells_kind(bank, history, f, term)
    } else {
        false
    }
}

/// The place of the first axiom or lemma that says of what kind the calls of a function are.
fn told_place(bank: &Bank, history: &History, f: Sym) -> Option<u64>
    ensures { IfSome result (λ place. place < length history.now) }
{
    for place in 0..history.len() {
        if is_told_by(bank, history, f, history.entry(place)) {
            return Some(place);
        }
    }
    None
}

/// Adds the line of the first axiom or lemma that says of what kind the calls of a function are, if there is one.
pub fn told_kind(work: &mut Work, history: &History, f: Sym) -> Result<Option<Fact>, Stop>
    requires stands { WorkStands history.now work.old }
    requires ready { HasOwnTerms (events_at work.old.bank history.now) }
    ensures fact { IfOk result (λ found. IfSome found (IsFact history.now work.new)) }
    ensures grows { WorkGrows history.now work.old work.new }
    ensures out { result ≡ Err Stop.OutOfSteps → work.new.counter.used ≡ work.new.counter.limit }
{
    match told_place(&work.bank, history, f) {
        Some(place) => told_at(work, history, place),
        None => Ok(None),
    }
}

/// Adds the line of the axiom or lemma at a place.
fn told_at(work: &mut Work, history: &History, place: u64) -> Result<Option<Fact>, Stop>
    requires stands { WorkStands history.now work.old }
    requires ready { HasOwnTerms (events_at work.old.bank history.now) }
    requires place { place < length history.now }
    ensures fact { IfOk result (λ found. IfSome found (IsFact history.now work.new)) }
    ensures grows { WorkGrows history.now work.old work.new }
    ensures out { result ≡ Err Stop.OutOfSteps → work.new.counter.used ≡ work.new.counter.limit }
{
    event_fact(work, history, history.entry(place).name)
}
