//! Whether recursive functions stand in terms.
ghost use Rattle.std.specs.Prelude.{◌≡◌, All, IfOk, OnOk, Some};
ghost use Rattle.nq_bank.specs.Content.{Content, Stands, IsNamed, text_at, term_at};
ghost use Rattle.nq_history.specs.Events.{HistoryStands, events_at, event_at};
ghost use Rattle.nq_goals.specs.Recursion.{is_recursive, holds_recursive, is_recursive_event};
ghost use Rattle.nq_moves.specs.Knowing.{HasAnswers};

use crate::known::{is_either, keep_answer, known_answer};
use nq_bank::{Bank, Node, Sym, TermId, ground, ground_name};
use nq_history::{Entry, EntryKind, History};
use std::alloc::AllocError;
use std::collections::HashMap;

/// Is the event of an entry the definition of a recursive function?
fn is_recursive_entry(e: &Entry) -> bool
    ensures { (bank : Content) → result ≡ is_recursive_event (Some (event_at bank e.now)) }
{
    match &e.kind {
        EntryKind::Defn(_, _, measure) => measure.is_some(),
        EntryKind::Shell(_) => false,
        EntryKind::Dcl(_) => false,
        EntryKind::Axiom(_, _) => false,
        EntryKind::Lemma(_, _) => false,
        EntryKind::Toggle(_, _) => false,
    }
}

/// Is the function of this name recursive?
pub fn is_recursive(bank: &Bank, history: &History, f: Sym) -> bool
    requires history { HistoryStands bank.now history.now }
    requires function { IsNamed bank.now f }
    ensures { result ≡ is_recursive (events_at bank.now history.now) (text_at bank.now f) }
{
    bank.is_sound();
    match history.lookup(f) {
        Some(e) => is_recursive_entry(e),
        None => false,
    }
}

/// Does a recursive function stand in the term? Each shared node is looked at once.
pub fn holds_recursive(bank: &Bank, history: &History, t: TermId) -> Result<bool, AllocError>
    requires history { HistoryStands bank.now history.now }
    requires term { Stands bank.now t }
    ensures { IfOk result (λ answer. answer ≡ holds_recursive (events_at bank.now history.now) (term_at bank.now t)) }
{
    let mut known = HashMap::new(bank.alloc());
    holds_within(bank, history, &mut known, t)
}

/// The same, where the answers for some terms are known.
fn holds_within(
    bank: &Bank,
    history: &History,
    known: &mut HashMap<u64, bool>,
    t: TermId,
) -> Result<bool, AllocError>
    requires history { HistoryStands bank.now history.now }
    requires term { Stands bank.now t }
    requires answers { HasAnswers bank.now (holds_recursive (events_at bank.now history.now)) known.old }
    ensures ok { IfOk result (λ answer. answer ≡ holds_recursive (events_at bank.now history.now) (term_at bank.now t)) }
    ensures answers { OnOk result (HasAnswers bank.now (holds_recursive (events_at bank.now history.now)) known.new) }
{
    match bank.node(t) {
        Node::Var(_) => Ok(false),
        // a numeral is built of ADD1, which is a shell's, and ZERO
        Node::Num(_) => Ok(is_recursive(bank, history, ground_name(bank, ground::ZERO))),
        Node::App(f, _) => match known_answer(known, t) {
            Some(answer) => Ok(answer),
            None => {
                let mut answer = is_recursive(bank, history, f);
                for a in bank.args(t) {
                    let here = holds_within(bank, history, known, *a)?;
                    answer = is_either(answer, here);
                }
                keep_answer(known, t, answer)?;
                Ok(answer)
            }
        },
    }
}
