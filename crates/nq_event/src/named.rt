//! Events by their names.
ghost use Rattle.std.specs.Prelude.{◌≡◌, is_some};
ghost use Rattle.std.specs.List.{list_all};
ghost use Rattle.std.specs.Option.{option_copied, option_map};
ghost use Rattle.nq_logic.specs.Names.{looked_up};
ghost use Rattle.nq_bank.specs.Content.{Content};
ghost use Rattle.nq_bank.specs.declared.node.Sym.{Sym};
ghost use Rattle.nq_history.specs.Events.{event_at, event_of, events_at, HistoryStands};
ghost use Rattle.nq_events.specs.HintRefusals.{cited_term, is_event, is_function, term_named};
ghost use Rattle.nq_event.specs.Shapes.{names_at};

use crate::lists::text_of;
use nq_bank::Bank;
use nq_history::{Entry, EntryKind, History};
use nq_sexp::Sexp;

/// The first event of this name.
fn event_named<'a>(bank: &Bank, history: &'a History, name: &[u8]) -> Option<&'a Entry>
    requires { HistoryStands bank.now history.now }
    ensures { option_map (event_at bank.now) (option_copied result) ≡ looked_up name.now (events_at bank.now history.now) }
{
    bank.is_sound();
    match bank.find(name) {
        Some(s) => history.lookup(s),
        None => None,
    }
}

/// Is there an event of this name?
pub fn is_event(bank: &Bank, history: &History, name: &[u8]) -> bool
    requires { HistoryStands bank.now history.now }
    ensures { result ≡ is_event (events_at bank.now history.now) name.now }
{
    event_named(bank, history, name).is_some()
}

/// Is there an event of each of these names?
pub fn are_events(bank: &Bank, history: &History, names: &[Sexp<'_>]) -> bool
    requires { HistoryStands bank.now history.now }
    ensures { result ≡ list_all (is_event (events_at bank.now history.now)) (names_at names.now) }
{
    for name in names.iter() {
        if !is_event(bank, history, text_of(name)) {
            return false;
        }
    }
    true
}

/// Has an event a term that a hint can cite: is it an axiom, a lemma or a definition?
fn is_cited(kind: &EntryKind) -> bool
    ensures { (bank : Content) → (name : Sym) → result ≡ is_some (cited_term (event_of bank name kind.now)) }
{
    match kind {
        EntryKind::Defn(_, _, _) => true,
        EntryKind::Axiom(_, _) => true,
        EntryKind::Lemma(_, _) => true,
        EntryKind::Shell(_) => false,
        EntryKind::Dcl(_) => false,
        EntryKind::Toggle(_, _) => false,
    }
}

/// Is there an axiom, a lemma or a definition of this name?
pub fn has_term(bank: &Bank, history: &History, name: &[u8]) -> bool
    requires { HistoryStands bank.now history.now }
    ensures { result ≡ is_some (term_named (events_at bank.now history.now) name.now) }
{
    match event_named(bank, history, name) {
        Some(entry) => is_cited(&entry.kind),
        None => false,
    }
}

/// Is there a function of this name?
fn is_function(bank: &Bank, history: &History, name: &[u8]) -> bool
    requires { HistoryStands bank.now history.now }
    ensures { result ≡ is_function (events_at bank.now history.now) name.now }
{
    bank.is_sound();
    match bank.find(name) {
        Some(s) => history.arity(s).is_some(),
        None => false,
    }
}

/// Is there a function of each of these names?
pub fn are_functions(bank: &Bank, history: &History, names: &[Sexp<'_>]) -> bool
    requires { HistoryStands bank.now history.now }
    ensures { result ≡ list_all (is_function (events_at bank.now history.now)) (names_at names.now) }
{
    for name in names.iter() {
        if !is_function(bank, history, text_of(name)) {
            return false;
        }
    }
    true
}
