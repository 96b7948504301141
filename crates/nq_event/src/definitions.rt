//! The definitions of a history.
ghost use Rattle.std.specs.Prelude.{◌≡◌, All, IfSome};
ghost use Rattle.std.specs.Option.{option_map};
ghost use Rattle.nq_logic.specs.Histories.{event_definitions, events_definitions};
ghost use Rattle.nq_bank.specs.Content.{Content, IsNamed, Stands, term_at, text_at};
ghost use Rattle.nq_bank.specs.Soundness.{IsSound};
ghost use Rattle.nq_history.specs.Events.{all_events_at, event_at, events_at, EntryStands, HistoryStands};
ghost use Rattle.nq_events.specs.Inductions.{definition_among, head_of, opened_by};
ghost use Rattle.nq_event.specs.Definitions.{definition_at, DefinitionStands};

use nq_bank::{Bank, Node, Sym, TermId, ground};
use nq_history::{Entry, EntryKind, History};

/// A definition of a history.
#[derive(Clone, Copy)]
pub struct Definition<'a> {
    pub name: Sym,
    pub formals: &'a [Sym],
    pub body: TermId,
    /// None where the function isn't recursive.
    pub measure: Option<TermId>,
}

/// The definition of an entry, if it is one of this name.
fn definition_by<'a>(entry: &'a Entry, name: Sym) -> Option<Definition<'a>>
    ensures is { (bank : Content) → IsSound bank → IsNamed bank name → EntryStands bank entry.now → option_map (definition_at bank) result ≡ definition_among (event_definitions (event_at bank entry.now)) (text_at bank name) }
    ensures stands { (bank : Content) → EntryStands bank entry.now → IfSome result (DefinitionStands bank) }
{
    match &entry.kind {
        EntryKind::Defn(formals, body, measure) => {
            if name.0 == entry.name.0 {
                Some(Definition {
                    name: entry.name,
                    formals: formals.as_slice(),
                    body: *body,
                    measure: *measure,
                })
            } else {
                None
            }
        }
        EntryKind::Shell(_) => None,
        EntryKind::Dcl(_) => None,
        EntryKind::Axiom(_, _) => None,
        EntryKind::Lemma(_, _) => None,
        EntryKind::Toggle(_, _) => None,
    }
}

/// The first of these entries that is a definition of this name.
pub fn definition_among<'a>(bank: &Bank, entries: &'a [Entry], name: Sym) -> Option<Definition<'a>>
    requires entries { All (EntryStands bank.now) entries.now }
    requires name { IsNamed bank.now name }
    ensures is { option_map (definition_at bank.now) result ≡ definition_among (events_definitions (all_events_at bank.now entries.now)) (text_at bank.now name) }
    ensures stands { IfSome result (DefinitionStands bank.now) }
{
    bank.is_sound();
    for entry in entries {
        if let Some(definition) = definition_by(entry, name) {
            return Some(definition);
        }
    }
    None
}

/// The function of a call.
fn head_of(bank: &Bank, t: TermId) -> Option<Sym>
    requires { Stands bank.now t }
    ensures is { option_map (text_at bank.now) result ≡ head_of (term_at bank.now t) }
    ensures named { IfSome result (IsNamed bank.now) }
{
    bank.is_sound();
    match bank.node(t) {
        Node::Var(_) => None,
        Node::Num(n) => Some(if n == 0 { ground::ZERO } else { ground::ADD1 }),
        Node::App(f, _) => Some(f),
    }
}

/// The definition of the function that a term calls.
pub fn definition_called<'a>(bank: &Bank, history: &'a History, t: TermId) -> Option<Definition<'a>>
    requires history { HistoryStands bank.now history.now }
    requires term { Stands bank.now t }
    ensures is { option_map (definition_at bank.now) result ≡ opened_by (events_at bank.now history.now) (term_at bank.now t) }
    ensures stands { IfSome result (DefinitionStands bank.now) }
{
    match head_of(bank, t) {
        Some(f) => definition_among(bank, history.entries(), f),
        None => None,
    }
}
