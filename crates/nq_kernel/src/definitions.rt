//! The definitions of a history.
ghost use Rattle.std.specs.Prelude.{◌≡◌, All, IfSome};
ghost use Rattle.std.specs.Option.{option_map};
ghost use Rattle.nq_logic.specs.Histories.{events_definitions};
ghost use Rattle.nq_bank.specs.Content.{IsNamed, text_at};
ghost use Rattle.nq_proof.specs.Rows.{definition_found, opening};
ghost use Rattle.nq_axiom.specs.Openings.{opened, DefinitionStands};
ghost use Rattle.nq_history.specs.Events.{all_events_at, EntryStands};
ghost use Rattle.nq_kernel.specs.Entries.{entry_definition, named};

use nq_axiom::Definition;
use nq_bank::{Bank, Sym, is_same_name};
use nq_history::{Entry, EntryKind};

/// The definition that an entry brought.
fn definition_of<'a>(bank: &Bank, e: &'a Entry) -> Option<Definition<'a>>
    requires { EntryStands bank.now e.now }
    ensures definition { option_map (opened bank.now) result ≡ option_map opening (entry_definition bank.now e.now) }
    ensures stands { IfSome result (DefinitionStands bank.now) }
{
    match &e.kind {
        EntryKind::Defn(formals, body, _) => Some(Definition {
            function: e.name,
            formals: formals.as_slice(),
            body: *body,
        }),
        EntryKind::Shell(_) => None,
        EntryKind::Dcl(_) => None,
        EntryKind::Axiom(_, _) => None,
        EntryKind::Lemma(_, _) => None,
        EntryKind::Toggle(_, _) => None,
    }
}

/// The definition that an entry brought under this name.
fn definition_named<'a>(bank: &Bank, e: &'a Entry, name: Sym) -> Option<Definition<'a>>
    requires entry { EntryStands bank.now e.now }
    requires name { IsNamed bank.now name }
    ensures definition { option_map (opened bank.now) result ≡ option_map opening (named (text_at bank.now name) (entry_definition bank.now e.now)) }
    ensures stands { IfSome result (DefinitionStands bank.now) }
{
    if is_same_name(bank, name, e.name) {
        definition_of(bank, e)
    } else {
        None
    }
}

/// The first definition of this name among entries.
pub fn definition_among<'a>(bank: &Bank, entries: &'a [Entry], name: Sym) -> Option<Definition<'a>>
    requires entries { All (EntryStands bank.now) entries.now }
    requires name { IsNamed bank.now name }
    ensures definition { option_map (opened bank.now) result ≡ option_map opening (definition_found (text_at bank.now name) (events_definitions (all_events_at bank.now entries.now))) }
    ensures stands { IfSome result (DefinitionStands bank.now) }
{
    for e in entries {
        if let Some(d) = definition_named(bank, e, name) {
            return Some(d);
        }
    }
    None
}
