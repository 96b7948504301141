//! Instances of USE that pass the limits of a term.
ghost use Rattle.std.specs.Prelude.{◌≡◌, ◌<◌, All, IfOk, IfSome, Err, None, Some, if◌then◌else◌, map};
ghost use Rattle.std.specs.Option.{option_map};
ghost use Rattle.nq_logic.specs.Terms.{substituted, value_at};
ghost use Rattle.nq_logic.specs.Sizes.{depth_limit, depth_of};
ghost use Rattle.nq_language.specs.Limits.{is_too_large};
ghost use Rattle.nq_language.specs.Refusals.{TooLarge};
ghost use Rattle.nq_bank.specs.Content.{Content, Grows, IsNamed, IsIdOf, Stands, term_at, terms_at, text_at};
ghost use Rattle.nq_bank.specs.Shells.{texts_at};
ghost use Rattle.nq_clause.specs.Substitution.{PairStands};
ghost use Rattle.nq_history.specs.Events.{event_at, events_at, EntryStands, HistoryStands};
ghost use Rattle.nq_events.specs.Refusals.{OfLanguage};
ghost use Rattle.nq_events.specs.HintRefusals.{cited_term, defining_equation, instance_term, instances_refusal, is_large_instance, term_named};
ghost use Rattle.nq_history.specs.Hints.{InstanceStands};
ghost use Rattle.nq_event.specs.EventsAt.{instance_at, pair_at};
ghost use Rattle.nq_event.specs.Definitions.{definition_at, DefinitionStands};
ghost use Rattle.nq_event.specs.Stated.{stated_term, StatedStands};

use crate::definitions::Definition;
use crate::replaced::{equation, replaced};
use nq_bank::{Bank, BankFault, Sym, TermId};
use nq_clause::Pair;
use nq_history::{Entry, EntryKind, History, Instance};
use std::alloc::AllocError;

/// Has a term more nodes than a term of an event may have, or is it deeper?
fn is_too_large(bank: &Bank, t: TermId) -> bool
    requires { Stands bank.now t }
    ensures { result ≡ is_too_large (term_at bank.now t) }
{
    bank.size(t) > 100_000 || bank.depth(t) > 2000
}

/// What an instance is one of.
#[derive(Clone, Copy)]
enum Stated<'a> {
    /// The term of an axiom or a lemma.
    Term(TermId),
    /// The defining equation of a definition.
    Equation(Definition<'a>),
}

/// What an event states, if it is an axiom, a lemma or a definition.
fn stated_by<'a>(entry: &'a Entry) -> Option<Stated<'a>>
    ensures is { (bank : Content) → option_map (stated_term bank) result ≡ cited_term (event_at bank entry.now) }
    ensures stands { (bank : Content) → EntryStands bank entry.now → IfSome result (StatedStands bank) }
{
    match &entry.kind {
        EntryKind::Axiom(_, t) => Some(Stated::Term(*t)),
        EntryKind::Lemma(_, t) => Some(Stated::Term(*t)),
        EntryKind::Defn(formals, body, measure) => Some(Stated::Equation(Definition {
            name: entry.name,
            formals: formals.as_slice(),
            body: *body,
            measure: *measure,
        })),
        EntryKind::Shell(_) => None,
        EntryKind::Dcl(_) => None,
        EntryKind::Toggle(_, _) => None,
    }
}

/// The id of an instance of what is stated; `Deep` only where it is deeper than a bank allows.
fn instance_id(bank: &mut Bank, pairs: &[Pair], stated: &Stated<'_>) -> Result<TermId, BankFault>
    requires pairs { All (PairStands bank.old) pairs.now }
    requires stated { StatedStands bank.old stated.now }
    ensures ok { IfOk result (λ r. IsIdOf bank.new r (substituted (map (pair_at bank.old) pairs.now) (stated_term bank.old stated.now))) }
    ensures deep { result ≡ Err BankFault.Deep → depth_limit < depth_of (substituted (map (pair_at bank.old) pairs.now) (stated_term bank.old stated.now)) }
    ensures grows { Grows bank.old bank.new }
{
    match stated {
        Stated::Term(t) => replaced(bank, pairs, *t),
        Stated::Equation(definition) => equation(bank, pairs, definition),
    }
}

/// Does an instance of what is stated pass the limits of a term?
fn is_large_of(bank: &mut Bank, pairs: &[Pair], stated: &Stated<'_>) -> Result<bool, AllocError>
    requires pairs { All (PairStands bank.old) pairs.now }
    requires stated { StatedStands bank.old stated.now }
    ensures is { IfOk result (λ large. large ≡ is_too_large (substituted (map (pair_at bank.old) pairs.now) (stated_term bank.old stated.now))) }
    ensures grows { Grows bank.old bank.new }
{
    match instance_id(bank, pairs, stated) {
        Ok(t) => Ok(is_too_large(bank, t)),
        Err(BankFault::Deep) => Ok(true),
        Err(BankFault::Memory) => Err(AllocError),
    }
}

/// What the event of this name states, if it is an axiom, a lemma or a definition.
fn stated_named<'a>(bank: &Bank, history: &'a History, name: Sym) -> Option<Stated<'a>>
    requires history { HistoryStands bank.now history.now }
    requires name { IsNamed bank.now name }
    ensures is { option_map (stated_term bank.now) result ≡ term_named (events_at bank.now history.now) (text_at bank.now name) }
    ensures stands { IfSome result (StatedStands bank.now) }
{
    bank.is_sound();
    match history.lookup(name) {
        Some(entry) => stated_by(entry),
        None => None,
    }
}

/// Does an instance pass the limits of a term?
fn is_large(bank: &mut Bank, history: &History, instance: &Instance) -> Result<bool, AllocError>
    requires history { HistoryStands bank.old history.now }
    requires instance { InstanceStands bank.old instance.now }
    ensures is { IfOk result (λ large. large ≡ is_large_instance (instance_term (events_at bank.old history.now) (instance_at bank.old instance.now))) }
    ensures grows { Grows bank.old bank.new }
{
    match stated_named(bank, history, instance.name) {
        Some(stated) => is_large_of(bank, instance.pairs.as_slice(), &stated),
        None => Ok(false),
    }
}

/// Does one of the instances pass the limits of a term?
pub fn have_large(
    bank: &mut Bank,
    history: &History,
    instances: &[Instance],
) -> Result<bool, AllocError>
    requires history { HistoryStands bank.old history.now }
    requires instances { All (InstanceStands bank.old) instances.now }
    ensures is { IfOk result (λ large. instances_refusal (events_at bank.old history.now) (map (instance_at bank.old) instances.now) ≡ (if large then Some (OfLanguage TooLarge) else None)) }
    ensures grows { Grows bank.old bank.new }
{
    for instance in instances {
        let large = is_large(bank, history, instance)?;
        if large {
            return Ok(true);
        }
    }
    Ok(false)
}
