//! Instances of terms and of defining equations.
ghost use Rattle.std.specs.Prelude.{◌≡◌, ◌<◌, All, IfOk, IfSome, Err, None, Some, if◌then◌else◌, map};
ghost use Rattle.std.specs.Option.{option_map};
ghost use Rattle.nq_logic.specs.Terms.{substituted, value_at};
ghost use Rattle.nq_logic.specs.Sizes.{depth_limit, depth_of};
ghost use Rattle.nq_language.specs.Limits.{is_too_large};
ghost use Rattle.nq_language.specs.Refusals.{TooLarge};
ghost use Rattle.nq_bank.specs.Content.{Content, Grows, IsNamed, IsIdOf, Stands, term_at, terms_at, text_at};
ghost use Rattle.nq_bank.specs.Shells.{texts_at};
ghost use Rattle.nq_clause.specs.Substitution.{PairStands};
ghost use Rattle.nq_history.specs.Events.{event_at, events_at, EntryStands, HistoryStands};
ghost use Rattle.nq_events.specs.Refusals.{OfLanguage};
ghost use Rattle.nq_events.specs.HintRefusals.{cited_term, defining_equation, instance_term, instances_refusal, is_large_instance, term_named};
ghost use Rattle.nq_history.specs.Hints.{InstanceStands};
ghost use Rattle.nq_event.specs.EventsAt.{instance_at, pair_at};
ghost use Rattle.nq_event.specs.Definitions.{definition_at, DefinitionStands};
ghost use Rattle.nq_event.specs.Stated.{stated_term, StatedStands};

use crate::definitions::Definition;
use nq_bank::{Bank, BankFault, Sym, TermId, ground, is_same_name};
use nq_clause::{Pair, substitute};
use nq_history::{Entry, EntryKind, History, Instance};
use std::alloc::{AllocError, Global};

/// What stands in the place of a variable.
fn value_of(bank: &mut Bank, pairs: &[Pair], variable: Sym) -> Result<TermId, AllocError>
    requires pairs { All (PairStands bank.old) pairs.now }
    requires variable { IsNamed bank.old variable }
    ensures value { IfOk result (λ t. IsIdOf bank.new t (value_at (map (pair_at bank.old) pairs.now) (text_at bank.old variable))) }
    ensures grows { Grows bank.old bank.new }
{
    for pair in pairs {
        if is_same_name(bank, variable, pair.variable) {
            return Ok(pair.term);
        }
    }
    bank.var(variable)
}

/// What stands in the places of formals.
fn values_of(bank: &mut Bank, pairs: &[Pair], formals: &[Sym]) -> Result<Vec<TermId>, AllocError>
    requires pairs { All (PairStands bank.old) pairs.now }
    requires formals { All (IsNamed bank.old) formals.now }
    ensures stand { IfOk result (λ values. All (Stands bank.new) values.items) }
    ensures are { IfOk result (λ values. terms_at bank.new values.items ≡ map (value_at (map (pair_at bank.old) pairs.now)) (texts_at bank.old formals.now)) }
    ensures grows { Grows bank.old bank.new }
{
    let mut values = Vec::new(bank.alloc());
    for formal in formals {
        let value = value_of(bank, pairs, *formal)?;
        values.push(value)?;
    }
    Ok(values)
}

/// The id of the term in which the pairs replace the variables; `Deep` only where it is deeper than a bank allows.
pub fn replaced(bank: &mut Bank, pairs: &[Pair], t: TermId) -> Result<TermId, BankFault>
    requires pairs { All (PairStands bank.old) pairs.now }
    requires term { Stands bank.old t }
    ensures ok { IfOk result (λ r. IsIdOf bank.new r (substituted (map (pair_at bank.old) pairs.now) (term_at bank.old t))) }
    ensures deep { result ≡ Err BankFault.Deep → depth_limit < depth_of (substituted (map (pair_at bank.old) pairs.now) (term_at bank.old t)) }
    ensures grows { Grows bank.old bank.new }
{
    substitute(bank, t, pairs)
}

/// The id of an instance of a defining equation; `Deep` only where it is deeper than a bank allows.
pub fn equation(
    bank: &mut Bank,
    pairs: &[Pair],
    definition: &Definition<'_>,
) -> Result<TermId, BankFault>
    requires pairs { All (PairStands bank.old) pairs.now }
    requires definition { DefinitionStands bank.old definition.now }
    ensures ok { IfOk result (λ r. IsIdOf bank.new r (substituted (map (pair_at bank.old) pairs.now) (defining_equation (definition_at bank.old definition.now)))) }
    ensures deep { result ≡ Err BankFault.Deep → depth_limit < depth_of (substituted (map (pair_at bank.old) pairs.now) (defining_equation (definition_at bank.old definition.now))) }
    ensures grows { Grows bank.old bank.new }
{
    bank.is_sound();
    let Ok(values) = values_of(bank, pairs, definition.formals) else {
        return Err(BankFault::Memory);
    };
    let call = bank.app(definition.name, values.as_slice())?;
    let body = replaced(bank, pairs, definition.body)?;
    bank.app(ground::EQUAL, &[call, body])
}
