//! The first goal of a lemma.
ghost use Rattle.std.specs.Prelude.{◌≡◌, ◌∷◌, ◌++◌, [], All, IfOk, OnOk, map};
ghost use Rattle.nq_bank.specs.Content.{Grows, Stands, term_at, terms_at};
ghost use Rattle.nq_proof.specs.Clauses.{distinct};
ghost use Rattle.nq_history.specs.Events.{HistoryStands, events_at};
ghost use Rattle.nq_history.specs.Hints.{HintsStand, InstanceStands};
ghost use Rattle.nq_event.specs.EventsAt.{hints_at, instance_at};
ghost use Rattle.nq_goals.specs.Hints.{denied_instances, first_goal};
ghost use Rattle.nq_uses.specs.Found.{found_ids};

use crate::instances::denied_instance;
use nq_bank::{Bank, BankFault, TermId};
use nq_history::{Hints, History, Instance};
use nq_rule::clause_of;
use std::alloc::AllocError;

/// The negations of the instances in their order.
fn denials(
    bank: &mut Bank,
    history: &History,
    instances: &[Instance],
) -> Result<Vec<TermId>, BankFault>
    requires history { HistoryStands bank.old history.now }
    requires instances { All (InstanceStands bank.old) instances.now }
    ensures stand { IfOk result (λ ids. All (Stands bank.new) ids.items) }
    ensures are { IfOk result (λ ids. terms_at bank.new ids.items ≡ denied_instances (events_at bank.old history.now) (map (instance_at bank.old) instances.now) []) }
    ensures grows { Grows bank.old bank.new }
    ensures names { bank.new.names ≡ bank.old.names }
{
    let mut ids = Vec::new(bank.alloc());
    for instance in instances {
        let found = denied_instance(bank, history, instance)?;
        keep_found(&mut ids, found)?;
    }
    Ok(ids)
}

fn keep(ids: &mut Vec<TermId>, id: TermId) -> Result<(), BankFault>
    ensures { OnOk result (ids.new.items ≡ ids.old.items ++ id ∷ []) }
{
    match ids.push(id) {
        Ok(()) => Ok(()),
        Err(_) => Err(BankFault::Memory),
    }
}

fn keep_found(ids: &mut Vec<TermId>, found: Option<TermId>) -> Result<(), BankFault>
    ensures { OnOk result (ids.new.items ≡ ids.old.items ++ found_ids found) }
{
    match found {
        Some(id) => keep(ids, id),
        None => Ok(()),
    }
}

/// The goal without later copies.
fn goal_of(bank: &Bank, literals: Vec<TermId>, goal: TermId) -> Result<Vec<TermId>, BankFault>
    requires literals { All (Stands bank.now) literals.items }
    requires goal { Stands bank.now goal }
    ensures stand { IfOk result (λ ids. All (Stands bank.now) ids.items) }
    ensures are { IfOk result (λ ids. terms_at bank.now ids.items ≡ distinct (terms_at bank.now literals.items ++ term_at bank.now goal ∷ [])) }
{
    let mut literals = literals;
    keep(&mut literals, goal)?;
    clause_of(bank, literals.as_slice())
}

/// The first goal of a lemma: the NOTs of the instances that the hints name, in their order, and then the lemma, without later
/// copies. No step is counted.
pub fn first_goal(
    bank: &mut Bank,
    history: &History,
    hints: &Hints,
    goal: TermId,
) -> Result<Vec<TermId>, BankFault>
    requires history { HistoryStands bank.old history.now }
    requires hints { HintsStand bank.old hints.now }
    requires goal { Stands bank.old goal }
    ensures stand { IfOk result (λ ids. All (Stands bank.new) ids.items) }
    ensures are { IfOk result (λ ids. terms_at bank.new ids.items ≡ first_goal (events_at bank.old history.now) (hints_at bank.old hints.now) (term_at bank.old goal)) }
    ensures grows { Grows bank.old bank.new }
    ensures names { bank.new.names ≡ bank.old.names }
{
    let literals = denials(bank, history, hints.instances.as_slice())?;
    goal_of(bank, literals, goal)
}
