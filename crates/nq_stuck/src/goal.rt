//! Whether a goal is stuck.
ghost use Rattle.std.specs.Prelude.{◌≡◌, [], All, IfOk, false, true};
ghost use Rattle.nq_bank.specs.Content.{Stands, terms_at};
ghost use Rattle.nq_history.specs.Events.{events_at, HistoryStands};
ghost use Rattle.nq_history.specs.Hints.{HintsStand};
ghost use Rattle.nq_event.specs.EventsAt.{hints_at};
ghost use Rattle.nq_goals.specs.declared.kinds.Cause.TheVariants.{NoInduction};
ghost use Rattle.nq_goals.specs.Inducting.{suggestions};
ghost use Rattle.nq_goals.specs.Moves.{HasNoCandidate};
ghost use Rattle.nq_goals.specs.Spent.{IsFalse, IsSpent, MayBeSpent};
ghost use Rattle.nq_stuck.specs.Left.{HasNoChange, IsLeftToGroups, IsLeftToInduction};

use crate::common::has_generalization;
use crate::destructors::has_elimination;
use crate::dropping::may_drop;
use crate::fault::Fault;
use crate::fertile::has_fertilization;
use crate::substituting::has_substitution;
use nq_bank::{Bank, TermId};
use nq_history::{Hints, History};
use nq_normal::{is_ground, is_normal, suggests_induction};
use std::alloc::AllocError;

/// May the goal, which is a first one, be simplified: is it neither normal nor ground?
fn may_simplify(
    bank: &Bank,
    history: &History,
    hints: &Hints,
    goal: &[TermId],
) -> Result<bool, AllocError>
    requires history { HistoryStands bank.now history.now }
    requires hints { HintsStand bank.now hints.now }
    requires goal { All (Stands bank.now) goal.now }
    ensures { IfOk result (λ b. b ≡ false → MayBeSpent (events_at bank.now history.now) (hints_at bank.now hints.now) [] (terms_at bank.now goal.now)) }
{
    if is_normal(bank, history, hints, goal)? {
        return Ok(false);
    }
    let ground = is_ground(bank, goal)?;
    Ok(!ground)
}

/// May SUBST, FERT, ELIM or GEN lead on from the goal?
fn may_change(bank: &Bank, history: &History, hints: &Hints, goal: &[TermId]) -> Result<bool, Fault>
    requires history { HistoryStands bank.now history.now }
    requires goal { All (Stands bank.now) goal.now }
    ensures { IfOk result (λ b. b ≡ false → HasNoChange (events_at bank.now history.now) (hints_at bank.now hints.now) (terms_at bank.now goal.now)) }
{
    if has_substitution(bank, goal)? {
        return Ok(true);
    }
    if has_fertilization(bank, goal, goal)? {
        return Ok(true);
    }
    if has_elimination(bank, history, goal)? {
        return Ok(true);
    }
    let general = has_generalization(bank, history, hints, goal)?;
    Ok(general)
}

/// May some move other than simplification and induction lead on from the goal?
fn may_have_candidate(
    bank: &Bank,
    history: &History,
    hints: &Hints,
    goal: &[TermId],
) -> Result<bool, Fault>
    requires history { HistoryStands bank.now history.now }
    requires goal { All (Stands bank.now) goal.now }
    ensures { IfOk result (λ b. b ≡ false → HasNoCandidate (events_at bank.now history.now) (hints_at bank.now hints.now) (terms_at bank.now goal.now)) }
{
    if may_drop(goal) {
        return Ok(true);
    }
    may_change(bank, history, hints, goal)
}

/// The same. A goal with too many calls to be looked at may have one.
fn may_go_on(
    bank: &Bank,
    history: &History,
    hints: &Hints,
    goal: &[TermId],
) -> Result<bool, AllocError>
    requires history { HistoryStands bank.now history.now }
    requires goal { All (Stands bank.now) goal.now }
    ensures { IfOk result (λ b. b ≡ false → HasNoCandidate (events_at bank.now history.now) (hints_at bank.now hints.now) (terms_at bank.now goal.now)) }
{
    match may_have_candidate(bank, history, hints, goal) {
        Ok(b) => Ok(b),
        Err(Fault::TooMany) => Ok(true),
        Err(Fault::Memory) => Err(AllocError),
    }
}

/// Does a call in the goal suggest an induction, or is there a hint for one? A lawful hint names a call that does.
fn may_induct(
    bank: &Bank,
    history: &History,
    hints: &Hints,
    goal: &[TermId],
) -> Result<bool, AllocError>
    requires history { HistoryStands bank.now history.now }
    requires goal { All (Stands bank.now) goal.now }
    ensures { IfOk result (λ b. b ≡ false → suggestions (events_at bank.now history.now) (hints_at bank.now hints.now) [] (terms_at bank.now goal.now) ≡ []) }
{
    if hints.induct.is_some() {
        return Ok(true);
    }
    let suggested = suggests_induction(bank, history, goal)?;
    Ok(suggested)
}

/// Is the first goal of a lemma stuck: is it normal or ground, has no move a candidate in it, and suggests no call in it an
/// induction? Where it is, and is not false, it is left over for want of an induction. It may be left over so where the answer is
/// no: where it has several literals, where an axiom or a lemma of the class ELIM stands in the history, and where it has more
/// than two thousand calls.
pub fn is_stuck(
    bank: &Bank,
    history: &History,
    hints: &Hints,
    goal: &[TermId],
) -> Result<bool, AllocError>
    requires history { HistoryStands bank.now history.now }
    requires hints { HintsStand bank.now hints.now }
    requires goal { All (Stands bank.now) goal.now }
    ensures { IfOk result (λ b. b ≡ true → (IsFalse (events_at bank.now history.now) (terms_at bank.now goal.now) → ⊥) → IsSpent (events_at bank.now history.now) (hints_at bank.now hints.now) [] (terms_at bank.now goal.now) NoInduction) }
{
    if may_simplify(bank, history, hints, goal)? {
        return Ok(false);
    }
    if may_go_on(bank, history, hints, goal)? {
        return Ok(false);
    }
    let suggested = may_induct(bank, history, hints, goal)?;
    Ok(!suggested)
}

/// Is the goal in normal form, and has it no candidate of a move other than simplification and induction? It may be so where the
/// answer is no, in the same cases.
pub fn is_left_to_induction(
    bank: &Bank,
    history: &History,
    hints: &Hints,
    goal: &[TermId],
) -> Result<bool, AllocError>
    requires history { HistoryStands bank.now history.now }
    requires hints { HintsStand bank.now hints.now }
    requires goal { All (Stands bank.now) goal.now }
    ensures { IfOk result (λ b. b ≡ true → IsLeftToInduction (events_at bank.now history.now) (hints_at bank.now hints.now) (terms_at bank.now goal.now)) }
{
    if is_normal(bank, history, hints, goal)? {
        let led = may_go_on(bank, history, hints, goal)?;
        Ok(!led)
    } else {
        Ok(false)
    }
}

/// Is the goal in normal form, and has it no candidate of SUBST, ELIM, FERT and GEN? Only IRR and induction may lead on from it. It
/// may be so where the answer is no: where an axiom or a lemma of the class ELIM stands in the history, and where the goal has more
/// than two thousand calls.
pub fn is_left_to_groups(
    bank: &Bank,
    history: &History,
    hints: &Hints,
    goal: &[TermId],
) -> Result<bool, AllocError>
    requires history { HistoryStands bank.now history.now }
    requires hints { HintsStand bank.now hints.now }
    requires goal { All (Stands bank.now) goal.now }
    ensures { IfOk result (λ b. b ≡ true → IsLeftToGroups (events_at bank.now history.now) (hints_at bank.now hints.now) (terms_at bank.now goal.now)) }
{
    if is_normal(bank, history, hints, goal)? {
        match may_change(bank, history, hints, goal) {
            Ok(led) => Ok(!led),
            Err(Fault::TooMany) => Ok(false),
            Err(Fault::Memory) => Err(AllocError),
        }
    } else {
        Ok(false)
    }
}
