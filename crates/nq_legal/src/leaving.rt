//! Why a goal is left over, in which no move has a candidate.
ghost use Rattle.std.specs.Prelude.{◌≡◌, ◌≤◌, ◌<◌, [], true, false, All, IfOk, Some};
ghost use Rattle.nq_bank.specs.Content.{Content, Stands, terms_at};
ghost use Rattle.nq_history.specs.Events.{events_at, HistoryStands};
ghost use Rattle.nq_history.specs.Hints.{HintsStand};
ghost use Rattle.nq_goals.specs.Inducting.{suggesting_in};
ghost use Rattle.nq_goals.specs.Moves.{induction_limit};
ghost use Rattle.nq_goals.specs.Paths.{inductions};
ghost use Rattle.nq_waterfall.specs.Trails.{AncestorStands, above_at};
ghost use Rattle.nq_legal.specs.Leaving.{IsFreeAt, IsHintNow, IsHintedAt, IsLeft, IsStuck};

use crate::above::{inductions, is_subsumed};
use crate::suggesting::suggests;
use nq_bank::{Bank, TermId};
use nq_history::{Hints, History};
use nq_kernel::Cause;
use nq_normal::suggests_induction;
use nq_waterfall::Ancestor;
use std::alloc::AllocError;

/// The most inductions on a path.
const INDUCTION_LIMIT: usize = 12;

/// What becomes of a goal in which no move has a candidate.
#[derive(Clone, Copy, Debug, PartialEq, Eq)]
pub enum Left {
    /// It is left over for this cause.
    Over(Cause),
    /// It is to be led on by an induction that a call in it suggests.
    ToInduction,
    /// It is to be led on by an induction that this call of a hint suggests.
    ToHint(TermId),
    /// Nothing is told: the term of a hint is not known to suggest an induction. A lawful hint has one that does.
    Untold,
}

/// The term of the hint by which the next induction of the way down goes: the first does, if there is one.
fn hint_now(hints: &Hints, path: &[Ancestor]) -> Option<TermId>
    ensures { (bank : Content) → IsHintNow bank hints.now path.now result }
{
    match hints.induct {
        None => None,
        Some(call) => {
            if inductions(path) == 0 {
                Some(call)
            } else {
                None
            }
        }
    }
}

/// Does the way down hold as many inductions as it may?
fn is_deep(path: &[Ancestor]) -> bool
    ensures deep { (bank : Content) → result ≡ true → induction_limit ≤ inductions (above_at bank path.now) }
    ensures shallow { (bank : Content) → result ≡ false → inductions (above_at bank path.now) < induction_limit }
{
    inductions(path) >= INDUCTION_LIMIT
}

/// Why a goal is left over in which a call suggests an induction.
fn left_with_call(
    bank: &Bank,
    history: &History,
    hints: &Hints,
    path: &[Ancestor],
    goal: &[TermId],
) -> Result<Left, AllocError>
    requires history { HistoryStands bank.now history.now }
    requires path { All (AncestorStands bank.now) path.now }
    requires goal { All (Stands bank.now) goal.now }
    requires stuck { IsStuck bank.now history.now hints.now goal.now }
    requires free { IsFreeAt bank.now hints.now path.now }
    requires suggested { suggesting_in (events_at bank.now history.now) (terms_at bank.now goal.now) ≡ [] → ⊥ }
    ensures { IfOk result (IsLeft bank.now history.now hints.now path.now goal.now) }
{
    let _ = history.len();
    if is_subsumed(bank, path, goal)? {
        return Ok(Left::Over(Cause::Loop));
    }
    if hints.no_induct {
        return Ok(Left::Over(Cause::Forbidden));
    }
    if is_deep(path) {
        return Ok(Left::Over(Cause::Depth));
    }
    Ok(Left::ToInduction)
}

/// The same, where no hint says how the next induction goes.
fn left_free(
    bank: &Bank,
    history: &History,
    hints: &Hints,
    path: &[Ancestor],
    goal: &[TermId],
) -> Result<Left, AllocError>
    requires history { HistoryStands bank.now history.now }
    requires path { All (AncestorStands bank.now) path.now }
    requires goal { All (Stands bank.now) goal.now }
    requires stuck { IsStuck bank.now history.now hints.now goal.now }
    requires free { IsFreeAt bank.now hints.now path.now }
    ensures { IfOk result (IsLeft bank.now history.now hints.now path.now goal.now) }
{
    if suggests_induction(bank, history, goal)? {
        left_with_call(bank, history, hints, path, goal)
    } else {
        Ok(Left::Over(Cause::NoInduction))
    }
}

/// The same, where a hint says how the next induction goes.
fn left_hinted(
    bank: &Bank,
    history: &History,
    hints: &Hints,
    path: &[Ancestor],
    goal: &[TermId],
    call: TermId,
) -> Result<Left, AllocError>
    requires history { HistoryStands bank.now history.now }
    requires call { Stands bank.now call }
    requires stuck { IsStuck bank.now history.now hints.now goal.now }
    requires hint { hints.now.induct ≡ Some call }
    requires hinted { IsHintedAt bank.now hints.now path.now call }
    ensures { IfOk result (IsLeft bank.now history.now hints.now path.now goal.now) }
{
    let _ = (path.len(), goal.len());
    let suggested = suggests(bank, history, call)?;
    if !suggested {
        return Ok(Left::Untold);
    }
    if hints.no_induct {
        return Ok(Left::Over(Cause::Forbidden));
    }
    Ok(Left::ToHint(call))
}

/// The first cause for which a goal is left over in which no move has a candidate; or else it is to be led on by an induction.
pub fn left_over(
    bank: &Bank,
    history: &History,
    hints: &Hints,
    path: &[Ancestor],
    goal: &[TermId],
) -> Result<Left, AllocError>
    requires history { HistoryStands bank.now history.now }
    requires hints { HintsStand bank.now hints.now }
    requires path { All (AncestorStands bank.now) path.now }
    requires goal { All (Stands bank.now) goal.now }
    requires stuck { IsStuck bank.now history.now hints.now goal.now }
    ensures { IfOk result (IsLeft bank.now history.now hints.now path.now goal.now) }
{
    match hint_now(hints, path) {
        None => left_free(bank, history, hints, path, goal),
        Some(call) => left_hinted(bank, history, hints, path, goal, call),
    }
}
