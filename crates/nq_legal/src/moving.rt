//! Goals that SUBST, ELIM, FERT, GEN or IRR leads on.
ghost use Rattle.std.specs.Prelude.{◌≡◌, [], All, IfOk, MatchOption, Err};
ghost use Rattle.nq_bank.specs.Content.{terms_at};
ghost use Rattle.nq_history.specs.Events.{events_at};
ghost use Rattle.nq_goals.specs.Dropping.{droppings_of};
ghost use Rattle.nq_goals.specs.Fertilizing.{fertilizings_of};
ghost use Rattle.nq_goals.specs.Substituting.{substitutions_of};
ghost use Rattle.nq_kernel.specs.Growing.{WorkStands, WorkGrows};
ghost use Rattle.nq_moves.specs.Ways as moves;
ghost use Rattle.nq_event.specs.EventsAt.{hints_at};
ghost use Rattle.nq_waterfall.specs.Ready.{CanMove, IsGoalIn, IsPathIn};
ghost use Rattle.nq_waterfall.specs.Trails.{AncestorStands};
ghost use Rattle.nq_waterfall.specs.Turns.{IsLead};
ghost use Rattle.nq_legal.specs.Legal.{AreCopies, IsLegal, IsWay, LeadsAnywhere, NormalAt};
ghost use Rattle.nq_goals.specs.Moves.{HasNoCandidate};
ghost use Rattle.nq_legal.specs.Candidates.{HasNoneLess, HasNoneOfFour};

use crate::eliminating::eliminated;
use crate::generalizing::generalized;
use crate::way::Way;
use nq_bank::TermId;
use nq_history::{Hints, History};
use nq_kernel::{MoveKind, Stop, Work};
use nq_moves::{Moved, fertilize_move, irrelevant_move, substitute_move};
use nq_waterfall::laws::holding;
use nq_waterfall::{Ancestor, Lead};
use std::alloc::{AllocError, Global};

/// A copy of some goals.
pub fn copied(alloc: Global, goals: &[Vec<TermId>]) -> Result<Vec<Vec<TermId>>, AllocError>
    ensures { IfOk result (λ v. AreCopies v.items goals.now) }
{
    let mut copies = Vec::new(alloc);
    for goal in goals {
        let copy = Vec::from_slice(alloc, goal.as_slice())?;
        copies.push(copy)?;
    }
    Ok(copies)
}

/// A move of this kind that was made.
fn lead_by(
    work: &Work,
    history: &History,
    hints: &Hints,
    goal: &[TermId],
    kind: MoveKind,
    moved: Moved,
) -> Result<Lead<Way>, Stop>
    requires stands { WorkStands history.now work.now }
    requires goal { IsGoalIn history.now work.now goal.now }
    requires moved { moves.IsMove history.now work.now goal.now moved }
    requires leads { LeadsAnywhere work.now.bank history.now hints.now kind goal.now moved.children.items }
    ensures legal { IfOk result (IsLegal history.now hints.now work.now goal.now) }
    ensures memory { result ≡ Err Stop.OutOfSteps → ⊥ }
{
    let _ = (history.len(), hints.no_induct, goal.len());
    match copied(work.bank.alloc(), moved.children.as_slice()) {
        Ok(nexts) => Ok(Lead {
            kind,
            nexts,
            way: Way::Moved(moved),
        }),
        Err(_) => Err(Stop::Memory),
    }
}

/// SUBST, where the goal has a candidate.
fn substituted(
    work: &mut Work,
    history: &History,
    hints: &Hints,
    goal: &[TermId],
) -> Result<Option<Lead<Way>>, Stop>
    requires ready { CanMove history.now hints.now work.old }
    requires goal { IsGoalIn history.now work.old goal.now }
    requires normal { NormalAt work.old.bank history.now hints.now goal.now }
    ensures legal { IfOk result (λ found. MatchOption found (substitutions_of (terms_at work.new.bank goal.now) ≡ []) (IsLegal history.now hints.now work.new goal.now)) }
    ensures grows { WorkGrows history.now work.old work.new }
    ensures out { result ≡ Err Stop.OutOfSteps → work.new.counter.used ≡ work.new.counter.limit }
{
    match substitute_move(work, history, hints, goal)? {
        Some(moved) => {
            let lead = lead_by(work, history, hints, goal, MoveKind::Subst, moved)?;
            Ok(Some(lead))
        }
        None => Ok(None),
    }
}

/// FERT, where the goal has a candidate.
fn fertilized(
    work: &mut Work,
    history: &History,
    hints: &Hints,
    goal: &[TermId],
) -> Result<Option<Lead<Way>>, Stop>
    requires ready { CanMove history.now hints.now work.old }
    requires goal { IsGoalIn history.now work.old goal.now }
    requires normal { NormalAt work.old.bank history.now hints.now goal.now }
    ensures legal { IfOk result (λ found. MatchOption found (fertilizings_of (terms_at work.new.bank goal.now) ≡ []) (IsLegal history.now hints.now work.new goal.now)) }
    ensures grows { WorkGrows history.now work.old work.new }
    ensures out { result ≡ Err Stop.OutOfSteps → work.new.counter.used ≡ work.new.counter.limit }
{
    match fertilize_move(work, history, hints, goal)? {
        Some(moved) => {
            let lead = lead_by(work, history, hints, goal, MoveKind::Fert, moved)?;
            Ok(Some(lead))
        }
        None => Ok(None),
    }
}

/// IRR, where the goal has a candidate.
fn dropped(
    work: &mut Work,
    history: &History,
    hints: &Hints,
    goal: &[TermId],
) -> Result<Option<Lead<Way>>, Stop>
    requires ready { CanMove history.now hints.now work.old }
    requires goal { IsGoalIn history.now work.old goal.now }
    requires normal { NormalAt work.old.bank history.now hints.now goal.now }
    ensures legal { IfOk result (λ found. MatchOption found (droppings_of (events_at work.new.bank history.now) (terms_at work.new.bank goal.now) ≡ []) (IsLegal history.now hints.now work.new goal.now)) }
    ensures grows { WorkGrows history.now work.old work.new }
    ensures out { result ≡ Err Stop.OutOfSteps → work.new.counter.used ≡ work.new.counter.limit }
{
    match irrelevant_move(work, history, hints, goal)? {
        Some(moved) => {
            let lead = lead_by(work, history, hints, goal, MoveKind::Irr, moved)?;
            Ok(Some(lead))
        }
        None => Ok(None),
    }
}

/// GEN or IRR, where the goal has a candidate.
fn lessened(
    work: &mut Work,
    history: &History,
    hints: &Hints,
    path: &[Ancestor],
    goal: &[TermId],
) -> Result<Option<Lead<Way>>, Stop>
    requires ready { CanMove history.now hints.now work.old }
    requires path { All (AncestorStands work.old.bank) path.now }
    requires path_in { IsPathIn history.now work.old path.now }
    requires goal { IsGoalIn history.now work.old goal.now }
    requires normal { NormalAt work.old.bank history.now hints.now goal.now }
    ensures legal { IfOk result (λ found. MatchOption found (HasNoneLess (events_at work.new.bank history.now) (hints_at work.new.bank hints.now) (terms_at work.new.bank goal.now)) (IsLead IsWay history.now hints.now work.new path.now goal.now)) }
    ensures grows { WorkGrows history.now work.old work.new }
    ensures out { result ≡ Err Stop.OutOfSteps → work.new.counter.used ≡ work.new.counter.limit }
{
    holding();
    match generalized(work, history, hints, path, goal)? {
        Some(lead) => Ok(Some(lead)),
        None => dropped(work, history, hints, goal),
    }
}

/// FERT, GEN or IRR, where the goal has a candidate.
fn changed(
    work: &mut Work,
    history: &History,
    hints: &Hints,
    path: &[Ancestor],
    goal: &[TermId],
) -> Result<Option<Lead<Way>>, Stop>
    requires ready { CanMove history.now hints.now work.old }
    requires path { All (AncestorStands work.old.bank) path.now }
    requires path_in { IsPathIn history.now work.old path.now }
    requires goal { IsGoalIn history.now work.old goal.now }
    requires normal { NormalAt work.old.bank history.now hints.now goal.now }
    requires none { substitutions_of (terms_at work.old.bank goal.now) ≡ [] }
    ensures legal { IfOk result (λ found. MatchOption found (HasNoneOfFour (events_at work.new.bank history.now) (hints_at work.new.bank hints.now) (terms_at work.new.bank goal.now)) (IsLead IsWay history.now hints.now work.new path.now goal.now)) }
    ensures grows { WorkGrows history.now work.old work.new }
    ensures out { result ≡ Err Stop.OutOfSteps → work.new.counter.used ≡ work.new.counter.limit }
{
    holding();
    match fertilized(work, history, hints, goal)? {
        Some(lead) => Ok(Some(lead)),
        None => lessened(work, history, hints, path, goal),
    }
}

/// ELIM, FERT, GEN or IRR, where the goal has a candidate.
fn moved(
    work: &mut Work,
    history: &History,
    hints: &Hints,
    path: &[Ancestor],
    goal: &[TermId],
) -> Result<Option<Lead<Way>>, Stop>
    requires ready { CanMove history.now hints.now work.old }
    requires path { All (AncestorStands work.old.bank) path.now }
    requires path_in { IsPathIn history.now work.old path.now }
    requires goal { IsGoalIn history.now work.old goal.now }
    requires normal { NormalAt work.old.bank history.now hints.now goal.now }
    requires none { substitutions_of (terms_at work.old.bank goal.now) ≡ [] }
    ensures legal { IfOk result (λ found. MatchOption found (HasNoCandidate (events_at work.new.bank history.now) (hints_at work.new.bank hints.now) (terms_at work.new.bank goal.now)) (IsLead IsWay history.now hints.now work.new path.now goal.now)) }
    ensures grows { WorkGrows history.now work.old work.new }
    ensures out { result ≡ Err Stop.OutOfSteps → work.new.counter.used ≡ work.new.counter.limit }
{
    holding();
    match eliminated(work, history, hints, path, goal)? {
        Some(lead) => Ok(Some(lead)),
        None => changed(work, history, hints, path, goal),
    }
}

/// SUBST, ELIM, FERT, GEN or IRR, where the goal has a candidate.
pub fn move_on(
    work: &mut Work,
    history: &History,
    hints: &Hints,
    path: &[Ancestor],
    goal: &[TermId],
) -> Result<Option<Lead<Way>>, Stop>
    requires ready { CanMove history.now hints.now work.old }
    requires path { All (AncestorStands work.old.bank) path.now }
    requires path_in { IsPathIn history.now work.old path.now }
    requires goal { IsGoalIn history.now work.old goal.now }
    requires normal { NormalAt work.old.bank history.now hints.now goal.now }
    ensures legal { IfOk result (λ found. MatchOption found (HasNoCandidate (events_at work.new.bank history.now) (hints_at work.new.bank hints.now) (terms_at work.new.bank goal.now)) (IsLead IsWay history.now hints.now work.new path.now goal.now)) }
    ensures grows { WorkGrows history.now work.old work.new }
    ensures out { result ≡ Err Stop.OutOfSteps → work.new.counter.used ≡ work.new.counter.limit }
{
    holding();
    match substituted(work, history, hints, goal)? {
        Some(lead) => Ok(Some(lead)),
        None => moved(work, history, hints, path, goal),
    }
}
