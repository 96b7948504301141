//! Goals that GEN leads on.
ghost use Rattle.std.specs.Prelude.{◌≡◌, [], All, IfOk, MatchOption, Err};
ghost use Rattle.nq_bank.specs.Content.{Content, terms_at};
ghost use Rattle.nq_history.specs.Events.{events_at};
ghost use Rattle.nq_history.specs.declared.entry.Entry.{Entry};
ghost use Rattle.std.specs.Prelude.{List};
ghost use Rattle.nq_event.specs.EventsAt.{hints_at};
ghost use Rattle.nq_goals.specs.Generalizing.{generalizings_of};
ghost use Rattle.nq_goals.specs.Paths.{goals_above};
ghost use Rattle.nq_kernel.specs.declared.work.Work.{Work};
ghost use Rattle.nq_kernel.specs.Growing.{WorkStands, WorkGrows};
ghost use Rattle.nq_moves.specs.Ways as moves;
ghost use Rattle.nq_waterfall.specs.Ready.{CanMove, IsGoalIn, IsPathIn};
ghost use Rattle.nq_waterfall.specs.Trails.{AncestorStands, above_at, goals_at};
ghost use Rattle.nq_waterfall.specs.Turns.{IsLead, MoveAt};
ghost use Rattle.nq_legal.specs.Legal.{IsWay, NormalAt};

use crate::moving::copied;
use crate::way::Way;
use nq_bank::TermId;
use nq_generalize::generalize_move;
use nq_history::{Hints, History};
use nq_kernel::{MoveKind, Stop, Work};
use nq_moves::Moved;
use nq_waterfall::{Ancestor, Lead};
use std::alloc::{AllocError, Global};

/// The goals above a goal, the nearest first.
pub fn goals_above(alloc: Global, path: &[Ancestor]) -> Result<Vec<Vec<TermId>>, AllocError>
    ensures goals { IfOk result (λ v. (bank : Content) → goals_at bank v.items ≡ goals_above (above_at bank path.now)) }
    ensures inside { IfOk result (λ v. (history : List Entry) → (work : Work) → IsPathIn history work path.now → All (λ goal. IsGoalIn history work goal.items) v.items) }
{
    match path {
        [] => Ok(Vec::new(alloc)),
        [first, rest @ ..] => {
            let mut goals = goals_above(alloc, rest)?;
            let goal = Vec::from_slice(alloc, first.goal.as_slice())?;
            goals.push(goal)?;
            Ok(goals)
        }
    }
}

/// A move of this kind that was made from a goal below these.
pub fn lead_below(
    work: &Work,
    history: &History,
    hints: &Hints,
    path: &[Ancestor],
    goal: &[TermId],
    kind: MoveKind,
    moved: Moved,
) -> Result<Lead<Way>, Stop>
    requires stands { WorkStands history.now work.now }
    requires goal { IsGoalIn history.now work.now goal.now }
    requires moved { moves.IsMove history.now work.now goal.now moved }
    requires leads { MoveAt work.now.bank history.now hints.now path.now kind goal.now moved.children.items }
    ensures legal { IfOk result (IsLead IsWay history.now hints.now work.now path.now goal.now) }
    ensures memory { result ≡ Err Stop.OutOfSteps → ⊥ }
{
    let _ = (history.len(), hints.no_induct, path.len(), goal.len());
    match copied(work.bank.alloc(), moved.children.as_slice()) {
        Ok(nexts) => Ok(Lead {
            kind,
            nexts,
            way: Way::Moved(moved),
        }),
        Err(_) => Err(Stop::Memory),
    }
}

/// GEN below these goals, the nearest first, where the goal has a candidate.
fn generalize_below(
    work: &mut Work,
    history: &History,
    hints: &Hints,
    path: &[Ancestor],
    above: &[Vec<TermId>],
    goal: &[TermId],
) -> Result<Option<Lead<Way>>, Stop>
    requires ready { CanMove history.now hints.now work.old }
    requires path { All (AncestorStands work.old.bank) path.now }
    requires goals { goals_at work.old.bank above.now ≡ goals_above (above_at work.old.bank path.now) }
    requires above { All (λ goal. IsGoalIn history.now work.old goal.items) above.now }
    requires goal { IsGoalIn history.now work.old goal.now }
    requires normal { NormalAt work.old.bank history.now hints.now goal.now }
    ensures legal { IfOk result (λ found. MatchOption found (generalizings_of (events_at work.new.bank history.now) (hints_at work.new.bank hints.now) (terms_at work.new.bank goal.now) ≡ []) (IsLead IsWay history.now hints.now work.new path.now goal.now)) }
    ensures grows { WorkGrows history.now work.old work.new }
    ensures out { result ≡ Err Stop.OutOfSteps → work.new.counter.used ≡ work.new.counter.limit }
{
    match generalize_move(work, history, hints, above, goal)? {
        Some(moved) => {
            let lead = lead_below(work, history, hints, path, goal, MoveKind::Gen, moved)?;
            Ok(Some(lead))
        }
        None => Ok(None),
    }
}

/// GEN, where the goal has a candidate.
pub fn generalized(
    work: &mut Work,
    history: &History,
    hints: &Hints,
    path: &[Ancestor],
    goal: &[TermId],
) -> Result<Option<Lead<Way>>, Stop>
    requires ready { CanMove history.now hints.now work.old }
    requires path { All (AncestorStands work.old.bank) path.now }
    requires path_in { IsPathIn history.now work.old path.now }
    requires goal { IsGoalIn history.now work.old goal.now }
    requires normal { NormalAt work.old.bank history.now hints.now goal.now }
    ensures legal { IfOk result (λ found. MatchOption found (generalizings_of (events_at work.new.bank history.now) (hints_at work.new.bank hints.now) (terms_at work.new.bank goal.now) ≡ []) (IsLead IsWay history.now hints.now work.new path.now goal.now)) }
    ensures grows { WorkGrows history.now work.old work.new }
    ensures out { result ≡ Err Stop.OutOfSteps → work.new.counter.used ≡ work.new.counter.limit }
{
    match goals_above(work.bank.alloc(), path) {
        Ok(above) => generalize_below(work, history, hints, path, above.as_slice(), goal),
        Err(_) => Err(Stop::Memory),
    }
}
