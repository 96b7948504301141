//! Goals that ELIM leads on.
ghost use Rattle.std.specs.Prelude.{◌≡◌, All, IfOk, MatchOption, Err};
ghost use Rattle.nq_bank.specs.Content.{terms_at};
ghost use Rattle.nq_history.specs.Events.{events_at};
ghost use Rattle.nq_goals.specs.Paths.{goals_above};
ghost use Rattle.nq_kernel.specs.Growing.{WorkGrows};
ghost use Rattle.nq_eliminate.specs.Finding.{HasNoElimination};
ghost use Rattle.nq_event.specs.EventsAt.{hints_at};
ghost use Rattle.nq_waterfall.specs.Ready.{CanMove, IsGoalIn, IsPathIn};
ghost use Rattle.nq_waterfall.specs.Trails.{AncestorStands, above_at, goals_at};
ghost use Rattle.nq_waterfall.specs.Turns.{IsLead};
ghost use Rattle.nq_legal.specs.Legal.{IsWay, NormalAt};

use crate::generalizing::{goals_above, lead_below};
use crate::way::Way;
use nq_bank::TermId;
use nq_eliminate::eliminate_move;
use nq_history::{Hints, History};
use nq_kernel::{MoveKind, Stop, Work};
use nq_waterfall::{Ancestor, Lead};

/// ELIM below these goals, the nearest first, where a rule has a candidate in the goal.
fn eliminate_below(
    work: &mut Work,
    history: &History,
    hints: &Hints,
    path: &[Ancestor],
    above: &[Vec<TermId>],
    goal: &[TermId],
) -> Result<Option<Lead<Way>>, Stop>
    requires ready { CanMove history.now hints.now work.old }
    requires path { All (AncestorStands work.old.bank) path.now }
    requires goals { goals_at work.old.bank above.now ≡ goals_above (above_at work.old.bank path.now) }
    requires above { All (λ goal. IsGoalIn history.now work.old goal.items) above.now }
    requires goal { IsGoalIn history.now work.old goal.now }
    requires normal { NormalAt work.old.bank history.now hints.now goal.now }
    ensures legal { IfOk result (λ found. MatchOption found (HasNoElimination (events_at work.new.bank history.now) (hints_at work.new.bank hints.now) (terms_at work.new.bank goal.now)) (IsLead IsWay history.now hints.now work.new path.now goal.now)) }
    ensures grows { WorkGrows history.now work.old work.new }
    ensures out { result ≡ Err Stop.OutOfSteps → work.new.counter.used ≡ work.new.counter.limit }
{
    match eliminate_move(work, history, hints, above, goal)? {
        Some(moved) => {
            let lead = lead_below(work, history, hints, path, goal, MoveKind::Elim, moved)?;
            Ok(Some(lead))
        }
        None => Ok(None),
    }
}

/// ELIM, where a rule has a candidate in the goal.
pub fn eliminated(
    work: &mut Work,
    history: &History,
    hints: &Hints,
    path: &[Ancestor],
    goal: &[TermId],
) -> Result<Option<Lead<Way>>, Stop>
    requires ready { CanMove history.now hints.now work.old }
    requires path { All (AncestorStands work.old.bank) path.now }
    requires path_in { IsPathIn history.now work.old path.now }
    requires goal { IsGoalIn history.now work.old goal.now }
    requires normal { NormalAt work.old.bank history.now hints.now goal.now }
    ensures legal { IfOk result (λ found. MatchOption found (HasNoElimination (events_at work.new.bank history.now) (hints_at work.new.bank hints.now) (terms_at work.new.bank goal.now)) (IsLead IsWay history.now hints.now work.new path.now goal.now)) }
    ensures grows { WorkGrows history.now work.old work.new }
    ensures out { result ≡ Err Stop.OutOfSteps → work.new.counter.used ≡ work.new.counter.limit }
{
    match goals_above(work.bank.alloc(), path) {
        Ok(above) => eliminate_below(work, history, hints, path, above.as_slice(), goal),
        Err(_) => Err(Stop::Memory),
    }
}
