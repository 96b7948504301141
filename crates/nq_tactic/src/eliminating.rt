//! Eliminations.
ghost use Rattle.std.specs.Prelude.{◌≡◌, IfOk, IfSome, Err};
ghost use Rattle.nq_elim.specs.Eliminations.{IsEliminationWay};
ghost use Rattle.nq_kernel.specs.Growing.{WorkStands, WorkGrows};
ghost use Rattle.nq_search.specs.Goals.{CanSearch, IsGoalIn};
ghost use Rattle.nq_search.specs.Searching.{IsLed};
ghost use Rattle.nq_tactic.specs.Ways.{IsWay, nexts_of};

use crate::way::Way;
use nq_bank::TermId;
use nq_elim::{Elimination, eliminate, eliminate_difference, equate_numbers};
use nq_history::{Hints, History};
use nq_kernel::{Stop, Work, ready_histories};
use nq_search::{Led, Plan};

/// A goal whose destructors are replaced.
fn eliminated(
    _work: &Work,
    _history: &History,
    _goal: &[TermId],
    elimination: Elimination,
    plan: Plan,
) -> Led<Way>
    requires stands { WorkStands _history.now _work.now }
    requires goal { IsGoalIn _history.now _work.now _goal.now }
    requires way { IsEliminationWay _history.now _work.now _goal.now elimination }
    ensures { IsLed nexts_of IsWay _history.now _work.now _goal.now result }
{
    Led {
        way: Way::Eliminated(elimination),
        plan,
    }
}

/// Leads a goal on by replacing a difference of numbers by a new variable, where it has one that is known not to be cut off at 0.
fn lead_differing(
    work: &mut Work,
    history: &History,
    hints: &Hints,
    goal: &[TermId],
    plan: Plan,
) -> Result<Option<Led<Way>>, Stop>
    requires can { CanSearch history.now hints.now work.old }
    requires goal { IsGoalIn history.now work.old goal.now }
    ensures led { IfOk result (λ found. IfSome found (IsLed nexts_of IsWay history.now work.new goal.now)) }
    ensures grows { WorkGrows history.now work.old work.new }
    ensures out { result ≡ Err Stop.OutOfSteps → work.new.counter.used ≡ work.new.counter.limit }
{
    match eliminate_difference(work, history, hints, goal)? {
        Some(elimination) => Ok(Some(eliminated(work, history, goal, elimination, plan))),
        None => Ok(None),
    }
}

/// Leads a goal on by replacing destructors by new variables, where it has some, or else a difference.
fn lead_parted(
    work: &mut Work,
    history: &History,
    hints: &Hints,
    goal: &[TermId],
    plan: Plan,
) -> Result<Option<Led<Way>>, Stop>
    requires can { CanSearch history.now hints.now work.old }
    requires goal { IsGoalIn history.now work.old goal.now }
    ensures led { IfOk result (λ found. IfSome found (IsLed nexts_of IsWay history.now work.new goal.now)) }
    ensures grows { WorkGrows history.now work.old work.new }
    ensures out { result ≡ Err Stop.OutOfSteps → work.new.counter.used ≡ work.new.counter.limit }
{
    ready_histories();
    match eliminate(work, history, hints, goal, 0)? {
        Some(elimination) => Ok(Some(eliminated(work, history, goal, elimination, plan))),
        None => lead_differing(work, history, hints, goal, plan),
    }
}

/// Leads a goal on by an elimination: of a number that is the same as another, or else of destructors.
pub fn lead_eliminated(
    work: &mut Work,
    history: &History,
    hints: &Hints,
    goal: &[TermId],
    plan: Plan,
) -> Result<Option<Led<Way>>, Stop>
    requires can { CanSearch history.now hints.now work.old }
    requires goal { IsGoalIn history.now work.old goal.now }
    ensures led { IfOk result (λ found. IfSome found (IsLed nexts_of IsWay history.now work.new goal.now)) }
    ensures grows { WorkGrows history.now work.old work.new }
    ensures out { result ≡ Err Stop.OutOfSteps → work.new.counter.used ≡ work.new.counter.limit }
{
    ready_histories();
    match equate_numbers(work, history, hints, goal)? {
        Some(elimination) => Ok(Some(eliminated(work, history, goal, elimination, plan))),
        None => lead_parted(work, history, hints, goal, plan),
    }
}
