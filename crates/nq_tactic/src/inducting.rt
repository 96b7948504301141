//! Inductions.
ghost use Rattle.std.specs.Prelude.{◌≡◌, ◌<◌, IfOk, IfSome, Err, length};
ghost use Rattle.nq_kernel.specs.Growing.{WorkStands, WorkGrows};
ghost use Rattle.nq_lines.specs.Lines.{IsTermIn};
ghost use Rattle.nq_induct.specs.Schemes.{IsSchemeIn};
ghost use Rattle.nq_search.specs.Goals.{CanSearch, IsGoalIn};
ghost use Rattle.nq_search.specs.Searching.{IsLed};
ghost use Rattle.nq_tactic.specs.Ways.{IsWay, nexts_of};

use crate::refuting::is_false;
use crate::way::{Induction, Way};
use nq_bank::TermId;
use nq_history::{Hints, History};
use nq_induct::{Scheme, goals_of};
use nq_kernel::{Stop, Work};
use nq_schemes::scheme_of;
use nq_search::{Led, Plan};

/// Leads a goal on by an induction by a scheme.
fn lead_by(
    work: &mut Work,
    history: &History,
    goal: &[TermId],
    scheme: Scheme,
    plan: Plan,
) -> Result<Led<Way>, Stop>
    requires stands { WorkStands history.now work.old }
    requires goal { IsGoalIn history.now work.old goal.now }
    requires some { 0 < length goal.now }
    requires scheme { IsSchemeIn history.now work.old scheme }
    ensures led { IfOk result (IsLed nexts_of IsWay history.now work.new goal.now) }
    ensures grows { WorkGrows history.now work.old work.new }
    ensures out { result ≡ Err Stop.OutOfSteps → work.new.counter.used ≡ work.new.counter.limit }
{
    let nexts = goals_of(work, history, &scheme, goal)?;
    Ok(Led {
        way: Way::Inducted(Induction { scheme, nexts }),
        plan,
    })
}

/// Leads a goal on by the induction of this number among those that its calls suggest, or that a term suggests.
fn lead_suggested(
    work: &mut Work,
    history: &History,
    hints: &Hints,
    goal: &[TermId],
    hint: Option<TermId>,
    turn: u32,
    plan: Plan,
) -> Result<Option<Led<Way>>, Stop>
    requires can { CanSearch history.now hints.now work.old }
    requires goal { IsGoalIn history.now work.old goal.now }
    requires hint { IfSome hint (IsTermIn history.now work.old) }
    ensures led { IfOk result (λ found. IfSome found (IsLed nexts_of IsWay history.now work.new goal.now)) }
    ensures grows { WorkGrows history.now work.old work.new }
    ensures out { result ≡ Err Stop.OutOfSteps → work.new.counter.used ≡ work.new.counter.limit }
{
    if goal.is_empty() {
        return Ok(None);
    }
    match scheme_of(work, history, goal, hint, turn, !hints.no_arith)? {
        Some(scheme) => {
            let led = lead_by(work, history, goal, scheme, plan)?;
            Ok(Some(led))
        }
        None => Ok(None),
    }
}

/// Leads a goal on by the induction of this number among those that its calls suggest.
pub fn lead_inducted(
    work: &mut Work,
    history: &History,
    hints: &Hints,
    goal: &[TermId],
    turn: u32,
    plan: Plan,
) -> Result<Option<Led<Way>>, Stop>
    requires can { CanSearch history.now hints.now work.old }
    requires goal { IsGoalIn history.now work.old goal.now }
    ensures led { IfOk result (λ found. IfSome found (IsLed nexts_of IsWay history.now work.new goal.now)) }
    ensures grows { WorkGrows history.now work.old work.new }
    ensures out { result ≡ Err Stop.OutOfSteps → work.new.counter.used ≡ work.new.counter.limit }
{
    if hints.no_induct || is_false(work, history, goal)? {
        return Ok(None);
    }
    lead_suggested(work, history, hints, goal, None, turn, plan)
}

/// Leads a goal on by the induction that the hints name.
pub fn lead_hinted(
    work: &mut Work,
    history: &History,
    hints: &Hints,
    goal: &[TermId],
    plan: Plan,
) -> Result<Option<Led<Way>>, Stop>
    requires can { CanSearch history.now hints.now work.old }
    requires goal { IsGoalIn history.now work.old goal.now }
    ensures led { IfOk result (λ found. IfSome found (IsLed nexts_of IsWay history.now work.new goal.now)) }
    ensures grows { WorkGrows history.now work.old work.new }
    ensures out { result ≡ Err Stop.OutOfSteps → work.new.counter.used ≡ work.new.counter.limit }
{
    lead_suggested(work, history, hints, goal, hints.induct, 0, plan)
}
