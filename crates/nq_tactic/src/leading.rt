//! Each way that leads a goal on.
ghost use Rattle.std.specs.Prelude.{◌≡◌, IfOk, IfSome, Err};
ghost use Rattle.nq_bank.specs.Content.{terms_at};
ghost use Rattle.nq_history.specs.Events.{events_at};
ghost use Rattle.nq_kernel.specs.Growing.{WorkStands, WorkGrows};
ghost use Rattle.nq_lines.specs.Lines.{LineHasOnly};
ghost use Rattle.nq_lines.specs.OwnTerms.{HasOwnTerms};
ghost use Rattle.nq_moves.specs.Ways.{IsMove};
ghost use Rattle.nq_search.specs.Goals.{CanSearch, IsGoalIn};
ghost use Rattle.nq_search.specs.Searching.{IsLed};
ghost use Rattle.nq_tactic.specs.Ways.{IsWay, nexts_of};

use crate::arithmetic::number_line;
use crate::generalizing::generalized;
use crate::refuting::is_one_false;
use crate::simplifying::{parted, simplified};
use crate::tested::tested_line;
use crate::trivial::truth_line;
use crate::way::Way;
use nq_bank::TermId;
use nq_history::{Hints, History};
use nq_kernel::{MoveKind, Stop, Work};
use nq_moves::{Moved, fertilize_move, irrelevant_move, substitute_move};
use nq_ready::own_terms;
use nq_rewrite::Learnt;
use nq_rule_table::Rules;
use nq_search::{Led, Plan};

/// Leads a goal on by its simplification, with what was learnt in the same proof, and with this plan.
pub fn lead_simplified(
    work: &mut Work,
    history: &History,
    hints: &Hints,
    rules: &Rules,
    learnt: &mut Learnt,
    goal: &[TermId],
    plan: Plan,
) -> Result<Led<Way>, Stop>
    requires can { CanSearch history.now hints.now work.old }
    requires goal { IsGoalIn history.now work.old goal.now }
    ensures led { IfOk result (IsLed nexts_of IsWay history.now work.new goal.now) }
    ensures grows { WorkGrows history.now work.old work.new }
    ensures out { result ≡ Err Stop.OutOfSteps → work.new.counter.used ≡ work.new.counter.limit }
{
    let way = simplified(work, history, hints, rules, learnt, plan.until, goal)?;
    Ok(Led {
        way: Way::Simplified(way),
        plan,
    })
}

/// Leads a goal on by taking it apart, and with this plan.
pub fn lead_apart(
    work: &mut Work,
    history: &History,
    hints: &Hints,
    rules: &Rules,
    goal: &[TermId],
    plan: Plan,
) -> Result<Led<Way>, Stop>
    requires can { CanSearch history.now hints.now work.old }
    requires goal { IsGoalIn history.now work.old goal.now }
    ensures led { IfOk result (IsLed nexts_of IsWay history.now work.new goal.now) }
    ensures grows { WorkGrows history.now work.old work.new }
    ensures out { result ≡ Err Stop.OutOfSteps → work.new.counter.used ≡ work.new.counter.limit }
{
    let way = parted(work, history, hints, rules, plan.until, goal)?;
    Ok(Led {
        way: Way::Simplified(way),
        plan,
    })
}

/// A goal of which a line has only literals.
fn refuted_by(_work: &Work, _history: &History, _goal: &[TermId], line: u64, plan: Plan) -> Led<Way>
    requires stands { WorkStands _history.now _work.now }
    requires goal { IsGoalIn _history.now _work.now _goal.now }
    requires line { LineHasOnly _work.now line (terms_at _work.now.bank _goal.now) }
    ensures { IsLed nexts_of IsWay _history.now _work.now _goal.now result }
{
    Led {
        way: Way::Refuted(line),
        plan,
    }
}

/// Leads a goal on to none, where it holds T, or linear arithmetic refutes its literals.
pub fn lead_refuted(
    work: &mut Work,
    history: &History,
    hints: &Hints,
    rules: &Rules,
    goal: &[TermId],
    plan: Plan,
) -> Result<Option<Led<Way>>, Stop>
    requires can { CanSearch history.now hints.now work.old }
    requires goal { IsGoalIn history.now work.old goal.now }
    ensures led { IfOk result (λ found. IfSome found (IsLed nexts_of IsWay history.now work.new goal.now)) }
    ensures grows { WorkGrows history.now work.old work.new }
    ensures out { result ≡ Err Stop.OutOfSteps → work.new.counter.used ≡ work.new.counter.limit }
{
    own_terms();
    match truth_line(work, history, goal)? {
        Some(line) => Ok(Some(refuted_by(work, history, goal, line, plan))),
        None => lead_by_arithmetic(work, history, hints, rules, goal, plan),
    }
}

/// Leads a goal on to none, where linear arithmetic refutes its literals.
fn lead_by_arithmetic(
    work: &mut Work,
    history: &History,
    hints: &Hints,
    rules: &Rules,
    goal: &[TermId],
    plan: Plan,
) -> Result<Option<Led<Way>>, Stop>
    requires stands { WorkStands history.now work.old }
    requires ready { HasOwnTerms (events_at work.old.bank history.now) }
    requires goal { IsGoalIn history.now work.old goal.now }
    ensures led { IfOk result (λ found. IfSome found (IsLed nexts_of IsWay history.now work.new goal.now)) }
    ensures grows { WorkGrows history.now work.old work.new }
    ensures out { result ≡ Err Stop.OutOfSteps → work.new.counter.used ≡ work.new.counter.limit }
{
    match number_line(work, history, hints, goal)? {
        Some(line) => Ok(Some(refuted_by(work, history, goal, line, plan))),
        None => lead_by_rules(work, history, hints, rules, goal, plan),
    }
}

/// Leads a simplified goal on to none, where rules say that one of its literals is true.
fn lead_by_rules(
    work: &mut Work,
    history: &History,
    hints: &Hints,
    rules: &Rules,
    goal: &[TermId],
    plan: Plan,
) -> Result<Option<Led<Way>>, Stop>
    requires stands { WorkStands history.now work.old }
    requires ready { HasOwnTerms (events_at work.old.bank history.now) }
    requires goal { IsGoalIn history.now work.old goal.now }
    ensures led { IfOk result (λ found. IfSome found (IsLed nexts_of IsWay history.now work.new goal.now)) }
    ensures grows { WorkGrows history.now work.old work.new }
    ensures out { result ≡ Err Stop.OutOfSteps → work.new.counter.used ≡ work.new.counter.limit }
{
    if !plan.simplified {
        return Ok(None);
    }
    match tested_line(work, history, hints, rules, goal)? {
        Some(line) => Ok(Some(refuted_by(work, history, goal, line, plan))),
        None => Ok(None),
    }
}

/// The move of this kind, where the goal has one.
fn move_of(
    work: &mut Work,
    history: &History,
    hints: &Hints,
    goal: &[TermId],
    kind: MoveKind,
) -> Result<Option<Moved>, Stop>
    requires stands { WorkStands history.now work.old }
    requires goal { IsGoalIn history.now work.old goal.now }
    ensures moved { IfOk result (λ found. IfSome found (IsMove history.now work.new goal.now)) }
    ensures grows { WorkGrows history.now work.old work.new }
    ensures out { result ≡ Err Stop.OutOfSteps → work.new.counter.used ≡ work.new.counter.limit }
{
    match kind {
        MoveKind::Subst => substitute_move(work, history, hints, goal),
        MoveKind::Fert => fertilize_move(work, history, hints, goal),
        MoveKind::Gen => generalized(work, history, hints, goal),
        MoveKind::Irr => irrelevant_move(work, history, hints, goal),
        MoveKind::Elim => Ok(None),
        MoveKind::Simp => Ok(None),
        MoveKind::Ind => Ok(None),
    }
}

/// A goal that a move leads on.
fn moved_on(
    _work: &Work,
    _history: &History,
    _goal: &[TermId],
    moved: Moved,
    plan: Plan,
) -> Led<Way>
    requires stands { WorkStands _history.now _work.now }
    requires goal { IsGoalIn _history.now _work.now _goal.now }
    requires moved { IsMove _history.now _work.now _goal.now moved }
    ensures { IsLed nexts_of IsWay _history.now _work.now _goal.now result }
{
    Led {
        way: Way::Moved(moved),
        plan,
    }
}

/// Leads a goal on by a move, unless one of the goals to which it leads has a counterexample.
fn lead_unless_false(
    work: &Work,
    history: &History,
    goal: &[TermId],
    moved: Moved,
    plan: Plan,
) -> Result<Option<Led<Way>>, Stop>
    requires stands { WorkStands history.now work.now }
    requires goal { IsGoalIn history.now work.now goal.now }
    requires moved { IsMove history.now work.now goal.now moved }
    ensures led { IfOk result (λ found. IfSome found (IsLed nexts_of IsWay history.now work.now goal.now)) }
    ensures memory { result ≡ Err Stop.OutOfSteps → ⊥ }
{
    if is_one_false(work, history, moved.children.as_slice())? {
        return Ok(None);
    }
    Ok(Some(moved_on(work, history, goal, moved, plan)))
}

/// Leads a goal on by a move, where it has one of this kind.
pub fn lead_moved(
    work: &mut Work,
    history: &History,
    hints: &Hints,
    goal: &[TermId],
    kind: MoveKind,
    plan: Plan,
) -> Result<Option<Led<Way>>, Stop>
    requires can { CanSearch history.now hints.now work.old }
    requires goal { IsGoalIn history.now work.old goal.now }
    ensures led { IfOk result (λ found. IfSome found (IsLed nexts_of IsWay history.now work.new goal.now)) }
    ensures grows { WorkGrows history.now work.old work.new }
    ensures out { result ≡ Err Stop.OutOfSteps → work.new.counter.used ≡ work.new.counter.limit }
{
    match move_of(work, history, hints, goal, kind)? {
        Some(moved) => lead_unless_false(work, history, goal, moved, plan),
        None => Ok(None),
    }
}
