//! Differences of numbers of a goal, one of which is a variable: where linear arithmetic shows that it is not the lesser one, it gives
//! way to the sum of the lesser one and a new variable. As with `(DIFFERENCE Y X)` beside `(LESSP Y X)`: Y is `(PLUS X V)`, and the
//! difference is V. That Y is no number is a case, unless the goal says that it is one.
ghost use Rattle.std.specs.Prelude.{◌≡◌, ◌++◌, All, IfOk, IfSome, Err};
ghost use Rattle.nq_bank.specs.Content.{terms_at};
ghost use Rattle.nq_elim.specs.Eliminations.{IsEliminationWay};
ghost use Rattle.nq_elim.specs.Reasons.{FactHolds};
ghost use Rattle.nq_history.specs.Events.{events_at};
ghost use Rattle.nq_kernel.specs.Growing.{WorkStands, WorkGrows};
ghost use Rattle.nq_kernel.specs.Ready.{IsReady};
ghost use Rattle.nq_lines.specs.Lines.{IsTermIn};
ghost use Rattle.nq_lines.specs.OwnTerms.{HasOwnTerms};

use crate::calls::flat_calls;
use crate::eliminating::by_reason;
use crate::equating::fact_beside;
use crate::lists::{has_id, joined};
use crate::making::Elimination;
use crate::reasons::reason_where;
use nq_arithmetic::{Two, call_two, name_of_two};
use nq_bank::{TermId, ground, ground_name};
use nq_history::{Hints, History};
use nq_instances::two_in;
use nq_kernel::{Stop, Work};
use nq_lines::{Fact, Sides, deny, equate};
use nq_ready::own_terms;
use nq_rewrite::one_call;

/// The equation of the second number and the difference, added, with the first number.
fn sum_equation(
    work: &mut Work,
    history: &History,
    call: TermId,
    sides: Sides,
) -> Result<TermId, Stop>
    requires stands { WorkStands history.now work.old }
    requires call { IsTermIn history.now work.old call }
    requires left { IsTermIn history.now work.old sides.left }
    requires right { IsTermIn history.now work.old sides.right }
    ensures term { IfOk result (λ t. IsTermIn history.now work.new t) }
    ensures grows { WorkGrows history.now work.old work.new }
    ensures out { result ≡ Err Stop.OutOfSteps → work.new.counter.used ≡ work.new.counter.limit }
{
    let sum = call_two(work, history, name_of_two(Two::Plus), sides.right, call)?;
    equate(work, history, sum, sides.left)
}

/// The denial that a term is a number.
fn number_denied(work: &mut Work, history: &History, t: TermId) -> Result<Option<TermId>, Stop>
    requires stands { WorkStands history.now work.old }
    requires term { IsTermIn history.now work.old t }
    ensures term { IfOk result (λ found. IfSome found (IsTermIn history.now work.new)) }
    ensures grows { WorkGrows history.now work.old work.new }
    ensures out { result ≡ Err Stop.OutOfSteps → work.new.counter.used ≡ work.new.counter.limit }
{
    let name = ground_name(&work.bank, ground::NUMBERP);
    match one_call(work, history, name, t)? {
        Some(test) => {
            let denied = deny(work, history, test)?;
            Ok(Some(denied))
        }
        None => Ok(None),
    }
}

/// A literal, unless it stands in the goal.
fn unless_there(
    work: &Work,
    history: &History,
    goal: &[TermId],
    t: TermId,
) -> Result<Vec<TermId>, Stop>
    requires term { IsTermIn history.now work.now t }
    requires goal { All (IsTermIn history.now work.now) goal.now }
    ensures literals { IfOk result (λ v. All (IsTermIn history.now work.now) v.items) }
    ensures memory { result ≡ Err Stop.OutOfSteps → ⊥ }
{
    let _ = history.len();
    if has_id(&work.bank, goal, t) {
        Ok(Vec::new(work.bank.alloc()))
    } else {
        let more = joined(work.bank.alloc(), &[t], &[])?;
        Ok(more)
    }
}

/// The elimination by a fact that a line shows beside these literals and the goal, which are its cases.
fn by_fact(
    work: &mut Work,
    history: &History,
    hints: &Hints,
    goal: &[TermId],
    more: &[TermId],
    fact: Fact,
) -> Result<Option<Elimination>, Stop>
    requires stands { WorkStands history.now work.old }
    requires ready { HasOwnTerms (events_at work.old.bank history.now) }
    requires goal { All (IsTermIn history.now work.old) goal.now }
    requires more { All (IsTermIn history.now work.old) more.now }
    requires fact { FactHolds history.now work.old (terms_at work.old.bank (more.now ++ goal.now)) fact }
    ensures way { IfOk result (λ found. IfSome found (IsEliminationWay history.now work.new goal.now)) }
    ensures grows { WorkGrows history.now work.old work.new }
    ensures out { result ≡ Err Stop.OutOfSteps → work.new.counter.used ≡ work.new.counter.limit }
{
    let reason = reason_where(work, history, goal, more, fact)?;
    by_reason(work, history, hints, goal, reason)
}

/// The elimination by an equation, where linear arithmetic shows it beside these literals and the goal.
fn by_equation(
    work: &mut Work,
    history: &History,
    hints: &Hints,
    goal: &[TermId],
    more: &[TermId],
    equation: TermId,
) -> Result<Option<Elimination>, Stop>
    requires stands { WorkStands history.now work.old }
    requires ready { HasOwnTerms (events_at work.old.bank history.now) }
    requires goal { All (IsTermIn history.now work.old) goal.now }
    requires more { All (IsTermIn history.now work.old) more.now }
    requires equation { IsTermIn history.now work.old equation }
    ensures way { IfOk result (λ found. IfSome found (IsEliminationWay history.now work.new goal.now)) }
    ensures grows { WorkGrows history.now work.old work.new }
    ensures out { result ≡ Err Stop.OutOfSteps → work.new.counter.used ≡ work.new.counter.limit }
{
    let rest = joined(work.bank.alloc(), more, goal)?;
    match fact_beside(work, history, hints, rest.as_slice(), equation)? {
        Some(fact) => by_fact(work, history, hints, goal, more, fact),
        None => Ok(None),
    }
}

/// The elimination by a difference of these numbers, where it is known how to deny that the first is one.
fn by_numbers(
    work: &mut Work,
    history: &History,
    hints: &Hints,
    goal: &[TermId],
    call: TermId,
    sides: Sides,
    denied: TermId,
) -> Result<Option<Elimination>, Stop>
    requires stands { WorkStands history.now work.old }
    requires ready { HasOwnTerms (events_at work.old.bank history.now) }
    requires goal { All (IsTermIn history.now work.old) goal.now }
    requires call { IsTermIn history.now work.old call }
    requires left { IsTermIn history.now work.old sides.left }
    requires right { IsTermIn history.now work.old sides.right }
    requires denied { IsTermIn history.now work.old denied }
    ensures way { IfOk result (λ found. IfSome found (IsEliminationWay history.now work.new goal.now)) }
    ensures grows { WorkGrows history.now work.old work.new }
    ensures out { result ≡ Err Stop.OutOfSteps → work.new.counter.used ≡ work.new.counter.limit }
{
    let more = unless_there(work, history, goal, denied)?;
    let equation = sum_equation(work, history, call, sides)?;
    by_equation(work, history, hints, goal, more.as_slice(), equation)
}

/// The elimination by a difference of these two.
fn by_sides(
    work: &mut Work,
    history: &History,
    hints: &Hints,
    goal: &[TermId],
    call: TermId,
    sides: Sides,
) -> Result<Option<Elimination>, Stop>
    requires stands { WorkStands history.now work.old }
    requires ready { HasOwnTerms (events_at work.old.bank history.now) }
    requires goal { All (IsTermIn history.now work.old) goal.now }
    requires call { IsTermIn history.now work.old call }
    requires left { IsTermIn history.now work.old sides.left }
    requires right { IsTermIn history.now work.old sides.right }
    ensures way { IfOk result (λ found. IfSome found (IsEliminationWay history.now work.new goal.now)) }
    ensures grows { WorkGrows history.now work.old work.new }
    ensures out { result ≡ Err Stop.OutOfSteps → work.new.counter.used ≡ work.new.counter.limit }
{
    match number_denied(work, history, sides.left)? {
        Some(denied) => by_numbers(work, history, hints, goal, call, sides, denied),
        None => Ok(None),
    }
}

/// Are these two different terms?
fn are_apart(sides: Sides) -> bool {
    sides.left.0 != sides.right.0
}

/// The elimination by a call of variables alone, if it is a difference.
fn by_call(
    work: &mut Work,
    history: &History,
    hints: &Hints,
    goal: &[TermId],
    call: TermId,
) -> Result<Option<Elimination>, Stop>
    requires stands { WorkStands history.now work.old }
    requires ready { HasOwnTerms (events_at work.old.bank history.now) }
    requires goal { All (IsTermIn history.now work.old) goal.now }
    requires call { IsTermIn history.now work.old call }
    ensures way { IfOk result (λ found. IfSome found (IsEliminationWay history.now work.new goal.now)) }
    ensures grows { WorkGrows history.now work.old work.new }
    ensures out { result ≡ Err Stop.OutOfSteps → work.new.counter.used ≡ work.new.counter.limit }
{
    match two_in(work, history, ground::DIFFERENCE, call) {
        Some(sides) => {
            if are_apart(sides) {
                by_sides(work, history, hints, goal, call, sides)
            } else {
                Ok(None)
            }
        }
        None => Ok(None),
    }
}

/// The elimination by the first of these calls that gives one.
fn by_calls(
    work: &mut Work,
    history: &History,
    hints: &Hints,
    goal: &[TermId],
    calls: &[TermId],
) -> Result<Option<Elimination>, Stop>
    requires stands { WorkStands history.now work.old }
    requires ready { HasOwnTerms (events_at work.old.bank history.now) }
    requires goal { All (IsTermIn history.now work.old) goal.now }
    requires calls { All (IsTermIn history.now work.old) calls.now }
    ensures way { IfOk result (λ found. IfSome found (IsEliminationWay history.now work.new goal.now)) }
    ensures grows { WorkGrows history.now work.old work.new }
    ensures out { result ≡ Err Stop.OutOfSteps → work.new.counter.used ≡ work.new.counter.limit }
{
    for call in calls {
        if let Some(found) = by_call(work, history, hints, goal, *call)? {
            return Ok(Some(found));
        }
    }
    Ok(None)
}

/// A number that is a variable gives way to a sum with a new variable, where the goal speaks of its difference to another variable and
/// linear arithmetic shows that it is not below that.
pub fn eliminate_difference(
    work: &mut Work,
    history: &History,
    hints: &Hints,
    goal: &[TermId],
) -> Result<Option<Elimination>, Stop>
    requires stands { WorkStands history.now work.old }
    requires ready { IsReady (events_at work.old.bank history.now) }
    requires goal { All (IsTermIn history.now work.old) goal.now }
    ensures way { IfOk result (λ found. IfSome found (IsEliminationWay history.now work.new goal.now)) }
    ensures grows { WorkGrows history.now work.old work.new }
    ensures out { result ≡ Err Stop.OutOfSteps → work.new.counter.used ≡ work.new.counter.limit }
{
    own_terms();
    let calls = flat_calls(work, history, goal)?;
    by_calls(work, history, hints, goal, calls.as_slice())
}
