//! Goals that say of a truth value that it is T where it is true, as `(NOT (MEMBER E X))`, `(EQUAL (MEMBER E X) T)`.
ghost use Rattle.std.specs.Prelude.{◌≡◌, ◌<◌, IfOk, IfSome, Err, length};
ghost use Rattle.nq_bank.specs.Content.{Stands, terms_at};
ghost use Rattle.nq_history.specs.Events.{events_at};
ghost use Rattle.nq_kernel.specs.Growing.{LineStands, WorkGrows, WorkStands};
ghost use Rattle.nq_lines.specs.Facts.{IsEquation};
ghost use Rattle.nq_lines.specs.Lines.{IsTermIn, LineHasOnly};
ghost use Rattle.nq_lines.specs.OwnTerms.{HasOwnTerms};
ghost use Rattle.nq_search.specs.Goals.{IsGoalIn};

use crate::circular::kept;
use crate::reading::is_call_of;
use nq_bank::{Bank, TermId, ground};
use nq_history::History;
use nq_kernel::{Stop, Work};
use nq_lines::{Sides, meet, sides_of, symmetric, truth};
use nq_rewrite::known_at;

/// Is a literal the denial of a term?
fn denies(bank: &Bank, literal: TermId, t: TermId) -> bool
    requires { Stands bank.now literal }
{
    match bank.args(literal) {
        [a] => a.0 == t.0 && is_call_of(bank, ground::NOT, literal),
        _ => false,
    }
}

/// Is a term denied by a literal of a goal?
fn is_denied(work: &Work, history: &History, goal: &[TermId], t: TermId) -> bool
    requires { IsGoalIn history.now work.now goal.now }
{
    let _ = history.len();
    for literal in goal {
        if denies(&work.bank, *literal, t) {
            return true;
        }
    }
    false
}

/// The line of a goal that denies a term, and says of it that it is T.
fn line_of_value(
    work: &mut Work,
    history: &History,
    goal: &[TermId],
    t: TermId,
) -> Result<Option<u64>, Stop>
    requires stands { WorkStands history.now work.old }
    requires ready { HasOwnTerms (events_at work.old.bank history.now) }
    requires term { IsTermIn history.now work.old t }
    ensures line { IfOk result (λ found. IfSome found (λ n. LineHasOnly work.new n (terms_at work.new.bank goal.now))) }
    ensures grows { WorkGrows history.now work.old work.new }
    ensures out { result ≡ Err Stop.OutOfSteps → work.new.counter.used ≡ work.new.counter.limit }
{
    match known_at(work, history, t)? {
        Some(line) => Ok(kept(work, history, goal, line)),
        None => Ok(None),
    }
}

/// The same, where T is the left side of the equation.
fn line_of_turned(
    work: &mut Work,
    history: &History,
    goal: &[TermId],
    t: TermId,
    yes: TermId,
) -> Result<Option<u64>, Stop>
    requires stands { WorkStands history.now work.old }
    requires ready { HasOwnTerms (events_at work.old.bank history.now) }
    requires term { IsTermIn history.now work.old t }
    requires yes { IsTermIn history.now work.old yes }
    ensures line { IfOk result (λ found. IfSome found (λ n. LineHasOnly work.new n (terms_at work.new.bank goal.now))) }
    ensures grows { WorkGrows history.now work.old work.new }
    ensures out { result ≡ Err Stop.OutOfSteps → work.new.counter.used ≡ work.new.counter.limit }
{
    match known_at(work, history, t)? {
        Some(line) => {
            let turned = symmetric(work, history, t, yes, line)?;
            Ok(kept(work, history, goal, turned))
        }
        None => Ok(None),
    }
}

/// The line of a goal that two terms are equal, by lines that each is T.
fn line_by_both(
    work: &mut Work,
    history: &History,
    goal: &[TermId],
    left: TermId,
    right: TermId,
    first: u64,
    second: u64,
) -> Result<Option<u64>, Stop>
    requires stands { WorkStands history.now work.old }
    requires left { IsTermIn history.now work.old left }
    requires right { IsTermIn history.now work.old right }
    requires first { LineStands work.old first }
    requires second { LineStands work.old second }
    ensures line { IfOk result (λ found. IfSome found (λ n. LineHasOnly work.new n (terms_at work.new.bank goal.now))) }
    ensures grows { WorkGrows history.now work.old work.new }
    ensures out { result ≡ Err Stop.OutOfSteps → work.new.counter.used ≡ work.new.counter.limit }
{
    let yes = truth(work, history)?;
    let line = meet(work, history, left, yes, right, first, second)?;
    Ok(kept(work, history, goal, line))
}

/// The same, by a line that the first is T.
fn line_by_first(
    work: &mut Work,
    history: &History,
    goal: &[TermId],
    left: TermId,
    right: TermId,
    first: u64,
) -> Result<Option<u64>, Stop>
    requires stands { WorkStands history.now work.old }
    requires ready { HasOwnTerms (events_at work.old.bank history.now) }
    requires left { IsTermIn history.now work.old left }
    requires right { IsTermIn history.now work.old right }
    requires first { LineStands work.old first }
    ensures line { IfOk result (λ found. IfSome found (λ n. LineHasOnly work.new n (terms_at work.new.bank goal.now))) }
    ensures grows { WorkGrows history.now work.old work.new }
    ensures out { result ≡ Err Stop.OutOfSteps → work.new.counter.used ≡ work.new.counter.limit }
{
    match known_at(work, history, right)? {
        Some(second) => line_by_both(work, history, goal, left, right, first, second),
        None => Ok(None),
    }
}

/// The line of a goal that denies two terms, and says that they are equal.
fn line_of_both(
    work: &mut Work,
    history: &History,
    goal: &[TermId],
    left: TermId,
    right: TermId,
) -> Result<Option<u64>, Stop>
    requires stands { WorkStands history.now work.old }
    requires ready { HasOwnTerms (events_at work.old.bank history.now) }
    requires left { IsTermIn history.now work.old left }
    requires right { IsTermIn history.now work.old right }
    ensures line { IfOk result (λ found. IfSome found (λ n. LineHasOnly work.new n (terms_at work.new.bank goal.now))) }
    ensures grows { WorkGrows history.now work.old work.new }
    ensures out { result ≡ Err Stop.OutOfSteps → work.new.counter.used ≡ work.new.counter.limit }
{
    match known_at(work, history, left)? {
        Some(first) => line_by_first(work, history, goal, left, right, first),
        None => Ok(None),
    }
}

/// Is one of these T, and the other denied by a goal?
fn is_truth_denied(work: &Work, history: &History, goal: &[TermId], yes: TermId, t: TermId) -> bool
    requires goal { IsGoalIn history.now work.now goal.now }
    requires yes { Stands work.now.bank yes }
{
    is_call_of(&work.bank, ground::TRUE, yes) && is_denied(work, history, goal, t)
}

/// Does a goal deny both sides of an equation?
fn are_denied(work: &Work, history: &History, goal: &[TermId], sides: Sides) -> bool
    requires { IsGoalIn history.now work.now goal.now }
{
    is_denied(work, history, goal, sides.left) && is_denied(work, history, goal, sides.right)
}

/// The line of a goal that has the equation of these sides.
fn line_of_sides(
    work: &mut Work,
    history: &History,
    goal: &[TermId],
    e: TermId,
    sides: Sides,
) -> Result<Option<u64>, Stop>
    requires stands { WorkStands history.now work.old }
    requires ready { HasOwnTerms (events_at work.old.bank history.now) }
    requires goal { IsGoalIn history.now work.old goal.now }
    requires sides { IsEquation history.now work.old e sides }
    ensures line { IfOk result (λ found. IfSome found (λ n. LineHasOnly work.new n (terms_at work.new.bank goal.now))) }
    ensures grows { WorkGrows history.now work.old work.new }
    ensures out { result ≡ Err Stop.OutOfSteps → work.new.counter.used ≡ work.new.counter.limit }
{
    let _ = e;
    if is_truth_denied(work, history, goal, sides.right, sides.left) {
        return line_of_value(work, history, goal, sides.left);
    }
    if is_truth_denied(work, history, goal, sides.left, sides.right) {
        return line_of_turned(work, history, goal, sides.right, sides.left);
    }
    if are_denied(work, history, goal, sides) {
        line_of_both(work, history, goal, sides.left, sides.right)
    } else {
        Ok(None)
    }
}

/// The line of a goal whose literal at an index says of a term that it is T, where another denies that term and its function's values
/// are known to be T or F.
pub fn truth_value_line(
    work: &mut Work,
    history: &History,
    goal: &[TermId],
    at: usize,
) -> Result<Option<u64>, Stop>
    requires stands { WorkStands history.now work.old }
    requires ready { HasOwnTerms (events_at work.old.bank history.now) }
    requires goal { IsGoalIn history.now work.old goal.now }
    requires at { at < length goal.now }
    ensures line { IfOk result (λ found. IfSome found (λ n. LineHasOnly work.new n (terms_at work.new.bank goal.now))) }
    ensures grows { WorkGrows history.now work.old work.new }
    ensures out { result ≡ Err Stop.OutOfSteps → work.new.counter.used ≡ work.new.counter.limit }
{
    match sides_of(work, history, goal[at]) {
        Some(sides) => line_of_sides(work, history, goal, goal[at], sides),
        None => Ok(None),
    }
}
