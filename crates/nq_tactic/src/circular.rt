//! Literals that deny that a term equals one in which it stands, as `(NOT (EQUAL X (CONS A X)))`: the two have not one COUNT.
//!
//! The COUNT of each side is rewritten, and linear arithmetic shows that the two are not equal. What is built so decides nothing: a
//! line counts where it has only literals of the goal.
ghost use Rattle.std.specs.Prelude.{◌≡◌, ◌<◌, IfOk, IfSome, Err, length};
ghost use Rattle.nq_bank.specs.Content.{Stands, terms_at};
ghost use Rattle.nq_history.specs.Events.{events_at};
ghost use Rattle.nq_kernel.specs.Growing.{LineStands, WorkGrows, WorkStands};
ghost use Rattle.nq_instances.specs.Parts.{IsLine};
ghost use Rattle.nq_lines.specs.Facts.{IsEquation};
ghost use Rattle.nq_lines.specs.Lines.{IsTermIn, LineHasOnly};
ghost use Rattle.nq_lines.specs.OwnTerms.{HasOwnTerms};
ghost use Rattle.nq_search.specs.Goals.{IsGoalIn};

use crate::reading::denied_term;
use nq_arithmetic::arithmetic_line;
use nq_bank::{Bank, TermId, ground, ground_name};
use nq_history::{Hints, History};
use nq_kernel::{Stop, Work};
use nq_lines::{Equated, Fact, Sides, congruent, cut, deny, equate, has_only, opposites, sides_of};
use nq_reduce::argument_of;
use nq_rewrite::{one_call, rewrite};
use nq_rule_table::Rules;

/// The most nodes of an equation whose sides are looked through.
const NODE_LIMIT: u64 = 3000;

/// Does a term stand within another?
fn is_within(bank: &Bank, part: TermId, t: TermId) -> bool
    requires { Stands bank.now t }
{
    for a in bank.args(t) {
        if a.0 == part.0 || is_within(bank, part, *a) {
            return true;
        }
    }
    false
}

/// Does one of the two arguments of a call, if it is small enough to be looked through, stand within the other?
fn is_circular(bank: &Bank, t: TermId) -> bool
    requires { Stands bank.now t }
{
    if bank.size(t) >= NODE_LIMIT {
        return false;
    }
    match bank.args(t) {
        [left, right] => is_within(bank, *left, *right) || is_within(bank, *right, *left),
        _ => false,
    }
}

/// The equation that a literal denies, if one of its sides stands within the other.
fn denied_circle(work: &Work, history: &History, t: TermId) -> Option<TermId>
    requires stands { WorkStands history.now work.now }
    requires term { IsTermIn history.now work.now t }
    ensures { IfSome result (IsTermIn history.now work.now) }
{
    match denied_term(work, history, t) {
        Some(e) => {
            if is_circular(&work.bank, e) {
                Some(e)
            } else {
                None
            }
        }
        None => None,
    }
}

/// The line that a size is what rewriting makes of it.
fn size_fact(
    work: &mut Work,
    history: &History,
    hints: &Hints,
    rules: &Rules,
    size: TermId,
) -> Result<Fact, Stop>
    requires stands { WorkStands history.now work.old }
    requires ready { HasOwnTerms (events_at work.old.bank history.now) }
    requires size { IsTermIn history.now work.old size }
    ensures fact { IfOk result (IsLine history.now work.new) }
    ensures grows { WorkGrows history.now work.old work.new }
    ensures out { result ≡ Err Stop.OutOfSteps → work.new.counter.used ≡ work.new.counter.limit }
{
    let made = rewrite(work, history, hints, rules, &[], size)?;
    let term = equate(work, history, size, made.0)?;
    Ok(Fact { term, line: made.1 })
}

/// A line that two sizes differ, by linear arithmetic.
fn line_of_sizes(
    work: &mut Work,
    history: &History,
    hints: &Hints,
    rules: &Rules,
    first: TermId,
    second: TermId,
    equation: TermId,
) -> Result<Option<u64>, Stop>
    requires stands { WorkStands history.now work.old }
    requires ready { HasOwnTerms (events_at work.old.bank history.now) }
    requires first { IsTermIn history.now work.old first }
    requires second { IsTermIn history.now work.old second }
    requires equation { IsTermIn history.now work.old equation }
    ensures line { IfOk result (λ found. IfSome found (LineStands work.new)) }
    ensures grows { WorkGrows history.now work.old work.new }
    ensures out { result ≡ Err Stop.OutOfSteps → work.new.counter.used ≡ work.new.counter.limit }
{
    let one = size_fact(work, history, hints, rules, first)?;
    let two = size_fact(work, history, hints, rules, second)?;
    let denied = deny(work, history, equation)?;
    arithmetic_line(work, history, hints, &[denied], &[one, two])
}

/// The size of the right side of an equation, and the line that that of the left side equals it where the equation is assumed.
fn equal_size(
    work: &mut Work,
    history: &History,
    e: TermId,
    right: TermId,
    size: TermId,
) -> Result<Option<Equated>, Stop>
    requires stands { WorkStands history.now work.old }
    requires equation { IsTermIn history.now work.old e }
    requires right { IsTermIn history.now work.old right }
    requires size { IsTermIn history.now work.old size }
    ensures term { IfOk result (λ found. IfSome found (λ r. IsTermIn history.now work.new r.term)) }
    ensures line { IfOk result (λ found. IfSome found (λ r. LineStands work.new r.line)) }
    ensures grows { WorkGrows history.now work.old work.new }
    ensures out { result ≡ Err Stop.OutOfSteps → work.new.counter.used ≡ work.new.counter.limit }
{
    let law = opposites(work, history, e)?;
    match argument_of(work, history, size, 1) {
        Some(_) => {
            let other = congruent(work, history, size, 1, right, law)?;
            Ok(Some(other))
        }
        None => Ok(None),
    }
}

/// A line by which an equation is denied, where the sizes of its sides differ.
fn line_by_sizes(
    work: &mut Work,
    history: &History,
    hints: &Hints,
    rules: &Rules,
    size: TermId,
    other: Equated,
) -> Result<Option<u64>, Stop>
    requires stands { WorkStands history.now work.old }
    requires ready { HasOwnTerms (events_at work.old.bank history.now) }
    requires size { IsTermIn history.now work.old size }
    requires other { IsTermIn history.now work.old other.term }
    requires equal { LineStands work.old other.line }
    ensures line { IfOk result (λ found. IfSome found (LineStands work.new)) }
    ensures grows { WorkGrows history.now work.old work.new }
    ensures out { result ≡ Err Stop.OutOfSteps → work.new.counter.used ≡ work.new.counter.limit }
{
    let equation = equate(work, history, size, other.term)?;
    match line_of_sizes(work, history, hints, rules, size, other.term, equation)? {
        Some(apart) => {
            let line = cut(work, history, other.line, apart, equation)?;
            Ok(Some(line))
        }
        None => Ok(None),
    }
}

/// The same, by the size of the left side.
fn line_by_size(
    work: &mut Work,
    history: &History,
    hints: &Hints,
    rules: &Rules,
    e: TermId,
    right: TermId,
    size: TermId,
) -> Result<Option<u64>, Stop>
    requires stands { WorkStands history.now work.old }
    requires ready { HasOwnTerms (events_at work.old.bank history.now) }
    requires equation { IsTermIn history.now work.old e }
    requires right { IsTermIn history.now work.old right }
    requires size { IsTermIn history.now work.old size }
    ensures line { IfOk result (λ found. IfSome found (LineStands work.new)) }
    ensures grows { WorkGrows history.now work.old work.new }
    ensures out { result ≡ Err Stop.OutOfSteps → work.new.counter.used ≡ work.new.counter.limit }
{
    match equal_size(work, history, e, right, size)? {
        Some(other) => line_by_sizes(work, history, hints, rules, size, other),
        None => Ok(None),
    }
}

/// The same, by the sides of the equation.
fn line_by_sides(
    work: &mut Work,
    history: &History,
    hints: &Hints,
    rules: &Rules,
    e: TermId,
    sides: Sides,
) -> Result<Option<u64>, Stop>
    requires stands { WorkStands history.now work.old }
    requires ready { HasOwnTerms (events_at work.old.bank history.now) }
    requires equation { IsTermIn history.now work.old e }
    requires sides { IsEquation history.now work.old e sides }
    ensures line { IfOk result (λ found. IfSome found (LineStands work.new)) }
    ensures grows { WorkGrows history.now work.old work.new }
    ensures out { result ≡ Err Stop.OutOfSteps → work.new.counter.used ≡ work.new.counter.limit }
{
    let count = ground_name(&work.bank, ground::COUNT);
    match one_call(work, history, count, sides.left)? {
        Some(size) => line_by_size(work, history, hints, rules, e, sides.right, size),
        None => Ok(None),
    }
}

/// The same, where the equation is one.
fn line_of_circle(
    work: &mut Work,
    history: &History,
    hints: &Hints,
    rules: &Rules,
    e: TermId,
) -> Result<Option<u64>, Stop>
    requires stands { WorkStands history.now work.old }
    requires ready { HasOwnTerms (events_at work.old.bank history.now) }
    requires equation { IsTermIn history.now work.old e }
    ensures line { IfOk result (λ found. IfSome found (LineStands work.new)) }
    ensures grows { WorkGrows history.now work.old work.new }
    ensures out { result ≡ Err Stop.OutOfSteps → work.new.counter.used ≡ work.new.counter.limit }
{
    match sides_of(work, history, e) {
        Some(sides) => line_by_sides(work, history, hints, rules, e, sides),
        None => Ok(None),
    }
}

/// A line, where it has only literals of the goal.
pub fn kept(work: &Work, history: &History, goal: &[TermId], line: u64) -> Option<u64>
    requires { WorkStands history.now work.now }
    ensures { IfSome result (λ n. LineHasOnly work.now n (terms_at work.now.bank goal.now)) }
{
    if has_only(work, history, line, goal) {
        Some(line)
    } else {
        None
    }
}

/// The line of a goal by a line of one of its literals, if there is one that has only literals of the goal.
fn line_from(
    work: &mut Work,
    history: &History,
    hints: &Hints,
    rules: &Rules,
    goal: &[TermId],
    e: TermId,
) -> Result<Option<u64>, Stop>
    requires stands { WorkStands history.now work.old }
    requires ready { HasOwnTerms (events_at work.old.bank history.now) }
    requires equation { IsTermIn history.now work.old e }
    ensures line { IfOk result (λ found. IfSome found (λ n. LineHasOnly work.new n (terms_at work.new.bank goal.now))) }
    ensures grows { WorkGrows history.now work.old work.new }
    ensures out { result ≡ Err Stop.OutOfSteps → work.new.counter.used ≡ work.new.counter.limit }
{
    match line_of_circle(work, history, hints, rules, e)? {
        Some(line) => Ok(kept(work, history, goal, line)),
        None => Ok(None),
    }
}

/// The line of a goal whose literal at an index denies that a term equals one in which it stands.
pub fn circular_line(
    work: &mut Work,
    history: &History,
    hints: &Hints,
    rules: &Rules,
    goal: &[TermId],
    at: usize,
) -> Result<Option<u64>, Stop>
    requires stands { WorkStands history.now work.old }
    requires ready { HasOwnTerms (events_at work.old.bank history.now) }
    requires goal { IsGoalIn history.now work.old goal.now }
    requires at { at < length goal.now }
    ensures line { IfOk result (λ found. IfSome found (λ n. LineHasOnly work.new n (terms_at work.new.bank goal.now))) }
    ensures grows { WorkGrows history.now work.old work.new }
    ensures out { result ≡ Err Stop.OutOfSteps → work.new.counter.used ≡ work.new.counter.limit }
{
    match denied_circle(work, history, goal[at]) {
        Some(e) => line_from(work, history, hints, rules, goal, e),
        None => Ok(None),
    }
}
