//! The search for a line of a goal, depth first, with going back to other ways of the same goal.
ghost use Rattle.std.specs.Prelude.{◌≡◌, ◌+◌, ◌<◌, ◌++◌, ◌∷◌, [], All, IfOk, IfSome, OnOk, Err};
ghost use Rattle.nq_bank.specs.Content.{terms_at};
ghost use Rattle.nq_kernel.specs.Growing.{WorkStands, WorkGrows};
ghost use Rattle.nq_lines.specs.Lines.{LineHasOnly};
ghost use Rattle.nq_search.specs.Goals.{CanSearch, IsGoalIn, goals_at};
ghost use Rattle.nq_search.specs.Searching.{IsFound, AreFound, IsLed};

use crate::plan::Plan;
use crate::tactic::{Led, Tactic};
use nq_bank::TermId;
use nq_history::{Hints, History};
use nq_kernel::{Stop, Work, ready_histories};
use nq_lines::has_only;

/// The plan behind one more way.
fn lower(plan: Plan) -> Plan
    requires { 0 < plan.levels }
    ensures { result.levels + 1 ≡ plan.levels }
{
    Plan {
        levels: plan.levels - 1,
        ..plan
    }
}

/// Has the search of a goal come to its end before a turn? The first way of a goal is tried in any case: it is the cheapest, and what
/// led to the goal was paid for.
fn is_over(work: &Work, plan: Plan, turn: u32) -> bool {
    turn > 0 && work.counter.used() >= plan.until
}

fn push(lines: &mut Vec<u64>, line: u64) -> Result<(), Stop>
    ensures ok { OnOk result (lines.new.items ≡ lines.old.items ++ line ∷ []) }
    ensures out { result ≡ Err Stop.OutOfSteps → ⊥ }
{
    match lines.push(line) {
        Ok(()) => Ok(()),
        Err(_) => Err(Stop::Memory),
    }
}

/// The line that was found of a goal before, if it has only literals of the goal.
fn recalled<T: Tactic>(work: &Work, tactic: &T, history: &History, goal: &[TermId]) -> Option<u64>
    requires { WorkStands history.now work.now }
    ensures { IfSome result (λ n. LineHasOnly work.now n (terms_at work.now.bank goal.now)) }
{
    match tactic.recall(goal) {
        Some(line) => {
            if has_only(work, history, line, goal) {
                Some(line)
            } else {
                None
            }
        }
        None => None,
    }
}

/// Keeps in mind what was found of a goal.
fn remember<T: Tactic>(tactic: &mut T, goal: &[TermId], found: Option<u64>) {
    if let Some(line) = found {
        tactic.remember(goal, line);
    }
}

/// Seeks a line of a goal.
#[cycle(searching)]
pub fn seek<T: Tactic>(
    work: &mut Work,
    tactic: &mut T,
    history: &History,
    hints: &Hints,
    plan: Plan,
    goal: &[TermId],
) -> Result<Option<u64>, Stop>
    requires ready { CanSearch history.now hints.now work.old }
    requires goal { IsGoalIn history.now work.old goal.now }
    ensures found { IfOk result (IsFound work.new (terms_at work.old.bank goal.now)) }
    ensures grows { WorkGrows history.now work.old work.new }
    ensures out { result ≡ Err Stop.OutOfSteps → work.new.counter.used ≡ work.new.counter.limit }
{
    if plan.levels == 0 {
        return Ok(None);
    }
    match recalled(work, tactic, history, goal) {
        Some(line) => Ok(Some(line)),
        None => seek_anew(work, tactic, history, hints, lower(plan), goal),
    }
}

/// Seeks a line of a goal of which none was found before.
#[cycle(searching)]
fn seek_anew<T: Tactic>(
    work: &mut Work,
    tactic: &mut T,
    history: &History,
    hints: &Hints,
    plan: Plan,
    goal: &[TermId],
) -> Result<Option<u64>, Stop>
    requires ready { CanSearch history.now hints.now work.old }
    requires goal { IsGoalIn history.now work.old goal.now }
    ensures found { IfOk result (IsFound work.new (terms_at work.old.bank goal.now)) }
    ensures grows { WorkGrows history.now work.old work.new }
    ensures out { result ≡ Err Stop.OutOfSteps → work.new.counter.used ≡ work.new.counter.limit }
{
    let found = seek_turns(work, tactic, history, hints, plan, goal)?;
    remember(tactic, goal, found);
    Ok(found)
}

/// Seeks a line of a goal by one way after the other.
#[cycle(searching)]
fn seek_turns<T: Tactic>(
    work: &mut Work,
    tactic: &mut T,
    history: &History,
    hints: &Hints,
    plan: Plan,
    goal: &[TermId],
) -> Result<Option<u64>, Stop>
    requires ready { CanSearch history.now hints.now work.old }
    requires goal { IsGoalIn history.now work.old goal.now }
    ensures found { IfOk result (IsFound work.new (terms_at work.old.bank goal.now)) }
    ensures grows { WorkGrows history.now work.old work.new }
    ensures out { result ≡ Err Stop.OutOfSteps → work.new.counter.used ≡ work.new.counter.limit }
{
    ready_histories();
    for turn in 0..plan.turns {
        if is_over(work, plan, turn) {
            return Ok(None);
        }
        if let Some(line) = seek_turn(work, tactic, history, hints, plan, goal, turn)? {
            return Ok(Some(line));
        }
    }
    Ok(None)
}

/// Seeks a line of a goal by the way of this number.
#[cycle(searching)]
fn seek_turn<T: Tactic>(
    work: &mut Work,
    tactic: &mut T,
    history: &History,
    hints: &Hints,
    plan: Plan,
    goal: &[TermId],
    turn: u32,
) -> Result<Option<u64>, Stop>
    requires ready { CanSearch history.now hints.now work.old }
    requires goal { IsGoalIn history.now work.old goal.now }
    ensures found { IfOk result (IsFound work.new (terms_at work.old.bank goal.now)) }
    ensures grows { WorkGrows history.now work.old work.new }
    ensures out { result ≡ Err Stop.OutOfSteps → work.new.counter.used ≡ work.new.counter.limit }
{
    ready_histories();
    match tactic.lead(work, history, hints, plan, goal, turn)? {
        Some(led) => seek_led(work, tactic, history, hints, plan, goal, &led),
        None => Ok(None),
    }
}

/// Seeks a line of a goal that is led on.
#[cycle(searching)]
fn seek_led<T: Tactic>(
    work: &mut Work,
    tactic: &mut T,
    history: &History,
    hints: &Hints,
    plan: Plan,
    goal: &[TermId],
    led: &Led<T::Way>,
) -> Result<Option<u64>, Stop>
    requires ready { CanSearch history.now hints.now work.old }
    requires goal { IsGoalIn history.now work.old goal.now }
    requires led { IsLed T.nexts_of T.is_way history.now work.old goal.now led.now }
    ensures found { IfOk result (IsFound work.new (terms_at work.old.bank goal.now)) }
    ensures grows { WorkGrows history.now work.old work.new }
    ensures out { result ≡ Err Stop.OutOfSteps → work.new.counter.used ≡ work.new.counter.limit }
{
    ready_histories();
    let below = within(led.plan, plan);
    match seek_all(work, tactic, history, hints, below, T::nexts(&led.way))? {
        Some(lines) => {
            let line = tactic.close(work, history, hints, goal, &led.way, lines.as_slice())?;
            Ok(Some(line))
        }
        None => Ok(None),
    }
}

/// The plan of the nexts, with no more levels than are left.
fn within(next: Plan, plan: Plan) -> Plan
    ensures { result.levels ≡ plan.levels }
{
    Plan {
        levels: plan.levels,
        ..next
    }
}

/// Seeks a line of each of these goals.
#[cycle(searching)]
fn seek_all<T: Tactic>(
    work: &mut Work,
    tactic: &mut T,
    history: &History,
    hints: &Hints,
    plan: Plan,
    goals: &[Vec<TermId>],
) -> Result<Option<Vec<u64>>, Stop>
    requires ready { CanSearch history.now hints.now work.old }
    requires goals { All (λ goal. IsGoalIn history.now work.old goal.items) goals.now }
    ensures found { IfOk result (AreFound work.new (goals_at work.old.bank goals.now)) }
    ensures grows { WorkGrows history.now work.old work.new }
    ensures out { result ≡ Err Stop.OutOfSteps → work.new.counter.used ≡ work.new.counter.limit }
{
    ready_histories();
    let mut lines = Vec::new(work.bank.alloc());
    for goal in goals {
        match seek(work, tactic, history, hints, plan, goal.as_slice())? {
            Some(line) => push(&mut lines, line)?,
            None => return Ok(None),
        }
    }
    Ok(Some(lines))
}
