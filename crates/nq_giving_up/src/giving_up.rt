//! The tree of a lemma's failure.
ghost use Rattle.std.specs.Prelude.{◌≡◌, ◌<◌, ◌+◌, IfOk, IfSome, true, false};
ghost use Rattle.nq_bank.specs.Content.{Stands, term_at};
ghost use Rattle.nq_bank.specs.Marks.{CanRelease, released};
ghost use Rattle.nq_history.specs.Events.{HistoryStands, events_at};
ghost use Rattle.nq_history.specs.Hints.{HintsStand};
ghost use Rattle.nq_kernel.specs.Growing.{WorkGrows, WorkStands};
ghost use Rattle.nq_kernel.specs.Hints.{HintsAreIn};
ghost use Rattle.nq_kernel.specs.Over.{TermIsIn};
ghost use Rattle.nq_kernel.specs.Ready.{IsReady};
ghost use Rattle.nq_event.specs.EventsAt.{hints_at};
ghost use Rattle.nq_goals.specs.Hints.{first_goal};
ghost use Rattle.nq_waterfall.specs.Outcomes.{IsOutcome};
ghost use Rattle.nq_waterfall.specs.Ready.{CanMove, IsGoalIn};
ghost use Rattle.nq_giving_up.specs.Failing.{IsFailing, IsGivenUp, TellsOf};

use crate::shown::{shown_cause, shown_steps};
use nq_bank::{Bank, Mark, TermId};
use nq_comment::{Cause, ShownStep};
use nq_history::{Hints, History};
use nq_kernel::{Log, Work, held_work};
use nq_uses::first_goal;
use nq_waterfall::laws::holding;
use nq_waterfall::{Mover, Outcome, solve_first};
use std::alloc::{AllocError, Global};

/// What is told of a lemma that no search proved.
#[derive(Drop)]
pub enum Failing {
    /// The steps of the tree of its failure, and the cause of the goal left over that has the least number.
    Failed(Vec<ShownStep>, Cause),
    /// The steps are used up.
    OutOfSteps,
}

/// What is told of a lemma, and the bank as it was before.
#[derive(Drop)]
pub struct GivenUp {
    /// The bank.
    pub bank: Bank,
    /// What is told.
    pub failing: Failing,
}

/// What an outcome tells. Of a goal that was proved nothing is told.
fn failing_of(
    history: &History,
    hints: &Hints,
    work: &Work,
    goal: &[TermId],
    outcome: Outcome,
) -> Result<Option<Failing>, AllocError>
    requires { IsOutcome history.now hints.now work.now goal.now outcome }
    ensures { IfOk result (λ found. IfSome found (TellsOf history.now hints.now work.now goal.now)) }
{
    let _ = (history.len(), hints.instances.len(), goal.len());
    match outcome {
        Outcome::Failed(steps, cause) => {
            let shown = shown_steps(&work.bank, steps.as_slice())?;
            Ok(Some(Failing::Failed(shown, shown_cause(cause))))
        }
        Outcome::OutOfSteps => Ok(Some(Failing::OutOfSteps)),
        Outcome::Proved(_, _) => Ok(None),
        Outcome::Unknown => Ok(None),
    }
}

/// Counts an entry, and tells whether a step was left for it.
fn count_entry(work: &mut Work, history: &History) -> bool
    requires stands { WorkStands history.now work.old }
    ensures counted { result ≡ true → work.new.counter.used ≡ work.old.counter.used + 1 }
    ensures left { result ≡ true → work.old.counter.used < work.old.counter.limit }
    ensures out { result ≡ false → work.new.counter.used ≡ work.new.counter.limit }
    ensures grows { WorkGrows history.now work.old work.new }
{
    let _ = work.counter.used();
    match work.enter(0) {
        Ok(()) => true,
        Err(_) => false,
    }
}

/// Counts entries until no step is left.
fn spend(work: &mut Work, history: &History)
    requires stands { WorkStands history.now work.old }
    ensures out { work.new.counter.used ≡ work.new.counter.limit }
    ensures grows { WorkGrows history.now work.old work.new }
{
    loop {
        if !count_entry(work, history) {
            return;
        }
    }
}

/// How many terms and how many lines the work has.
fn size_of(work: &Work) -> (u64, u64) {
    (work.bank.len(), work.log.len())
}

/// What is told of a goal by a mover. Where it proves the goal or tells nothing, it is asked again with the steps that are left, an
/// entry being counted each time. A round in which no term and no line is new will be followed by none that tells more: then
/// entries are counted until no step is left.
fn ask<M: Mover>(
    work: &mut Work,
    mover: &mut M,
    history: &History,
    hints: &Hints,
    goal: &[TermId],
) -> Result<Failing, AllocError>
    requires ready { CanMove history.now hints.now work.old }
    requires goal { IsGoalIn history.now work.old goal.now }
    ensures told { IfOk result (TellsOf history.now hints.now work.new goal.now) }
    ensures grows { WorkGrows history.now work.old work.new }
{
    holding();
    loop {
        let size = size_of(work);
        let outcome = solve_first(work, mover, history, hints, goal)?;
        if let Some(failing) = failing_of(history, hints, work, goal, outcome)? {
            return Ok(failing);
        }
        if size_of(work) == size {
            spend(work, history);
            return Ok(Failing::OutOfSteps);
        }
        if !count_entry(work, history) {
            return Ok(Failing::OutOfSteps);
        }
    }
}

/// What is told of a goal over the bank of this work.
fn told<M: Mover>(
    mut work: Work,
    mover: &mut M,
    history: &History,
    hints: &Hints,
    goal: &[TermId],
) -> Result<GivenUp, AllocError>
    requires ready { CanMove history.now hints.now work }
    requires goal { IsGoalIn history.now work goal.now }
    ensures told { IfOk result (IsGivenUp history.now hints.now work goal.now) }
{
    let failing = ask(&mut work, mover, history, hints, goal)?;
    Ok(GivenUp {
        bank: work.bank,
        failing,
    })
}

/// Without what was made in the bank past the mark.
fn given_back(given: GivenUp, mark: Mark) -> GivenUp
    requires { CanRelease given.bank mark }
    ensures bank { result.bank ≡ released given.bank mark }
    ensures failing { result.failing ≡ given.failing }
{
    let GivenUp { mut bank, failing } = given;
    bank.release(mark);
    GivenUp { bank, failing }
}

/// What is told of a lemma by a mover whose work begins with no step used and may take so many: the tree of its failure from the
/// first goal, each step of which is legal and whose goals left over are led on by nothing; or that the steps are used up. What it
/// made in the bank is given back. An instance that is deeper than a bank allows counts as want of memory; a lawful hint names none.
pub fn give_up_by<M: Mover>(
    alloc: Global,
    bank: Bank,
    mover: &mut M,
    history: &History,
    hints: &Hints,
    goal: TermId,
    steps: u64,
) -> Result<GivenUp, AllocError>
    requires history { HistoryStands bank history.now }
    requires ready { IsReady (events_at bank history.now) }
    requires goal { Stands bank goal }
    requires over { TermIsIn bank history.now goal }
    requires hints { HintsStand bank hints.now }
    requires hint_terms { HintsAreIn bank history.now hints.now }
    ensures bank { IfOk result (λ given. given.bank ≡ bank) }
    ensures told { IfOk result (λ given. IsFailing steps (events_at bank history.now) (hints_at bank hints.now) (first_goal (events_at bank history.now) (hints_at bank hints.now) (term_at bank goal)) given.failing) }
{
    holding();
    held_work();
    let mark = bank.mark();
    let mut work = Work::new(bank, Log::new(alloc), steps);
    let Ok(first) = first_goal(&mut work.bank, history, hints, goal) else {
        return Err(AllocError);
    };
    let given = told(work, mover, history, hints, first.as_slice())?;
    Ok(given_back(given, mark))
}
