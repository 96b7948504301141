//! What is told of the first goal of a lemma: its text, and why it is left over, where it is false or stuck.
ghost use Rattle.std.specs.Prelude.{◌≡◌, All, IfOk};
ghost use Rattle.nq_bank.specs.Content.{Grows, Stands, term_at, terms_at};
ghost use Rattle.nq_bank.specs.Marks.{CanRelease, released};
ghost use Rattle.nq_history.specs.Events.{HistoryStands, events_at};
ghost use Rattle.nq_history.specs.Hints.{HintsStand};
ghost use Rattle.nq_kernel.specs.Hints.{HintsAreIn};
ghost use Rattle.nq_kernel.specs.Over.{TermIsIn};
ghost use Rattle.nq_kernel.specs.Ready.{IsReady};
ghost use Rattle.nq_comment.specs.ReportViews.{steps_of};
ghost use Rattle.nq_event.specs.EventsAt.{hints_at};
ghost use Rattle.nq_goals.specs.Hints.{first_goal};
ghost use Rattle.nq_ground_goals.specs.Literals.{IsLiteral};
ghost use Rattle.nq_answers.specs.Goals.{goal_text};
ghost use Rattle.nq_first_goal.specs.Judging.{GoalFailsBy, IsJudged, cause_if, failing, failing_by, is_left, steps_unless, unless};

use crate::falsehoods::falsehood_steps;
use crate::texts::goal_text;
use nq_bank::{Bank, Mark, TermId};
use nq_comment::{Cause, ShownStep};
use nq_ground_goals::is_false;
use nq_history::{Hints, History};
use nq_kernel::{Log, Work};
use nq_stuck::is_stuck;
use nq_uses::first_goal;
use std::alloc::{AllocError, Global};

/// What is told of a goal, and the bank as it was before.
#[derive(Drop)]
pub struct Judged {
    /// The bank.
    pub bank: Bank,
    /// The text of the goal.
    pub text: Vec<u8>,
    /// Why the lemma fails: the goal is false, or stuck. None where neither is known.
    pub cause: Option<Cause>,
    /// The steps down to the goal that is left over for the cause.
    pub steps: Vec<ShownStep>,
}

/// Without what was made in the bank past the mark.
fn given_back(judged: Judged, mark: Mark) -> Judged
    requires { CanRelease judged.bank mark }
    ensures bank { result.bank ≡ released judged.bank mark }
    ensures text { result.text ≡ judged.text }
    ensures cause { result.cause ≡ judged.cause }
    ensures steps { result.steps ≡ judged.steps }
{
    let Judged {
        mut bank,
        text,
        cause,
        steps,
    } = judged;
    bank.release(mark);
    Judged {
        bank,
        text,
        cause,
        steps,
    }
}

/// Why a goal is left over, by whether it is false, and whether it is stuck.
fn cause_if(falsity: bool, stuck: bool) -> Option<Cause>
    ensures { result ≡ cause_if falsity stuck }
{
    if falsity {
        Some(Cause::False)
    } else if stuck {
        Some(Cause::NoInduction)
    } else {
        None
    }
}

/// The cause, where moves did not prove the lemma.
fn unless(proved: bool, cause: Cause) -> Option<Cause>
    ensures { result ≡ unless proved cause }
{
    if proved { None } else { Some(cause) }
}

/// The cause that is told, where moves proved the lemma or did not: of a proved one only that its first goal is false.
fn failing_by(cause: Cause, proved: bool) -> Option<Cause>
    ensures { result ≡ failing_by cause proved }
{
    match cause {
        Cause::False => Some(Cause::False),
        Cause::NoInduction => unless(proved, Cause::NoInduction),
        Cause::Loop => unless(proved, Cause::Loop),
        Cause::Forbidden => unless(proved, Cause::Forbidden),
        Cause::Depth => unless(proved, Cause::Depth),
    }
}

/// Why a lemma fails, by what is told of its first goal, and whether moves proved it. A stuck goal may be proved all the same.
pub fn failing(cause: Option<Cause>, proved: bool) -> Option<Cause>
    ensures { result ≡ failing cause proved }
{
    match cause {
        Some(known) => failing_by(known, proved),
        None => None,
    }
}

/// The steps down to the goal that is left over: none where the first goal is false or stuck itself.
fn steps_unless(alloc: Global, falsity: bool, stuck: bool, steps: Vec<ShownStep>) -> Vec<ShownStep>
    ensures { steps_of result.items ≡ steps_unless falsity stuck (steps_of steps.items) }
{
    if falsity {
        Vec::new(alloc)
    } else if stuck {
        Vec::new(alloc)
    } else {
        steps
    }
}

/// Is a goal left over: is the first one stuck, or are there steps down to one?
fn is_left(stuck: bool, found: &[ShownStep]) -> bool
    ensures { result ≡ is_left stuck (steps_of found.now) }
{
    match found {
        [] => stuck,
        [_, ..] => true,
    }
}

/// The steps of the tree of a failure from a goal, where it is one literal that is a proposition over variables.
fn falsehood_of(
    bank: &mut Bank,
    history: &History,
    hints: &Hints,
    goal: &[TermId],
) -> Result<Vec<ShownStep>, AllocError>
    requires history { HistoryStands bank.old history.now }
    requires hints { HintsStand bank.old hints.now }
    requires literals { All (IsLiteral bank.old history.now) goal.now }
    ensures told { IfOk result (λ v. GoalFailsBy (events_at bank.old history.now) (hints_at bank.old hints.now) (terms_at bank.old goal.now) (steps_of v.items)) }
    ensures bank { IfOk result (λ _. bank.new ≡ bank.old) }
{
    match goal {
        [lemma] => falsehood_steps(bank, history, hints, *lemma),
        _ => Ok(Vec::new(bank.alloc())),
    }
}

/// What is told of a goal over this bank.
fn told(
    alloc: Global,
    bank: Bank,
    history: &History,
    hints: &Hints,
    goal: &[TermId],
) -> Result<Judged, AllocError>
    requires history { HistoryStands bank history.now }
    requires ready { IsReady (events_at bank history.now) }
    requires hints { HintsStand bank hints.now }
    requires stand { All (Stands bank) goal.now }
    requires literals { All (IsLiteral bank history.now) goal.now }
    ensures grows { IfOk result (λ judged. Grows bank judged.bank) }
    ensures told { IfOk result (IsJudged (events_at bank history.now) (hints_at bank hints.now) (terms_at bank goal.now)) }
{
    let mut bank = bank;
    let text = goal_text(&bank, goal)?;
    let stuck = is_stuck(&bank, history, hints, goal)?;
    let found = falsehood_of(&mut bank, history, hints, goal)?;
    let mut work = Work::new(bank, Log::new(alloc), 0);
    let falsity = is_false(&mut work, history, goal)?;
    let left = is_left(stuck, found.as_slice());
    let cause = cause_if(falsity, left);
    let steps = steps_unless(alloc, falsity, stuck, found);
    Ok(Judged {
        bank: work.bank,
        text,
        cause,
        steps,
    })
}

/// The text of the first goal of a lemma, and why it is left over, where it is false or stuck. What they made in the bank is given back. An instance that is
/// deeper than a bank allows counts as want of memory; a lawful hint names none.
pub fn judge(
    alloc: Global,
    bank: Bank,
    history: &History,
    hints: &Hints,
    goal: TermId,
) -> Result<Judged, AllocError>
    requires history { HistoryStands bank history.now }
    requires ready { IsReady (events_at bank history.now) }
    requires goal { Stands bank goal }
    requires over { TermIsIn bank history.now goal }
    requires hints { HintsStand bank hints.now }
    requires hint_terms { HintsAreIn bank history.now hints.now }
    ensures bank { IfOk result (λ judged. judged.bank ≡ bank) }
    ensures told { IfOk result (IsJudged (events_at bank history.now) (hints_at bank hints.now) (first_goal (events_at bank history.now) (hints_at bank hints.now) (term_at bank goal))) }
{
    let mark = bank.mark();
    let mut bank = bank;
    let Ok(first) = first_goal(&mut bank, history, hints, goal) else {
        return Err(AllocError);
    };
    let judged = told(alloc, bank, history, hints, first.as_slice())?;
    Ok(given_back(judged, mark))
}
