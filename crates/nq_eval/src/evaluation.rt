//! Values of terms, where openings may nest so far and so many calls are left.
//! Openings nest hundreds of times over bodies that are thousands of levels deep, so what waits for a value stands in a list.
ghost use Rattle.std.specs.Prelude.{◌≡◌, ◌<◌, ◌≤◌, ◌+◌, ◌↔◌, false, IfOk, OnOk, MatchOption, IsTrue};
ghost use Rattle.nq_bank.specs.Content.{term_at};
ghost use Rattle.nq_fragments.specs.Outcomes.{is_small};
ghost use Rattle.nq_eval.specs.Lines.{GrowsUncounted, IsUsable};
ghost use Rattle.nq_eval.specs.Known.{IsFoundFor, Knows};
ghost use Rattle.nq_eval.specs.Gathered.{CanEvaluate};
ghost use Rattle.nq_eval.specs.Frames.{AreWaiting, IsWaiting, IsStep, IsFoundAt, child_of};
ghost use Rattle.nq_eval.specs.Weights.{term_weight, wait_weight, frames_weight, turn_left, left_after, step_weight, step_left};
ghost use Rattle.nq_eval.specs.Runs.{IsRun, run_weight, rests};

use crate::found::{Found, Known, found_known, is_small_value, keep, known_for, own_value};
use crate::frames::{Frame, Request, Step, Turn, turn_of};
use crate::resuming::resume;
use crate::steps::begin;
use nq_bank::TermId;
use nq_history::History;
use nq_kernel::Work;
use std::alloc::AllocError;
use std::collections::HashMap;

/// The evaluation of a term.
#[derive(Drop)]
pub struct Run {
    /// The term.
    pub whole: Request,
    /// What waits for a value, each for the value of the next one.
    pub frames: Vec<Frame>,
    /// What comes next.
    pub turn: Turn,
}

/// What is known of a term before it is looked at.
fn known_already(
    work: &Work,
    history: &History,
    memo: &HashMap<u64, Known>,
    request: Request,
) -> Option<Found>
    requires knows { Knows history.now work.now memo.now }
    requires term { IsUsable work.now.bank history.now request.term }
    ensures { MatchOption result (is_small (term_at work.now.bank request.term) ≡ false) (IsFoundAt history.now work.now request) }
{
    if is_small_value(&work.bank, request.term) {
        return Some(own_value(work, history, request.term, request.nesting, request.calls));
    }
    let known = known_for(memo, request.term)?;
    Some(found_known(
        work,
        history,
        request.term,
        known,
        request.nesting,
        request.calls,
    ))
}

/// Keeps the value that was found for a term.
fn keep_found(
    work: &Work,
    history: &History,
    memo: &mut HashMap<u64, Known>,
    request: Request,
    found: Found,
) -> Result<(), AllocError>
    requires knows { Knows history.now work.now memo.old }
    requires term { IsUsable work.now.bank history.now request.term }
    requires found { IsFoundAt history.now work.now request found }
    ensures { OnOk result (Knows history.now work.now memo.new) }
{
    match found {
        Found::Value(known) => keep(memo, request.term, known),
        Found::Blocked(_) => Ok(()),
        Found::Fuel => Ok(()),
    }
}

/// Takes what came of a term at hand.
fn take_step(
    work: &Work,
    history: &History,
    memo: &mut HashMap<u64, Known>,
    run: &mut Run,
    request: Request,
    step: Step,
) -> Result<(), AllocError>
    requires can { CanEvaluate history.now work.now memo.old }
    requires waiting { AreWaiting history.now work.now run.old.frames.items run.old.whole request }
    requires term { IsUsable work.now.bank history.now request.term }
    requires step { IsStep history.now work.now request step }
    ensures run { OnOk result (IsRun history.now work.now memo.new run.new) }
    ensures whole { run.new.whole ≡ run.old.whole }
    ensures lighter { OnOk result (run_weight work.now.bank run.new ≡ step_weight work.now.bank step + frames_weight work.now.bank run.old.frames.items) }
    ensures left { OnOk result (turn_left run.new.turn ≡ step_left request step) }
{
    match step {
        Step::Found(found) => {
            keep_found(work, history, memo, request, found)?;
            run.turn = Turn::Give(request, found);
        }
        Step::Wait(frame) => {
            run.turn = turn_of(&frame);
            run.frames.push(frame)?;
        }
    }
    Ok(())
}

/// Looks at a term.
fn look(
    work: &mut Work,
    history: &History,
    memo: &mut HashMap<u64, Known>,
    run: &mut Run,
    request: Request,
) -> Result<(), AllocError>
    requires can { CanEvaluate history.now work.old memo.old }
    requires waiting { AreWaiting history.now work.old run.old.frames.items run.old.whole request }
    requires term { IsUsable work.old.bank history.now request.term }
    ensures run { OnOk result (IsRun history.now work.new memo.new run.new) }
    ensures whole { run.new.whole ≡ run.old.whole }
    ensures lighter { OnOk result (run_weight work.new.bank run.new < term_weight (term_at work.old.bank request.term) + frames_weight work.old.bank run.old.frames.items) }
    ensures left { OnOk result (turn_left run.new.turn ≤ request.calls) }
    ensures grows { GrowsUncounted history.now work.old work.new }
{
    if let Some(found) = known_already(work, history, memo, request) {
        run.turn = Turn::Give(request, found);
        return Ok(());
    }
    let step = begin(work, history, request)?;
    take_step(work, history, memo, run, request, step)
}

/// Gives what was found for a term to what waits for it.
fn give(
    work: &mut Work,
    history: &History,
    memo: &mut HashMap<u64, Known>,
    run: &mut Run,
    frame: Frame,
    found: Found,
) -> Result<(), AllocError>
    requires can { CanEvaluate history.now work.old memo.old }
    requires waiting { AreWaiting history.now work.old run.old.frames.items run.old.whole frame.request }
    requires frame { IsWaiting history.now work.old frame }
    requires found { IsFoundAt history.now work.old (child_of frame) found }
    ensures run { OnOk result (IsRun history.now work.new memo.new run.new) }
    ensures whole { run.new.whole ≡ run.old.whole }
    ensures lighter { OnOk result (run_weight work.new.bank run.new < wait_weight work.old.bank frame.wait + 1 + frames_weight work.old.bank run.old.frames.items) }
    ensures left { OnOk result (turn_left run.new.turn ≤ left_after (child_of frame) found) }
    ensures grows { GrowsUncounted history.now work.old work.new }
{
    let request = frame.request;
    let step = resume(work, history, frame, found)?;
    take_step(work, history, memo, run, request, step)
}

/// Takes the next turn.
fn advance(
    work: &mut Work,
    history: &History,
    memo: &mut HashMap<u64, Known>,
    run: &mut Run,
) -> Result<(), AllocError>
    requires run { IsRun history.now work.old memo.old run.old }
    requires goes_on { rests run.old.turn run.old.frames.items → ⊥ }
    ensures run { OnOk result (IsRun history.now work.new memo.new run.new) }
    ensures whole { run.new.whole ≡ run.old.whole }
    ensures lighter { OnOk result (run_weight work.new.bank run.new < run_weight work.old.bank run.old) }
    ensures left { OnOk result (turn_left run.new.turn ≤ turn_left run.old.turn) }
    ensures grows { GrowsUncounted history.now work.old work.new }
{
    match run.turn {
        Turn::Enter(_) => unreachable!(),
        Turn::Look(request) => look(work, history, memo, run, request),
        Turn::Give(_, found) => match run.frames.pop() {
            Some(frame) => give(work, history, memo, run, frame, found),
            None => unreachable!(),
        },
    }
}

/// Is there no turn to be taken, but that a call was opened?
fn rests(run: &Run) -> bool
    ensures { IsTrue result ↔ rests run.now.turn run.now.frames.items }
{
    match run.turn {
        Turn::Enter(_) => true,
        Turn::Look(_) => false,
        Turn::Give(_, _) => run.frames.is_empty(),
    }
}

/// Takes turns until a call is opened, or all is found.
fn go_on(
    work: &mut Work,
    history: &History,
    memo: &mut HashMap<u64, Known>,
    run: &mut Run,
) -> Result<(), AllocError>
    requires run { IsRun history.now work.old memo.old run.old }
    ensures run { OnOk result (IsRun history.now work.new memo.new run.new) }
    ensures whole { run.new.whole ≡ run.old.whole }
    ensures rests { OnOk result (rests run.new.turn run.new.frames.items) }
    ensures left { OnOk result (turn_left run.new.turn ≤ turn_left run.old.turn) }
    ensures grows { GrowsUncounted history.now work.old work.new }
{
    while !rests(run) {
        advance(work, history, memo, run)?;
    }
    Ok(())
}

/// The value of a term.
pub fn value_of(
    work: &mut Work,
    history: &History,
    memo: &mut HashMap<u64, Known>,
    t: TermId,
    nesting: u32,
    calls: u32,
) -> Result<Found, AllocError>
    requires can { CanEvaluate history.now work.old memo.old }
    requires term { IsUsable work.old.bank history.now t }
    ensures found { IfOk result (λ found. IsFoundFor history.now work.new t nesting calls found) }
    ensures memo { OnOk result (Knows history.now work.new memo.new) }
    ensures grows { GrowsUncounted history.now work.old work.new }
{
    let whole = Request {
        term: t,
        nesting,
        calls,
    };
    let mut run = Run {
        whole,
        frames: Vec::new(work.bank.alloc()),
        turn: Turn::Enter(whole),
    };
    while let Turn::Enter(request) = run.turn {
        run.turn = Turn::Look(request);
        go_on(work, history, memo, &mut run)?;
    }
    match run.turn {
        Turn::Enter(_) => unreachable!(),
        Turn::Look(_) => unreachable!(),
        Turn::Give(_, found) => Ok(found),
    }
}
