//! What comes of a value that was waited for.
ghost use Rattle.std.specs.Prelude.{◌≡◌, ◌+◌, ◌-◌, false, IfOk};
ghost use Rattle.nq_bank.specs.Content.{term_at};
ghost use Rattle.nq_history.specs.Events.{events_at};
ghost use Rattle.nq_kernel.specs.Growing.{WorkStands};
ghost use Rattle.nq_fragments.specs.Outcomes.{is_small};
ghost use Rattle.nq_eval.specs.Lines.{GrowsUncounted, IsUsable};
ghost use Rattle.nq_eval.specs.Known.{IsReached};
ghost use Rattle.nq_kernel.specs.Ready.{HasUsableDefinitions};
ghost use Rattle.nq_eval.specs.Heads.{IsChoice};
ghost use Rattle.nq_eval.specs.Frames.{CanWait, IsWaiting, IsGathering, IsChoosing, IsEntered, IsFoundAt, gathered, child_at, child_of};
ghost use Rattle.nq_eval.specs.Weights.{wait_weight, left_after, Leads};
ghost use Rattle.nq_eval.specs.declared.frames.Wait.TheVariants.{Argument, Test, Side, Body};

use crate::closing::{close_choice, side_of};
use crate::found::{Found, Known};
use crate::frames::{Choosing, Entered, Frame, Gathering, Request, Step, Wait};
use crate::gathered::Values;
use crate::openings::close_opening;
use crate::steps::{close_step, gather};
use nq_history::History;
use nq_kernel::Work;
use nq_rule::Branches;
use std::alloc::AllocError;

/// Goes on with a term, from what is found for the part that it waited for.
pub fn resume(
    work: &mut Work,
    history: &History,
    frame: Frame,
    found: Found,
) -> Result<Step, AllocError>
    requires stands { WorkStands history.now work.old }
    requires definitions { HasUsableDefinitions (events_at work.old.bank history.now) }
    requires waiting { IsWaiting history.now work.old frame }
    requires found { IsFoundAt history.now work.old (child_of frame) found }
    ensures step { IfOk result (λ step. Leads history.now work.new frame.request (wait_weight work.old.bank frame.wait + 1) (left_after (child_of frame) found) step) }
    ensures grows { GrowsUncounted history.now work.old work.new }
{
    match found {
        Found::Value(known) => resume_with(work, history, frame, known),
        Found::Blocked(u) => Ok(Step::Found(Found::Blocked(u))),
        Found::Fuel => Ok(Step::Found(Found::Fuel)),
    }
}

/// Goes on with a term, from the value of the part that it waited for.
fn resume_with(
    work: &mut Work,
    history: &History,
    frame: Frame,
    known: Known,
) -> Result<Step, AllocError>
    requires stands { WorkStands history.now work.old }
    requires definitions { HasUsableDefinitions (events_at work.old.bank history.now) }
    requires waiting { IsWaiting history.now work.old frame }
    requires known { IsReached history.now work.old (child_of frame).term (child_of frame).nesting (child_of frame).calls known }
    ensures step { IfOk result (λ step. Leads history.now work.new frame.request (wait_weight work.old.bank frame.wait + 1) ((child_of frame).calls - known.calls) step) }
    ensures grows { GrowsUncounted history.now work.old work.new }
{
    let request = frame.request;
    match frame.wait {
        Wait::Argument(gathering) => with_argument(work, history, request, gathering, known),
        Wait::Test(parts) => Ok(with_test(work, history, request, parts, known)),
        Wait::Side(choosing) => with_side(work, history, request, choosing, known),
        Wait::Body(entered) => with_body(work, history, request, entered, known),
    }
}

/// Goes on with a call, from the value of an argument.
fn with_argument(
    work: &mut Work,
    history: &History,
    request: Request,
    gathering: Gathering,
    known: Known,
) -> Result<Step, AllocError>
    requires stands { WorkStands history.now work.old }
    requires definitions { HasUsableDefinitions (events_at work.old.bank history.now) }
    requires term { IsUsable work.old.bank history.now request.term }
    requires large { is_small (term_at work.old.bank request.term) ≡ false }
    requires gathering { IsGathering history.now work.old request gathering }
    requires can { CanWait request (Argument gathering) }
    requires known { IsReached history.now work.old (child_at request (Argument gathering)).term request.nesting (request.calls - gathering.values.calls) known }
    ensures step { IfOk result (λ step. Leads history.now work.new request (wait_weight work.old.bank (Argument gathering) + 1) (request.calls - gathering.values.calls - known.calls) step) }
    ensures grows { GrowsUncounted history.now work.old work.new }
{
    let more = with_value(work, history, request, gathering, known)?;
    gather(work, history, request, more)
}

/// One more argument has its value.
fn with_value(
    work: &Work,
    history: &History,
    request: Request,
    gathering: Gathering,
    known: Known,
) -> Result<Gathering, AllocError>
    requires gathering { IsGathering history.now work.now request gathering }
    requires can { CanWait request (Argument gathering) }
    requires known { IsReached history.now work.now (child_at request (Argument gathering)).term request.nesting (request.calls - gathering.values.calls) known }
    ensures gathering { IfOk result (λ more. IsGathering history.now work.now request more) }
    ensures arguments { IfOk result (λ more. more.arguments ≡ gathering.arguments) }
    ensures one_more { IfOk result (λ more. gathered more ≡ gathered gathering + 1) }
    ensures calls { IfOk result (λ more. more.values.calls ≡ gathering.values.calls + known.calls) }
{
    let Gathering {
        function,
        arguments,
        values,
    } = gathering;
    let mut all = values.known;
    all.push(known)?;
    Ok(Gathering {
        function,
        arguments,
        values: Values {
            known: all,
            calls: values.calls + known.calls,
            nesting: values.nesting.max(known.nesting),
        },
    })
}

/// Goes on with an IF, from the value of its test.
fn with_test(work: &Work, history: &History, request: Request, parts: Branches, test: Known) -> Step
    requires term { IsUsable work.now.bank history.now request.term }
    requires large { is_small (term_at work.now.bank request.term) ≡ false }
    requires head { IsChoice work.now.bank request.term parts }
    requires test { IsReached history.now work.now parts.test request.nesting request.calls test }
    ensures { Leads history.now work.now request (wait_weight work.now.bank (Test parts) + 1) (request.calls - test.calls) result }
{
    let side = side_of(&work.bank, parts, test.value);
    Step::Wait(Frame {
        request,
        wait: Wait::Side(Choosing { parts, side, test }),
    })
}

/// The value of an IF, from that of the side that its test chooses.
fn with_side(
    work: &mut Work,
    history: &History,
    request: Request,
    choosing: Choosing,
    known: Known,
) -> Result<Step, AllocError>
    requires stands { WorkStands history.now work.old }
    requires term { IsUsable work.old.bank history.now request.term }
    requires large { is_small (term_at work.old.bank request.term) ≡ false }
    requires choosing { IsChoosing history.now work.old request choosing }
    requires known { IsReached history.now work.old choosing.side request.nesting (request.calls - choosing.test.calls) known }
    ensures step { IfOk result (λ step. Leads history.now work.new request 2 (request.calls - choosing.test.calls - known.calls) step) }
    ensures grows { GrowsUncounted history.now work.old work.new }
{
    let closed = close_choice(
        work,
        history,
        request.term,
        choosing.parts,
        choosing.side,
        choosing.test,
        known,
        request.nesting,
        request.calls,
    )?;
    Ok(Step::Found(Found::Value(closed)))
}

/// The value of a call, from that of what the call of its arguments' values was opened to.
fn with_body(
    work: &mut Work,
    history: &History,
    request: Request,
    entered: Entered,
    known: Known,
) -> Result<Step, AllocError>
    requires stands { WorkStands history.now work.old }
    requires entered { IsEntered history.now work.old request entered }
    requires can { CanWait request (Body entered) }
    requires known { IsReached history.now work.old entered.opened.body (request.nesting - 1) (request.calls - entered.used - 1) known }
    ensures step { IfOk result (λ step. Leads history.now work.new request 2 (request.calls - entered.used - 1 - known.calls) step) }
    ensures grows { GrowsUncounted history.now work.old work.new }
{
    let found = close_opening(
        work,
        history,
        entered.call.term,
        entered.opened,
        Found::Value(known),
        request.nesting,
        request.calls - entered.used,
    )?;
    close_step(
        work,
        history,
        request,
        &entered.call,
        entered.used,
        entered.deepest,
        found,
    )
}
