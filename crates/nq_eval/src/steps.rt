//! What comes of looking at a term.
ghost use Rattle.std.specs.Prelude.{◌≡◌, ◌≤◌, ◌-◌, false, None, IfOk, length};
ghost use Rattle.nq_bank.specs.Content.{term_at, terms_at};
ghost use Rattle.nq_bank.specs.Parts.{parts_of};
ghost use Rattle.nq_proof.specs.Values.{value_of};
ghost use Rattle.nq_value.specs.Passing.{passes};
ghost use Rattle.nq_history.specs.Events.{events_at};
ghost use Rattle.nq_kernel.specs.Growing.{WorkStands};
ghost use Rattle.nq_fragments.specs.Outcomes.{is_small};
ghost use Rattle.nq_eval.specs.Lines.{GrowsUncounted, IsUsable};
ghost use Rattle.nq_eval.specs.Known.{IsFoundOn, left_on};
ghost use Rattle.nq_kernel.specs.Ready.{HasUsableDefinitions};
ghost use Rattle.nq_eval.specs.Gathered.{IsValuesCall, IsReduced};
ghost use Rattle.nq_eval.specs.Heads.{IsOtherCall};
ghost use Rattle.nq_eval.specs.Opened.{IsOpenedTo};
ghost use Rattle.nq_eval.specs.Frames.{IsGathering, IsCallAnswer};
ghost use Rattle.nq_eval.specs.Weights.{term_weight, gathering_weight, Leads};

use crate::closing::{arguments_of, close_call, row_of, row_value, value_without_opening};
use crate::found::Found;
use crate::frames::{CallAnswer, Entered, Frame, Gathering, Request, Step, Wait};
use crate::gathered::{Values, ValuesCall};
use crate::heads::{Head, head_of};
use crate::openings::{Opened, open_call};
use crate::reducing::call_of_values;
use nq_bank::{Sym, TermId};
use nq_history::History;
use nq_kernel::Work;
use nq_value::ValueAnswer;
use std::alloc::AllocError;

/// Looks at a term of which nothing is known.
pub fn begin(work: &mut Work, history: &History, request: Request) -> Result<Step, AllocError>
    requires stands { WorkStands history.now work.old }
    requires definitions { HasUsableDefinitions (events_at work.old.bank history.now) }
    requires term { IsUsable work.old.bank history.now request.term }
    requires large { is_small (term_at work.old.bank request.term) ≡ false }
    ensures step { IfOk result (λ step. Leads history.now work.new request (term_weight (term_at work.old.bank request.term)) request.calls step) }
    ensures grows { GrowsUncounted history.now work.old work.new }
{
    match head_of(&work.bank, request.term) {
        Head::Variable => Ok(Step::Found(Found::Blocked(request.term))),
        Head::Choice(parts) => Ok(Step::Wait(Frame {
            request,
            wait: Wait::Test(parts),
        })),
        Head::Call(f) => begin_call(work, history, request, f),
    }
}

/// Looks at a call of which nothing is known.
fn begin_call(
    work: &mut Work,
    history: &History,
    request: Request,
    f: Sym,
) -> Result<Step, AllocError>
    requires stands { WorkStands history.now work.old }
    requires definitions { HasUsableDefinitions (events_at work.old.bank history.now) }
    requires term { IsUsable work.old.bank history.now request.term }
    requires large { is_small (term_at work.old.bank request.term) ≡ false }
    requires head { IsOtherCall work.old.bank request.term f }
    ensures step { IfOk result (λ step. Leads history.now work.new request (term_weight (term_at work.old.bank request.term)) request.calls step) }
    ensures grows { GrowsUncounted history.now work.old work.new }
{
    let arguments = arguments_of(work, history, request.term, f)?;
    let values = Values {
        known: Vec::new(work.bank.alloc()),
        calls: 0,
        nesting: 0,
    };
    let gathering = Gathering {
        function: f,
        arguments,
        values,
    };
    gather(work, history, request, gathering)
}

/// Goes on with the next argument of a call, or with the call of all values.
pub fn gather(
    work: &mut Work,
    history: &History,
    request: Request,
    gathering: Gathering,
) -> Result<Step, AllocError>
    requires stands { WorkStands history.now work.old }
    requires definitions { HasUsableDefinitions (events_at work.old.bank history.now) }
    requires term { IsUsable work.old.bank history.now request.term }
    requires large { is_small (term_at work.old.bank request.term) ≡ false }
    requires gathering { IsGathering history.now work.old request gathering }
    ensures step { IfOk result (λ step. Leads history.now work.new request (gathering_weight work.old.bank gathering) (request.calls - gathering.values.calls) step) }
    ensures grows { GrowsUncounted history.now work.old work.new }
{
    if gathering.values.known.len() < gathering.arguments.len() {
        return Ok(Step::Wait(Frame {
            request,
            wait: Wait::Argument(gathering),
        }));
    }
    reduce(work, history, request, gathering)
}

/// Goes on with the call of all values.
fn reduce(
    work: &mut Work,
    history: &History,
    request: Request,
    gathering: Gathering,
) -> Result<Step, AllocError>
    requires stands { WorkStands history.now work.old }
    requires definitions { HasUsableDefinitions (events_at work.old.bank history.now) }
    requires term { IsUsable work.old.bank history.now request.term }
    requires large { is_small (term_at work.old.bank request.term) ≡ false }
    requires gathering { IsGathering history.now work.old request gathering }
    requires all { length gathering.arguments.items ≤ length gathering.values.known.items }
    ensures step { IfOk result (λ step. Leads history.now work.new request 2 (request.calls - gathering.values.calls) step) }
    ensures grows { GrowsUncounted history.now work.old work.new }
{
    let used = gathering.values.calls;
    let deepest = gathering.values.nesting;
    let call = call_of_values(
        work,
        history,
        request.term,
        gathering.function,
        gathering.arguments.as_slice(),
        &gathering.values,
        request.nesting,
        request.calls,
    )?;
    let answer = call_answer(
        work,
        history,
        gathering.function,
        &call,
        request.nesting,
        request.calls - used,
    )?;
    step_of(work, history, request, call, used, deepest, answer)
}

/// What comes of a call, from what comes of the call of its arguments' values.
fn step_of(
    work: &mut Work,
    history: &History,
    request: Request,
    call: ValuesCall,
    used: u32,
    deepest: u32,
    answer: CallAnswer,
) -> Result<Step, AllocError>
    requires stands { WorkStands history.now work.old }
    requires large { is_small (term_at work.old.bank request.term) ≡ false }
    requires reduced { IsReduced history.now work.old request.term request.nesting request.calls used deepest call }
    requires answer { IsCallAnswer history.now work.old call.term request.nesting (request.calls - used) answer }
    ensures step { IfOk result (λ step. Leads history.now work.new request 2 (request.calls - used) step) }
    ensures grows { GrowsUncounted history.now work.old work.new }
{
    match answer {
        CallAnswer::Found(found) => close_step(work, history, request, &call, used, deepest, found),
        CallAnswer::Opened(opened) => Ok(Step::Wait(Frame {
            request,
            wait: Wait::Body(Entered {
                call,
                opened,
                used,
                deepest,
            }),
        })),
    }
}

/// What is found for a call, from what is found for the call of its arguments' values.
pub fn close_step(
    work: &mut Work,
    history: &History,
    request: Request,
    call: &ValuesCall,
    used: u32,
    deepest: u32,
    found: Found,
) -> Result<Step, AllocError>
    requires stands { WorkStands history.now work.old }
    requires reduced { IsReduced history.now work.old request.term request.nesting request.calls used deepest call.now }
    requires found { IsFoundOn history.now work.old call.now.term request.nesting (request.calls - used) found }
    ensures step { IfOk result (λ step. Leads history.now work.new request 2 (left_on (request.calls - used) found) step) }
    ensures grows { GrowsUncounted history.now work.old work.new }
{
    let found = close_call(
        work,
        history,
        request.term,
        call,
        used,
        deepest,
        found,
        request.nesting,
        request.calls,
    )?;
    Ok(Step::Found(found))
}

/// What comes of a call on values.
fn call_answer(
    work: &mut Work,
    history: &History,
    f: Sym,
    call: &ValuesCall,
    nesting: u32,
    calls: u32,
) -> Result<CallAnswer, AllocError>
    requires stands { WorkStands history.now work.old }
    requires definitions { HasUsableDefinitions (events_at work.old.bank history.now) }
    requires call { IsValuesCall history.now work.old f call.now }
    ensures answer { IfOk result (λ answer. IsCallAnswer history.now work.new call.now.term nesting calls answer) }
    ensures grows { GrowsUncounted history.now work.old work.new }
{
    match row_of(work, history, f, call)? {
        ValueAnswer::Value(v) => Ok(CallAnswer::Found(row_value(work, history, call.term, v)?)),
        ValueAnswer::Passes => {
            Ok(CallAnswer::Found(value_without_opening(work, history, call.term)))
        }
        ValueAnswer::NotBuiltIn => answer_without_row(work, history, f, call, nesting, calls),
    }
}

/// What comes of a call on values that has no row.
fn answer_without_row(
    work: &mut Work,
    history: &History,
    f: Sym,
    call: &ValuesCall,
    nesting: u32,
    calls: u32,
) -> Result<CallAnswer, AllocError>
    requires stands { WorkStands history.now work.old }
    requires definitions { HasUsableDefinitions (events_at work.old.bank history.now) }
    requires call { IsValuesCall history.now work.old f call.now }
    requires row { value_of (term_at work.old.bank call.now.term) ≡ None }
    requires passes { passes (term_at work.old.bank call.now.term) ≡ false }
    ensures answer { IfOk result (λ answer. IsCallAnswer history.now work.new call.now.term nesting calls answer) }
    ensures grows { GrowsUncounted history.now work.old work.new }
{
    if work.bank.is_value(call.term) {
        return Ok(CallAnswer::Found(value_without_opening(work, history, call.term)));
    }
    match open_call(work, history, f, call)? {
        Some(opened) => Ok(opened_answer(work, history, call.term, opened, nesting, calls)),
        None => Ok(CallAnswer::Found(Found::Blocked(call.term))),
    }
}

/// What comes of a call on values that was opened: it is entered where calls and nesting are left.
fn opened_answer(
    work: &Work,
    history: &History,
    u: TermId,
    opened: Opened,
    nesting: u32,
    calls: u32,
) -> CallAnswer
    requires opened { IsOpenedTo history.now work.now u opened }
    ensures { IsCallAnswer history.now work.now u nesting calls result }
{
    if nesting == 0 || calls == 0 {
        CallAnswer::Found(Found::Fuel)
    } else {
        CallAnswer::Opened(opened)
    }
}
