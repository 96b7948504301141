//! The value of a term alone.
ghost use Rattle.std.specs.Prelude.{IfOk};
ghost use Rattle.nq_history.specs.Events.{events_at};
ghost use Rattle.nq_kernel.specs.Growing.{WorkStands};
ghost use Rattle.nq_eval.specs.Lines.{GrowsUncounted, IsUsable};
ghost use Rattle.nq_eval.specs.Known.{IsReached};
ghost use Rattle.nq_kernel.specs.Ready.{IsReady};
ghost use Rattle.nq_eval.specs.Answers.{IsEvaluated};

use crate::equalities::equated;
use crate::evaluation::value_of;
use crate::found::{Found, Known};
use nq_bank::TermId;
use nq_history::History;
use nq_kernel::Work;
use std::alloc::AllocError;
use std::collections::HashMap;

/// The most calls.
const CALL_LIMIT: u32 = 10000;

/// The most calls that are nested.
const NESTING_LIMIT: u32 = 400;

/// What evaluation answers.
#[derive(Clone, Copy)]
pub enum EvalAnswer {
    /// The value, and the line of its equation with the term.
    Value(TermId, u64),
    /// The call that has no value.
    Blocked(TermId),
    /// Calls or nesting ran out.
    Fuel,
}

/// The value of a ground term, with a line of their equation; or the first call that has no value; or that calls or nesting ran out.
/// No step is counted. It fails only for want of memory.
pub fn evaluate(work: &mut Work, history: &History, t: TermId) -> Result<EvalAnswer, AllocError>
    requires stands { WorkStands history.now work.old }
    requires ready { IsReady (events_at work.old.bank history.now) }
    requires term { IsUsable work.old.bank history.now t }
    ensures answer { IfOk result (λ answer. IsEvaluated history.now work.new t answer) }
    ensures grows { GrowsUncounted history.now work.old work.new }
{
    let mut memo = HashMap::new(work.bank.alloc());
    match value_of(work, history, &mut memo, t, NESTING_LIMIT, CALL_LIMIT)? {
        Found::Value(known) => answer_of(work, history, t, known),
        Found::Blocked(u) => Ok(EvalAnswer::Blocked(u)),
        Found::Fuel => Ok(EvalAnswer::Fuel),
    }
}

/// The answer for a term that has a value.
fn answer_of(
    work: &mut Work,
    history: &History,
    t: TermId,
    known: Known,
) -> Result<EvalAnswer, AllocError>
    requires stands { WorkStands history.now work.old }
    requires term { IsUsable work.old.bank history.now t }
    requires known { IsReached history.now work.old t 400 10000 known }
    ensures answer { IfOk result (λ answer. IsEvaluated history.now work.new t answer) }
    ensures grows { GrowsUncounted history.now work.old work.new }
{
    let line = equated(work, history, t, known.value, known.line)?;
    Ok(EvalAnswer::Value(known.value, line))
}
