//! The line of a ground goal whose value isn't F.
//!
//! A goal that is ground and not too deep is evaluated. Where its value v isn't F, the line of their equation takes the line
//! that v is true back to the goal.
ghost use Rattle.std.specs.Prelude.{◌≡◌, [], IfOk};
ghost use Rattle.nq_logic.specs.RuleShapes.{variables_of};
ghost use Rattle.nq_bank.specs.Content.{Stands, term_at};
ghost use Rattle.nq_history.specs.Events.{events_at};
ghost use Rattle.nq_kernel.specs.Over.{TermIsIn};
ghost use Rattle.nq_kernel.specs.Growing.{WorkStands};
ghost use Rattle.nq_kernel.specs.Ready.{IsReady};
ghost use Rattle.nq_eval.specs.Lines.{GrowsUncounted, IsUsable};
ghost use Rattle.nq_eval.specs.Answers.{IsValueWithLine};
ghost use Rattle.nq_evaluated.specs.Values.{IsProvedByValue};

use crate::ground::is_ground;
use nq_bank::TermId;
use nq_eval::{EvalAnswer, evaluate, is_falsity, lemma_line};
use nq_history::History;
use nq_kernel::Work;
use std::alloc::AllocError;

/// The greatest depth of a term that has a value.
const TERM_DEPTH: u32 = 3900;

/// Proves a goal by its value: some line exactly where the goal is ground, not too deep, and has a value other than F. The
/// line holds only the goal. No step is counted. It fails only for want of memory; log and bank may have grown then all the
/// same, and also where the goal has no such value.
pub fn prove_by_value(
    work: &mut Work,
    history: &History,
    goal: TermId,
) -> Result<Option<u64>, AllocError>
    requires stands { WorkStands history.now work.old }
    requires goal { Stands work.old.bank goal }
    requires over { TermIsIn work.old.bank history.now goal }
    requires ready { IsReady (events_at work.old.bank history.now) }
    ensures answer { IfOk result (IsProvedByValue history.now work.old work.new goal) }
    ensures grows { GrowsUncounted history.now work.old work.new }
{
    if work.bank.depth(goal) > TERM_DEPTH {
        return Ok(None);
    }
    if is_ground(&work.bank, goal)? {
        prove_ground(work, history, goal)
    } else {
        Ok(None)
    }
}

/// Proves a goal that has no variable.
fn prove_ground(work: &mut Work, history: &History, goal: TermId) -> Result<Option<u64>, AllocError>
    requires stands { WorkStands history.now work.old }
    requires goal { IsUsable work.old.bank history.now goal }
    requires ground { variables_of (term_at work.old.bank goal) ≡ [] }
    requires ready { IsReady (events_at work.old.bank history.now) }
    ensures answer { IfOk result (IsProvedByValue history.now work.old work.new goal) }
    ensures grows { GrowsUncounted history.now work.old work.new }
{
    match evaluate(work, history, goal)? {
        EvalAnswer::Value(value, line) => prove_from_value(work, history, goal, value, line),
        EvalAnswer::Blocked(_) => Ok(None),
        EvalAnswer::Fuel => Ok(None),
    }
}

/// Proves a goal that has this value, from the line of their equation.
fn prove_from_value(
    work: &mut Work,
    history: &History,
    goal: TermId,
    value: TermId,
    line: u64,
) -> Result<Option<u64>, AllocError>
    requires stands { WorkStands history.now work.old }
    requires goal { IsUsable work.old.bank history.now goal }
    requires ground { variables_of (term_at work.old.bank goal) ≡ [] }
    requires value { IsValueWithLine history.now work.old goal value line }
    ensures answer { IfOk result (IsProvedByValue history.now work.old work.new goal) }
    ensures grows { GrowsUncounted history.now work.old work.new }
{
    if is_falsity(&work.bank, value) {
        return Ok(None);
    }
    let proved = lemma_line(work, history, goal, value, line)?;
    Ok(Some(proved))
}
