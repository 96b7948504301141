//! Whether a goal is false.
ghost use Rattle.std.specs.Prelude.{◌≡◌, ◌↔◌, All, IfOk, IsTrue};
ghost use Rattle.nq_bank.specs.Content.{term_at, terms_at};
ghost use Rattle.nq_history.specs.Events.{events_at};
ghost use Rattle.nq_kernel.specs.Growing.{WorkStands};
ghost use Rattle.nq_eval.specs.Lines.{GrowsUncounted};
ghost use Rattle.nq_kernel.specs.Ready.{IsReady};
ghost use Rattle.nq_goals.specs.Spent.{IsFalse, IsGround};
ghost use Rattle.nq_ground_goals.specs.Literals.{IsLiteral};

use crate::literal::is_false_literal;
use nq_bank::TermId;
use nq_history::History;
use nq_kernel::Work;
use nq_normal::is_ground;
use std::alloc::AllocError;

/// Have all literals of a ground goal the value F?
fn are_false(work: &mut Work, history: &History, goal: &[TermId]) -> Result<bool, AllocError>
    requires stands { WorkStands history.now work.old }
    requires ready { IsReady (events_at work.old.bank history.now) }
    requires literals { All (IsLiteral work.old.bank history.now) goal.now }
    requires without { IsGround (terms_at work.old.bank goal.now) }
    ensures answer { IfOk result (λ answer. IsTrue answer ↔ IsFalse (events_at work.old.bank history.now) (terms_at work.old.bank goal.now)) }
    ensures grows { GrowsUncounted history.now work.old work.new }
{
    match goal {
        [] => Ok(true),
        [first, rest @ ..] => {
            if is_false_literal(work, history, *first)? {
                let answer = are_false(work, history, rest)?;
                Ok(answer)
            } else {
                Ok(false)
            }
        }
    }
}

/// Is the goal false: has it no literal, or are all its literals ground with the value F? No step is counted. It fails only for
/// want of memory.
pub fn is_false(work: &mut Work, history: &History, goal: &[TermId]) -> Result<bool, AllocError>
    requires stands { WorkStands history.now work.old }
    requires ready { IsReady (events_at work.old.bank history.now) }
    requires literals { All (IsLiteral work.old.bank history.now) goal.now }
    ensures answer { IfOk result (λ answer. IsTrue answer ↔ IsFalse (events_at work.old.bank history.now) (terms_at work.old.bank goal.now)) }
    ensures grows { GrowsUncounted history.now work.old work.new }
{
    if is_ground(&work.bank, goal)? {
        let answer = are_false(work, history, goal)?;
        Ok(answer)
    } else {
        Ok(false)
    }
}
