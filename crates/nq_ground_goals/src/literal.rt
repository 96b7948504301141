//! Whether a literal without variables has the value F.
ghost use Rattle.std.specs.Prelude.{◌≡◌, ◌↔◌, [], IfOk, IsTrue, Some};
ghost use Rattle.nq_logic.specs.Words.{false_term};
ghost use Rattle.nq_logic.specs.RuleShapes.{variables_of};
ghost use Rattle.nq_bank.specs.Content.{term_at};
ghost use Rattle.nq_history.specs.Events.{events_at};
ghost use Rattle.nq_kernel.specs.Growing.{WorkStands};
ghost use Rattle.nq_fragments.specs.Evaluation.{outcome_of, value_reached, HasGroundValue};
ghost use Rattle.nq_eval.specs.Lines.{GrowsUncounted, IsUsable};
ghost use Rattle.nq_kernel.specs.Ready.{IsReady};
ghost use Rattle.nq_ground_goals.specs.Literals.{IsLiteral};

use nq_bank::TermId;
use nq_eval::{EvalAnswer, evaluate, is_falsity};
use nq_history::History;
use nq_kernel::Work;
use std::alloc::AllocError;

/// The greatest depth of a term that has a value.
const TERM_DEPTH: u32 = 3900;

/// Does a term evaluate to F?
fn has_value_false(work: &mut Work, history: &History, t: TermId) -> Result<bool, AllocError>
    requires stands { WorkStands history.now work.old }
    requires ready { IsReady (events_at work.old.bank history.now) }
    requires term { IsUsable work.old.bank history.now t }
    ensures answer { IfOk result (λ answer. IsTrue answer ↔ (value_reached (outcome_of (events_at work.new.bank history.now) (term_at work.new.bank t)) ≡ Some false_term)) }
    ensures grows { GrowsUncounted history.now work.old work.new }
{
    match evaluate(work, history, t)? {
        EvalAnswer::Value(value, _) => Ok(is_falsity(&work.bank, value)),
        EvalAnswer::Blocked(_) => Ok(false),
        EvalAnswer::Fuel => Ok(false),
    }
}

/// Has a literal without variables the value F? A term that is too deep has no value. No step is counted.
pub fn is_false_literal(work: &mut Work, history: &History, t: TermId) -> Result<bool, AllocError>
    requires stands { WorkStands history.now work.old }
    requires ready { IsReady (events_at work.old.bank history.now) }
    requires literal { IsLiteral work.old.bank history.now t }
    requires no_variable { variables_of (term_at work.old.bank t) ≡ [] }
    ensures answer { IfOk result (λ answer. IsTrue answer ↔ HasGroundValue (events_at work.old.bank history.now) (term_at work.old.bank t) false_term) }
    ensures grows { GrowsUncounted history.now work.old work.new }
{
    if work.bank.depth(t) > TERM_DEPTH {
        return Ok(false);
    }
    let answer = has_value_false(work, history, t)?;
    Ok(answer)
}
