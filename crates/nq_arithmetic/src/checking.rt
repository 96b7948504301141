//! Lines that have only a goal's literals.
ghost use Rattle.std.specs.Prelude.{All, IfSome, IsTrue};
ghost use Rattle.nq_bank.specs.Content.{terms_at};
ghost use Rattle.nq_kernel.specs.Growing.{LineStands, WorkStands};
ghost use Rattle.nq_lines.specs.Lines.{LineHasOnly};
ghost use Rattle.nq_arithmetic.specs.Claims.{IsOneOf, AreOf};

use nq_bank::TermId;
use nq_history::History;
use nq_kernel::Work;

/// Is an id one of these?
fn is_one_of(goal: &[TermId], t: TermId) -> bool
    ensures { IsTrue result → IsOneOf goal.now t }
{
    for u in goal {
        if u.0 == t.0 {
            return true;
        }
    }
    false
}

/// Are all ids among these?
fn are_of(goal: &[TermId], clause: &[TermId]) -> bool
    ensures { IsTrue result → AreOf goal.now clause.now }
{
    for t in clause {
        if !is_one_of(goal, *t) {
            return false;
        }
    }
    true
}

/// A line, where it has only literals of the goal.
pub fn checked(work: &Work, history: &History, goal: &[TermId], line: u64) -> Option<u64>
    requires stands { WorkStands history.now work.now }
    requires line { LineStands work.now line }
    ensures { IfSome result (λ n. LineHasOnly work.now n (terms_at work.now.bank goal.now)) }
{
    let clause = work.log.clause_over(&work.bank, line);
    if are_of(goal, clause) {
        Some(line)
    } else {
        None
    }
}
