//! Goals that hold T.
ghost use Rattle.std.specs.Prelude.{◌≡◌, IfOk, IfSome, IsTrue, Err};
ghost use Rattle.nq_logic.specs.Terms.{IsAmong};
ghost use Rattle.nq_logic.specs.Words.{true_term};
ghost use Rattle.nq_bank.specs.Content.{IsIdOf, terms_at};
ghost use Rattle.nq_kernel.specs.Growing.{WorkStands, WorkGrows};
ghost use Rattle.nq_lines.specs.Lines.{LineHasOnly};

use nq_bank::{TermId, ground, ground_name};
use nq_history::History;
use nq_kernel::{Stop, Work};
use nq_lines::{row_line, truth};

/// Is a term among these? Where it is, the answer is right.
fn stands_among(t: TermId, terms: &[TermId]) -> bool
    ensures { IsTrue result → IsAmong t terms.now }
{
    for u in terms {
        if u.0 == t.0 {
            return true;
        }
    }
    false
}

/// Adds the line of T, which is a literal of the goal.
fn add_truth(
    work: &mut Work,
    history: &History,
    goal: &[TermId],
    _shown: TermId,
) -> Result<u64, Stop>
    requires stands { WorkStands history.now work.old }
    requires truth { IsIdOf work.old.bank _shown true_term }
    requires among { IsAmong _shown goal.now }
    ensures line { IfOk result (λ n. LineHasOnly work.new n (terms_at work.new.bank goal.now)) }
    ensures grows { WorkGrows history.now work.old work.new }
    ensures out { result ≡ Err Stop.OutOfSteps → work.new.counter.used ≡ work.new.counter.limit }
{
    let name = ground_name(&work.bank, ground::TRUE);
    row_line(work, history, name, 1, 0)
}

/// The line of T, where the goal has that literal.
pub fn truth_line(work: &mut Work, history: &History, goal: &[TermId]) -> Result<Option<u64>, Stop>
    requires stands { WorkStands history.now work.old }
    ensures line { IfOk result (λ found. IfSome found (λ n. LineHasOnly work.new n (terms_at work.new.bank goal.now))) }
    ensures grows { WorkGrows history.now work.old work.new }
    ensures out { result ≡ Err Stop.OutOfSteps → work.new.counter.used ≡ work.new.counter.limit }
{
    let shown = truth(work, history)?;
    if stands_among(shown, goal) {
        let line = add_truth(work, history, goal, shown)?;
        Ok(Some(line))
    } else {
        Ok(None)
    }
}
