//! ELIM, the steps of the way back: from the line of the goal where the rule's hypotheses hold to that of the goal itself.
ghost use Rattle.std.specs.Prelude.{◌≡◌, ◌∷◌, ◌++◌, map, All, IfOk, Err};
ghost use Rattle.nq_logic.specs.Words.{not_term};
ghost use Rattle.nq_goals.specs.Eliminating.{hypothesis_goal};
ghost use Rattle.nq_bank.specs.Content.{term_at, terms_at};
ghost use Rattle.nq_kernel.specs.Growing.{WorkStands, WorkGrows};
ghost use Rattle.nq_lines.specs.Lines.{IsTermIn, LineHasOnly};
ghost use Rattle.nq_moves.specs.Eliminated.{HoldFirst, IsElimination, made_goal, stated_goal, whole_goal};

use crate::back::{rewrite_back, swap_by};
use crate::moved::Eliminated;
use crate::renaming::{copied_pairs, put_back};
use nq_bank::TermId;
use nq_history::History;
use nq_kernel::{Stop, Work};
use nq_lines::cut;

/// Adds the line of the renamed literals beside the denied equation, from that with what the variable is made of in its place.
fn variable_back(
    work: &mut Work,
    history: &History,
    goal: &[TermId],
    e: &Eliminated,
    line: u64,
) -> Result<u64, Stop>
    requires stands { WorkStands history.now work.old }
    requires serves { IsElimination history.now work.old goal.now e.now }
    requires line { LineHasOnly work.old line (made_goal work.old.bank e.now) }
    ensures line { IfOk result (λ n. LineHasOnly work.new n (term_at work.old.bank e.now.denial ∷ terms_at work.old.bank e.now.renamed.items)) }
    ensures grows { WorkGrows history.now work.old work.new }
    ensures out { result ≡ Err Stop.OutOfSteps → work.new.counter.used ≡ work.new.counter.limit }
{
    let _ = goal.len();
    let swap = swap_by(work, history, e.denial, e.variable, e.made_of)?;
    rewrite_back(work, history, swap, e.renamed.as_slice(), line)
}

/// Adds the line of the goal where the equation and the hypotheses hold, from that of the renamed literals.
fn names_back(
    work: &mut Work,
    history: &History,
    goal: &[TermId],
    e: &Eliminated,
    line: u64,
) -> Result<u64, Stop>
    requires stands { WorkStands history.now work.old }
    requires serves { IsElimination history.now work.old goal.now e.now }
    requires line { LineHasOnly work.old line (term_at work.old.bank e.now.denial ∷ terms_at work.old.bank e.now.renamed.items) }
    ensures line { IfOk result (λ n. LineHasOnly work.new n (whole_goal work.old.bank goal.now e.now)) }
    ensures grows { WorkGrows history.now work.old work.new }
    ensures out { result ≡ Err Stop.OutOfSteps → work.new.counter.used ≡ work.new.counter.limit }
{
    let _ = goal.len();
    let pairs = copied_pairs(work.bank.alloc(), e.pairs.as_slice())?;
    put_back(work, history, line, pairs)
}

/// Adds the line of the goal where the hypotheses hold, from that where the equation holds too.
fn equation_back(
    work: &mut Work,
    history: &History,
    goal: &[TermId],
    e: &Eliminated,
    line: u64,
) -> Result<u64, Stop>
    requires stands { WorkStands history.now work.old }
    requires serves { IsElimination history.now work.old goal.now e.now }
    requires line { LineHasOnly work.old line (whole_goal work.old.bank goal.now e.now) }
    ensures line { IfOk result (λ n. LineHasOnly work.new n (stated_goal work.old.bank goal.now e.now)) }
    ensures grows { WorkGrows history.now work.old work.new }
    ensures out { result ≡ Err Stop.OutOfSteps → work.new.counter.used ≡ work.new.counter.limit }
{
    let _ = goal.len();
    cut(work, history, e.line, line, e.equation)
}

/// Adds the line of the goal where the hypotheses hold, from that of the goal to which the elimination leads.
pub fn stated_back(
    work: &mut Work,
    history: &History,
    goal: &[TermId],
    e: &Eliminated,
    line: u64,
) -> Result<u64, Stop>
    requires stands { WorkStands history.now work.old }
    requires goal { All (IsTermIn history.now work.old) goal.now }
    requires serves { IsElimination history.now work.old goal.now e.now }
    requires line { LineHasOnly work.old line (made_goal work.old.bank e.now) }
    ensures line { IfOk result (λ n. LineHasOnly work.new n (stated_goal work.old.bank goal.now e.now)) }
    ensures grows { WorkGrows history.now work.old work.new }
    ensures out { result ≡ Err Stop.OutOfSteps → work.new.counter.used ≡ work.new.counter.limit }
{
    let renamed = variable_back(work, history, goal, e, line)?;
    let whole = names_back(work, history, goal, e, renamed)?;
    equation_back(work, history, goal, e, whole)
}

/// Adds the line of a goal, from that where hypotheses hold, and from those of the goals of the hypotheses.
pub fn hypotheses_back(
    work: &mut Work,
    history: &History,
    goal: &[TermId],
    hypotheses: &[TermId],
    lines: &[u64],
    line: u64,
) -> Result<u64, Stop>
    requires stands { WorkStands history.now work.old }
    requires hypotheses { All (IsTermIn history.now work.old) hypotheses.now }
    requires lines { HoldFirst work.old (map (hypothesis_goal (terms_at work.old.bank goal.now)) (terms_at work.old.bank hypotheses.now)) lines.now }
    requires line { LineHasOnly work.old line (terms_at work.old.bank goal.now ++ map not_term (terms_at work.old.bank hypotheses.now)) }
    ensures line { IfOk result (λ n. LineHasOnly work.new n (terms_at work.old.bank goal.now)) }
    ensures grows { WorkGrows history.now work.old work.new }
    ensures out { result ≡ Err Stop.OutOfSteps → work.new.counter.used ≡ work.new.counter.limit }
{
    let _ = goal.len();
    let mut left = line;
    for i in 0..hypotheses.len() {
        left = cut(work, history, lines[i], left, hypotheses[i])?;
    }
    Ok(left)
}
