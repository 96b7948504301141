//! The first pass.
ghost use Rattle.std.specs.Prelude.{◌≡◌, IfOk, MatchOption};
ghost use Rattle.nq_fragments.specs.Evaluation.{HasTrueValue};
ghost use Rattle.nq_fragments.specs.Instances.{IsEarlierInstance};
ghost use Rattle.nq_fragments.specs.Tautologies.{IsSmallTautology};
ghost use Rattle.nq_bank.specs.Content.{Stands, term_at};
ghost use Rattle.nq_history.specs.Events.{events_at};
ghost use Rattle.nq_kernel.specs.Over.{TermIsIn};
ghost use Rattle.nq_kernel.specs.Growing.{WorkStands, WorkGrows};
ghost use Rattle.nq_kernel.specs.Ready.{IsReady};
ghost use Rattle.nq_quick.specs.Lines.{GrowsUncounted};
ghost use Rattle.nq_quick.specs.Answers.{IsInstanceLine, IsQuickAnswer};

use crate::earlier::earlier_instance;
use crate::instance_lines::prove_instance;
use crate::proving::prove_tautology;
use crate::tautology::small_tautology;
use nq_bank::TermId;
use nq_evaluated::prove_by_value;
use nq_history::History;
use nq_kernel::{Quick, Work};
use std::alloc::AllocError;

/// Proves a goal at once, where it is a small tautology, or else ground with a value other than F, or else an instance of an
/// axiom or lemma of the history: the answer has the first of the three that it is, and a line that holds only the goal. No
/// step is counted. It fails only for want of memory; log and bank may have grown then all the same, and also where the goal
/// isn't proved.
pub fn quick(
    work: &mut Work,
    history: &History,
    goal: TermId,
) -> Result<Option<(Quick, u64)>, AllocError>
    requires stands { WorkStands history.now work.old }
    requires goal { Stands work.old.bank goal }
    requires over { TermIsIn work.old.bank history.now goal }
    requires ready { IsReady (events_at work.old.bank history.now) }
    ensures answer { IfOk result (IsQuickAnswer history.now work.old work.new goal) }
    ensures grows { WorkGrows history.now work.old work.new }
    ensures uncounted { work.new.counter ≡ work.old.counter }
{
    match small_tautology(&work.bank, goal)? {
        Some(others) => {
            let line = prove_tautology(work, history, goal, others.as_slice())?;
            Ok(Some((Quick::Taut, line)))
        }
        None => prove_no_tautology(work, history, goal),
    }
}

/// Proves a goal that is no small tautology: by its value, or else as an instance.
fn prove_no_tautology(
    work: &mut Work,
    history: &History,
    goal: TermId,
) -> Result<Option<(Quick, u64)>, AllocError>
    requires stands { WorkStands history.now work.old }
    requires goal { Stands work.old.bank goal }
    requires over { TermIsIn work.old.bank history.now goal }
    requires ready { IsReady (events_at work.old.bank history.now) }
    requires no_tautology { IsSmallTautology (term_at work.old.bank goal) → ⊥ }
    ensures answer { IfOk result (IsQuickAnswer history.now work.old work.new goal) }
    ensures grows { GrowsUncounted history.now work.old work.new }
{
    match prove_by_value(work, history, goal)? {
        Some(line) => Ok(Some((Quick::Eval, line))),
        None => prove_without_value(work, history, goal),
    }
}

/// Proves a goal as an instance that is no small tautology and has no value but F.
fn prove_without_value(
    work: &mut Work,
    history: &History,
    goal: TermId,
) -> Result<Option<(Quick, u64)>, AllocError>
    requires stands { WorkStands history.now work.old }
    requires goal { Stands work.old.bank goal }
    requires over { TermIsIn work.old.bank history.now goal }
    requires ready { IsReady (events_at work.old.bank history.now) }
    requires no_tautology { IsSmallTautology (term_at work.old.bank goal) → ⊥ }
    requires no_value { HasTrueValue (events_at work.old.bank history.now) (term_at work.old.bank goal) → ⊥ }
    ensures answer { IfOk result (IsQuickAnswer history.now work.old work.new goal) }
    ensures grows { GrowsUncounted history.now work.old work.new }
{
    match prove_by_instance(work, history, goal)? {
        Some(line) => Ok(Some((Quick::Inst, line))),
        None => Ok(None),
    }
}

/// Proves a goal where it is an instance of an axiom or lemma of the history.
fn prove_by_instance(
    work: &mut Work,
    history: &History,
    goal: TermId,
) -> Result<Option<u64>, AllocError>
    requires stands { WorkStands history.now work.old }
    requires goal { Stands work.old.bank goal }
    requires over { TermIsIn work.old.bank history.now goal }
    requires ready { IsReady (events_at work.old.bank history.now) }
    ensures answer { IfOk result (λ found. MatchOption found (IsEarlierInstance (events_at work.old.bank history.now) (term_at work.old.bank goal) → ⊥) (IsInstanceLine history.now work.old work.new goal)) }
    ensures grows { GrowsUncounted history.now work.old work.new }
{
    match earlier_instance(&work.bank, history, goal)? {
        Some(found) => {
            let line = prove_instance(work, history, goal, &found)?;
            Ok(Some(line))
        }
        None => Ok(None),
    }
}
