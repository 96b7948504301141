//! Literals that are refuted.
ghost use Rattle.std.specs.Prelude.{◌≡◌, All, IfOk, IfSome, Err};
ghost use Rattle.nq_kernel.specs.Growing.{LineStands, WorkGrows, WorkStands};
ghost use Rattle.nq_lines.specs.Lines.{IsTermIn};

use crate::making::push_term;
use crate::reading::copied;
use nq_bank::TermId;
use nq_history::History;
use nq_kernel::{Stop, Work};
use nq_linear::{LinearAnswer, eliminates, refute};

/// Adds the line of literals that are refuted, if they are.
pub fn refuted(work: &mut Work, history: &History, literals: &[TermId]) -> Result<Option<u64>, Stop>
    requires stands { WorkStands history.now work.old }
    requires literals { All (IsTermIn history.now work.old) literals.now }
    ensures line { IfOk result (λ found. IfSome found (λ n. LineStands work.new n)) }
    ensures grows { WorkGrows history.now work.old work.new }
    ensures out { result ≡ Err Stop.OutOfSteps → work.new.counter.used ≡ work.new.counter.limit }
{
    match refute(work, history, literals)? {
        LinearAnswer::Refuted(line) => Ok(Some(line)),
        LinearAnswer::Nothing => Ok(None),
        LinearAnswer::Passes(_, _) => Ok(None),
        LinearAnswer::Wide(_) => Ok(None),
        LinearAnswer::TooMany => Ok(None),
    }
}

/// Literals, and one more.
pub fn with_literal(
    work: &Work,
    history: &History,
    literals: &[TermId],
    more: TermId,
) -> Result<Vec<TermId>, Stop>
    requires literals { All (IsTermIn history.now work.now) literals.now }
    requires more { IsTermIn history.now work.now more }
    ensures literals { IfOk result (λ ts. All (IsTermIn history.now work.now) ts.items) }
    ensures memory { result ≡ Err Stop.OutOfSteps → ⊥ }
{
    let mut all = copied(work, history, literals)?;
    push_term(&mut all, more)?;
    Ok(all)
}

/// Does linear arithmetic refute literals? No line is added, and that some are is only a guess.
pub fn are_refuted(work: &Work, history: &History, literals: &[TermId]) -> Result<bool, Stop>
    requires literals { All (IsTermIn history.now work.now) literals.now }
    ensures memory { result ≡ Err Stop.OutOfSteps → ⊥ }
{
    let _ = history.shells();
    match eliminates(&work.bank, literals) {
        Ok(refuted) => Ok(refuted),
        Err(_) => Err(Stop::Memory),
    }
}
