//! Goals that have counterexamples among small values: no work is spent on them. It decides only what is tried.
ghost use Rattle.std.specs.Prelude.{◌≡◌, Err};

use nq_bank::TermId;
use nq_counterexamples::{is_one_refuted, is_refuted};
use nq_history::History;
use nq_kernel::{Stop, Work};

/// Has a goal a counterexample?
pub fn is_false(work: &Work, history: &History, goal: &[TermId]) -> Result<bool, Stop>
    ensures { result ≡ Err Stop.OutOfSteps → ⊥ }
{
    match is_refuted(&work.bank, history, goal) {
        Ok(refuted) => Ok(refuted),
        Err(_) => Err(Stop::Memory),
    }
}

/// Has one of these goals a counterexample?
pub fn is_one_false(work: &Work, history: &History, goals: &[Vec<TermId>]) -> Result<bool, Stop>
    ensures { result ≡ Err Stop.OutOfSteps → ⊥ }
{
    match is_one_refuted(&work.bank, history, goals) {
        Ok(refuted) => Ok(refuted),
        Err(_) => Err(Stop::Memory),
    }
}
