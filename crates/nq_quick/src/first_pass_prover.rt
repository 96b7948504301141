//! The prover that has the first pass only.
ghost use Rattle.nq_kernel.specs.Proving.{HasGround};

use crate::first_pass::quick;
use nq_bank::{Bank, TermId};
use nq_history::{Hints, History};
use nq_kernel::{Proof, Prover, Verdict, Work};
use std::alloc::AllocError;

/// Proves lemmas by the first pass, and knows no way yet where that doesn't prove them. It keeps nothing of a history, and
/// hints say nothing to it.
#[derive(Clone, Copy)]
pub struct FirstPass;

impl FirstPass {
    /// The first pass. It has learnt any history.
    pub fn new() -> FirstPass
        ensures { HasGround (λ _. Unit {0}) }
    {
        FirstPass
    }
}

impl Prover for FirstPass {
    ghost has_learnt = { λ _ _. Unit {0} };

    fn learn(&mut self, bank: &Bank, history: &History) -> Result<(), AllocError> {
        Ok(())
    }

    fn forget(&mut self, kept: u64) {}

    fn prove(
        &mut self,
        work: &mut Work,
        history: &History,
        goal: TermId,
        hints: &Hints,
    ) -> Result<Verdict, AllocError> {
        match quick(work, history, goal)? {
            Some((way, line)) => Ok(Verdict::Proved(line, Proof::First(way))),
            None => Ok(Verdict::NotYet(Vec::new(work.bank.alloc()))),
        }
    }
}
