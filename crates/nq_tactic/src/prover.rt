//! The prover: the first pass, and then the search. A lemma that is in a fragment is proved there, without counting a step, and so is
//! one that is hinted. Another is searched for, and where the search finds a line with only the lemma, it is proved by that.
ghost use Rattle.std.specs.Prelude.{IfOk};
ghost use Rattle.nq_bank.specs.Content.{term_at};
ghost use Rattle.nq_history.specs.Events.{events_at};
ghost use Rattle.nq_fragments.specs.Fragments.{IsInNoFragment};
ghost use Rattle.nq_kernel.specs.Growing.{WorkGrows};
ghost use Rattle.nq_kernel.specs.Proving.{HasGround, IsFirstPass, IsTold};
ghost use Rattle.nq_lines.specs.Lines.{IsTermIn};
ghost use Rattle.nq_rule_table.specs.Tables.{WasTaught};
ghost use Rattle.nq_search.specs.Goals.{CanSearch};

use crate::lemmas::seek_lemma;
use nq_bank::{Bank, TermId};
use nq_hinted::prove_hinted;
use nq_history::{Hints, History};
use nq_kernel::{Proof, Prover, Stop, Verdict, Work, ready_histories};
use nq_quick::quick;
use nq_rule_table::Rules;
use std::alloc::{AllocError, Global};

/// Proves lemmas by the first pass, and where that doesn't prove them by a search. It keeps the rules of the history.
#[derive(Drop)]
pub struct Searcher {
    /// The rules of class REWRITE of the history.
    pub rules: Rules,
}

impl Searcher {
    /// The prover. It has learnt the ground history.
    pub fn new(alloc: Global) -> Searcher
        ensures { HasGround (WasTaught result.rules) }
    {
        Searcher {
            rules: Rules::new(alloc),
        }
    }
}

impl Prover for Searcher {
    ghost has_learnt = { λ searcher entries. WasTaught searcher.rules entries };

    fn learn(&mut self, bank: &Bank, history: &History) -> Result<(), AllocError> {
        self.rules.learn(bank, history)
    }

    fn forget(&mut self, kept: u64) {
        self.rules.forget(kept);
    }

    fn prove(
        &mut self,
        work: &mut Work,
        history: &History,
        goal: TermId,
        hints: &Hints,
    ) -> Result<Verdict, AllocError> {
        ready_histories();
        match quick(work, history, goal)? {
            Some((way, line)) => Ok(Verdict::Proved(line, Proof::First(way))),
            None => hinted(work, history, goal, hints, &self.rules),
        }
    }
}

/// Proves a lemma that no fragment holds: at once where it is hinted, and else by a search.
fn hinted(
    work: &mut Work,
    history: &History,
    goal: TermId,
    hints: &Hints,
    rules: &Rules,
) -> Result<Verdict, AllocError>
    requires can { CanSearch history.now hints.now work.old }
    requires goal { IsTermIn history.now work.old goal }
    requires none { IsInNoFragment (events_at work.old.bank history.now) (term_at work.old.bank goal) }
    ensures grows { WorkGrows history.now work.old work.new }
    ensures told { IfOk result (λ v. IsTold work.new (term_at work.old.bank goal) v) }
    ensures first { IfOk result (λ v. IsFirstPass (events_at work.old.bank history.now) (term_at work.old.bank goal) v) }
{
    let alloc = work.bank.alloc();
    ready_histories();
    match prove_hinted(work, history, hints, goal)? {
        // the trace of the proof shows no goal
        Some(line) => Ok(Verdict::Proved(line, Proof::Waterfall(Vec::new(alloc)))),
        None => searched(work, history, goal, hints, rules),
    }
}

/// Searches for a lemma that no fragment holds.
fn searched(
    work: &mut Work,
    history: &History,
    goal: TermId,
    hints: &Hints,
    rules: &Rules,
) -> Result<Verdict, AllocError>
    requires can { CanSearch history.now hints.now work.old }
    requires goal { IsTermIn history.now work.old goal }
    requires none { IsInNoFragment (events_at work.old.bank history.now) (term_at work.old.bank goal) }
    ensures grows { WorkGrows history.now work.old work.new }
    ensures told { IfOk result (λ v. IsTold work.new (term_at work.old.bank goal) v) }
    ensures first { IfOk result (λ v. IsFirstPass (events_at work.old.bank history.now) (term_at work.old.bank goal) v) }
{
    let alloc = work.bank.alloc();
    match seek_lemma(work, history, hints, rules, goal) {
        // the trace of the proof shows no goal yet
        Ok(Some(line)) => Ok(Verdict::Proved(line, Proof::Waterfall(Vec::new(alloc)))),
        Ok(None) => Ok(Verdict::NotYet(Vec::new(alloc))),
        Err(Stop::OutOfSteps) => Ok(Verdict::OutOfSteps),
        Err(Stop::Memory) => Err(AllocError),
    }
}
