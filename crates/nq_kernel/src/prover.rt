ghost use Rattle.std.specs.Prelude.{List, take, IfOk, OnOk, OnErr};
ghost use Rattle.nq_bank.specs.Content.{Stands, term_at};
ghost use Rattle.nq_history.specs.declared.entry.Entry.{Entry};
ghost use Rattle.nq_history.specs.Events.{events_at, HistoryStands};
ghost use Rattle.nq_kernel.specs.Growing.{WorkStands, WorkGrows};
ghost use Rattle.nq_history.specs.Hints.{HintsStand};
ghost use Rattle.nq_kernel.specs.Hints.{HintsAreIn};
ghost use Rattle.nq_kernel.specs.Over.{TermIsIn};
ghost use Rattle.nq_kernel.specs.Proving.{AllButLast, AtLeast, IsFirstPass, IsTold};
ghost use Rattle.nq_kernel.specs.Ready.{IsReady, WorkHolds};

use crate::verdict::Verdict;
use crate::work::Work;
use nq_bank::{Bank, TermId};
use nq_history::{Hints, History};
use std::alloc::AllocError;

/// What proves lemmas in a history whose entries it has learnt.
pub trait Prover {
    /// That it has learnt these entries, and nothing else.
    ghost has_learnt: { Self → List Entry → Type 0 };

    /// Learns the last entry of a history, whose other entries it has learnt. After an error it has learnt what it had
    /// before.
    fn learn(&mut self, bank: &Bank, history: &History) -> Result<(), AllocError>
        requires stands { HistoryStands bank.now history.now }
        requires learnt { AllButLast (has_learnt self.old) history.now }
        ensures ok { OnOk result (has_learnt self.new history.now) }
        ensures err { OnErr result ((entries : List Entry) → has_learnt self.old entries → has_learnt self.new entries) };

    /// Forgets all but the first entries, so many of them, of those that it has learnt.
    fn forget(&mut self, kept: u64)
        requires { AtLeast (has_learnt self.old) kept }
        ensures { (entries : List Entry) → has_learnt self.old entries → has_learnt self.new (take kept entries) };

    /// Proves a lemma. The line of a proof has only the lemma. A lemma is proved by a fragment exactly where it is in one,
    /// and by the first that holds it, whatever the hints are and however many steps are left. Steps run out only where the
    /// counter is at its limit. No line is dropped, and each new one is made by a rule of the history over the lines before
    /// it. Each name that is new in the bank is a symbol in upper case. Whatever it answers, it has learnt what it had
    /// learnt.
    fn prove(
        &mut self,
        work: &mut Work,
        history: &History,
        goal: TermId,
        hints: &Hints,
    ) -> Result<Verdict, AllocError>
        requires stands { WorkStands history.now work.old }
        requires learnt { has_learnt self.old history.now }
        requires goal { Stands work.old.bank goal }
        requires over { TermIsIn work.old.bank history.now goal }
        requires ready { IsReady (events_at work.old.bank history.now) }
        requires holds { WorkHolds history.now work.old }
        requires hints { HintsStand work.old.bank hints.now }
        requires hint_terms { HintsAreIn work.old.bank history.now hints.now }
        ensures learnt { has_learnt self.new history.now }
        ensures grows { WorkGrows history.now work.old work.new }
        ensures told { IfOk result (λ v. IsTold work.new (term_at work.old.bank goal) v) }
        ensures first { IfOk result (λ v. IsFirstPass (events_at work.old.bank history.now) (term_at work.old.bank goal) v) };
}
