//! What becomes of an obligation that the axioms of shells or a prover may show: the line of its clause, or why there is none.
ghost use Rattle.std.specs.Prelude.{◌≡◌, ◌<◌, All, IfOk, List, false, length};
ghost use Rattle.nq_logic.specs.Admissible.{mentions};
ghost use Rattle.nq_logic.specs.Shells.{either_of};
ghost use Rattle.nq_bank.specs.Content.{Content, IsNamed, Stands, IsIdOf, text_at, term_at, terms_at};
ghost use Rattle.nq_history.specs.declared.entry.Entry.{Entry};
ghost use Rattle.nq_history.specs.Events.{events_at};
ghost use Rattle.nq_history.specs.Hints.{HintsStand};
ghost use Rattle.nq_kernel.specs.Growing.{WorkStands, WorkGrows, LineHolds};
ghost use Rattle.nq_kernel.specs.Hints.{HintsAreIn};
ghost use Rattle.nq_kernel.specs.Over.{TermIsIn};
ghost use Rattle.nq_kernel.specs.Ready.{IsReady, WorkHolds};
ghost use Rattle.nq_replay.specs.LawClauses.{choice_opens_clause};
ghost use Rattle.nq_measures.specs.Judging.{IsJudged, IsFallJudged, AreIn};

use crate::openings::{nest_of, open_nest};
use nq_bank::{BankFault, Sym, TermId};
use nq_calls::mentions_at;
use nq_descents::descent_line;
use nq_history::{Hints, History};
use nq_kernel::{Cause, Path, Prover, Verdict, Work, held_work};
use std::alloc::{AllocError, Global};

/// The greatest depth of a nest that can be opened: its NOT has to stand, too.
const NEST_LIMIT: u32 = 3999;

/// Why an obligation is not proved.
#[derive(Drop)]
pub enum Why {
    /// It mentions the function.
    Mentions,
    /// Its term is too deep for the NOT of it to stand.
    TooDeep,
    /// The prover has failed, with a tree of goals one of which is left over by the cause.
    Failed(Path, Cause),
    /// The counter is at its limit.
    OutOfSteps,
    /// The prover knows no way yet past the goals of a tree.
    NotYet(Path),
}

/// What becomes of an obligation.
#[derive(Drop)]
pub enum Judged {
    /// The line of this number has only its literals.
    Shown(u64),
    /// It is not proved.
    Open(Why),
}

/// No hints.
fn no_hints(alloc: Global) -> Hints
    ensures stand { (bank : Content) → HintsStand bank result }
    ensures terms { (bank : Content) (history : List Entry) → HintsAreIn bank history result }
{
    Hints {
        instances: Vec::new(alloc),
        enable: Vec::new(alloc),
        disable: Vec::new(alloc),
        expand: Vec::new(alloc),
        induct: None,
        hands_off: Vec::new(alloc),
        no_induct: false,
        no_generalize: false,
        no_arith: false,
    }
}

/// Shows an obligation by the axioms of shells, or else hands it to the prover.
pub fn judge<P: Prover>(
    prover: &mut P,
    work: &mut Work,
    history: &History,
    law: u64,
    literals: &[TermId],
) -> Result<Judged, AllocError>
    requires stands { WorkStands history.now work.old }
    requires learnt { P.has_learnt prover.old history.now }
    requires ready { IsReady (events_at work.old.bank history.now) }
    requires holds { WorkHolds history.now work.old }
    requires law { LineHolds work.old law choice_opens_clause }
    requires some { 0 < length literals.now }
    requires stand { All (Stands work.old.bank) literals.now }
    requires over { AreIn (events_at work.old.bank history.now) (terms_at work.old.bank literals.now) }
    ensures learnt { P.has_learnt prover.new history.now }
    ensures grows { WorkGrows history.now work.old work.new }
    ensures holds { WorkHolds history.now work.new }
    ensures told { IfOk result (λ j. IsJudged (events_at work.old.bank history.now) work.new (terms_at work.old.bank literals.now) j) }
{
    held_work();
    match descent_line(work, history, literals)? {
        Some(line) => Ok(Judged::Shown(line)),
        None => judge_by_prover(prover, work, history, law, literals),
    }
}

/// Hands an obligation to the prover as the nest of its literals.
fn judge_by_prover<P: Prover>(
    prover: &mut P,
    work: &mut Work,
    history: &History,
    law: u64,
    literals: &[TermId],
) -> Result<Judged, AllocError>
    requires stands { WorkStands history.now work.old }
    requires learnt { P.has_learnt prover.old history.now }
    requires ready { IsReady (events_at work.old.bank history.now) }
    requires holds { WorkHolds history.now work.old }
    requires law { LineHolds work.old law choice_opens_clause }
    requires some { 0 < length literals.now }
    requires stand { All (Stands work.old.bank) literals.now }
    requires over { AreIn (events_at work.old.bank history.now) (terms_at work.old.bank literals.now) }
    ensures learnt { P.has_learnt prover.new history.now }
    ensures grows { WorkGrows history.now work.old work.new }
    ensures holds { WorkHolds history.now work.new }
    ensures told { IfOk result (λ j. IsJudged (events_at work.old.bank history.now) work.new (terms_at work.old.bank literals.now) j) }
{
    held_work();
    match nest_of(&mut work.bank, literals) {
        Ok(nest) => judge_nest(prover, work, history, law, literals, nest),
        Err(BankFault::Deep) => Ok(Judged::Open(Why::TooDeep)),
        Err(BankFault::Memory) => Err(AllocError),
    }
}

/// Hands the nest of an obligation's literals to the prover.
fn judge_nest<P: Prover>(
    prover: &mut P,
    work: &mut Work,
    history: &History,
    law: u64,
    literals: &[TermId],
    nest: TermId,
) -> Result<Judged, AllocError>
    requires stands { WorkStands history.now work.old }
    requires learnt { P.has_learnt prover.old history.now }
    requires ready { IsReady (events_at work.old.bank history.now) }
    requires holds { WorkHolds history.now work.old }
    requires law { LineHolds work.old law choice_opens_clause }
    requires some { 0 < length literals.now }
    requires stand { All (Stands work.old.bank) literals.now }
    requires nest { IsIdOf work.old.bank nest (either_of (terms_at work.old.bank literals.now)) }
    requires over { TermIsIn work.old.bank history.now nest }
    ensures learnt { P.has_learnt prover.new history.now }
    ensures grows { WorkGrows history.now work.old work.new }
    ensures holds { WorkHolds history.now work.new }
    ensures told { IfOk result (λ j. IsJudged (events_at work.old.bank history.now) work.new (terms_at work.old.bank literals.now) j) }
{
    held_work();
    if work.bank.depth(nest) > NEST_LIMIT {
        return Ok(Judged::Open(Why::TooDeep));
    }
    let hints = no_hints(work.bank.alloc());
    match prover.prove(work, history, nest, &hints)? {
        Verdict::Proved(line, _) => {
            let line = open_nest(work, history, law, literals, nest, line)?;
            Ok(Judged::Shown(line))
        }
        Verdict::Failed(path, cause) => Ok(Judged::Open(Why::Failed(path, cause))),
        Verdict::OutOfSteps => Ok(Judged::Open(Why::OutOfSteps)),
        Verdict::NotYet(path) => Ok(Judged::Open(Why::NotYet(path))),
    }
}

/// Hands the obligation of a call to the prover, unless the measure at the call's arguments mentions the function.
pub fn judge_fall<P: Prover>(
    prover: &mut P,
    work: &mut Work,
    history: &History,
    law: u64,
    f: Sym,
    smaller: TermId,
    literals: &[TermId],
) -> Result<Judged, AllocError>
    requires stands { WorkStands history.now work.old }
    requires learnt { P.has_learnt prover.old history.now }
    requires ready { IsReady (events_at work.old.bank history.now) }
    requires holds { WorkHolds history.now work.old }
    requires law { LineHolds work.old law choice_opens_clause }
    requires function { IsNamed work.old.bank f }
    requires smaller { Stands work.old.bank smaller }
    requires some { 0 < length literals.now }
    requires stand { All (Stands work.old.bank) literals.now }
    requires over { mentions (text_at work.old.bank f) (term_at work.old.bank smaller) ≡ false → AreIn (events_at work.old.bank history.now) (terms_at work.old.bank literals.now) }
    ensures learnt { P.has_learnt prover.new history.now }
    ensures grows { WorkGrows history.now work.old work.new }
    ensures holds { WorkHolds history.now work.new }
    ensures told { IfOk result (λ j. IsFallJudged (events_at work.old.bank history.now) work.new (mentions (text_at work.old.bank f) (term_at work.old.bank smaller)) (terms_at work.old.bank literals.now) j) }
{
    if mentions_at(&work.bank, f, smaller)? {
        return Ok(Judged::Open(Why::Mentions));
    }
    judge(prover, work, history, law, literals)
}
