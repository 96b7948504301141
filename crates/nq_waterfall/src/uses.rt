//! A lemma whose hints name instances of events: its first goal has their negations, and a proof cuts them away.
ghost use Rattle.std.specs.Prelude.{◌≡◌, ◌∷◌, ◌++◌, [], All, IfOk, OnOk, Err};
ghost use Rattle.nq_bank.specs.Content.{Stands, term_at, terms_at};
ghost use Rattle.nq_proof.specs.Clauses.{distinct};
ghost use Rattle.nq_kernel.specs.Growing.{WorkStands, WorkGrows};
ghost use Rattle.nq_lines.specs.Lines.{LineHasOnly, IsTermIn};
ghost use Rattle.nq_waterfall.specs.Ready.{CanMove, IsGoalIn};
ghost use Rattle.nq_waterfall.specs.Uses.{UseStands, IsUsed, AreInstances, denials_at, IsAnswer, IsTraceOf};
ghost use Rattle.nq_waterfall.specs.Trails.{StepStands};

use crate::first::{Outcome, solve_first};
use crate::laws::holding;
use crate::mover::Mover;
use nq_bank::{Bank, TermId};
use nq_history::{Hints, History};
use nq_kernel::{PathStep, Stop, Work};
use nq_lines::cut;
use nq_rule::clause_of;
use std::alloc::AllocError;

/// An instance of an axiom, a lemma or a definition.
#[derive(Clone, Copy, Debug)]
pub struct Used {
    /// Its term.
    pub term: TermId,
    /// The NOT of it.
    pub denied: TermId,
    /// A line with only the term.
    pub line: u64,
}

fn push(ids: &mut Vec<TermId>, t: TermId) -> Result<(), Stop>
    ensures ok { OnOk result (ids.new.items ≡ ids.old.items ++ t ∷ []) }
    ensures out { result ≡ Err Stop.OutOfSteps → ⊥ }
{
    match ids.push(t) {
        Ok(()) => Ok(()),
        Err(_) => Err(Stop::Memory),
    }
}

/// The negations of the instances in their order, and then the goal.
fn denials(bank: &Bank, uses: &[Used], goal: TermId) -> Result<Vec<TermId>, Stop>
    requires uses { All (UseStands bank.now) uses.now }
    requires goal { Stands bank.now goal }
    ensures stand { IfOk result (λ v. All (Stands bank.now) v.items) }
    ensures terms { IfOk result (λ v. terms_at bank.now v.items ≡ denials_at bank.now uses.now (term_at bank.now goal ∷ [])) }
    ensures out { result ≡ Err Stop.OutOfSteps → ⊥ }
{
    let mut ids = Vec::new(bank.alloc());
    for u in uses {
        push(&mut ids, u.denied)?;
    }
    push(&mut ids, goal)?;
    Ok(ids)
}

/// The first goal: the same without later copies.
fn first_goal(bank: &Bank, uses: &[Used], goal: TermId) -> Result<Vec<TermId>, AllocError>
    requires uses { All (UseStands bank.now) uses.now }
    requires goal { Stands bank.now goal }
    ensures stand { IfOk result (λ v. All (Stands bank.now) v.items) }
    ensures terms { IfOk result (λ v. terms_at bank.now v.items ≡ distinct (denials_at bank.now uses.now (term_at bank.now goal ∷ []))) }
{
    match denials(bank, uses, goal) {
        Err(_) => Err(AllocError),
        Ok(ids) => match clause_of(bank, ids.as_slice()) {
            Err(_) => Err(AllocError),
            Ok(clause) => Ok(clause),
        },
    }
}

/// Cuts the negations of the instances away.
fn cut_uses(
    work: &mut Work,
    history: &History,
    uses: &[Used],
    goal: TermId,
    line: u64,
) -> Result<u64, Stop>
    requires stands { WorkStands history.now work.old }
    requires uses { All (IsUsed history.now work.old) uses.now }
    requires goal { IsTermIn history.now work.old goal }
    requires line { LineHasOnly work.old line (denials_at work.old.bank uses.now (term_at work.old.bank goal ∷ [])) }
    ensures line { IfOk result (λ n. LineHasOnly work.new n (term_at work.new.bank goal ∷ [])) }
    ensures grows { WorkGrows history.now work.old work.new }
    ensures out { result ≡ Err Stop.OutOfSteps → work.new.counter.used ≡ work.new.counter.limit }
{
    let mut left = line;
    for u in uses {
        left = cut(work, history, u.line, left, u.term)?;
    }
    Ok(left)
}

/// Solves a lemma whose hints name these instances. A proof has a line with only the lemma: the negations of the instances are
/// cut away by the instances' own lines.
pub fn prove_by<M: Mover>(
    work: &mut Work,
    mover: &mut M,
    history: &History,
    hints: &Hints,
    uses: &[Used],
    goal: TermId,
) -> Result<Outcome, AllocError>
    requires ready { CanMove history.now hints.now work.old }
    requires uses { All (IsUsed history.now work.old) uses.now }
    requires instances { AreInstances history.now hints.now work.old uses.now }
    requires goal { IsTermIn history.now work.old goal }
    ensures answer { IfOk result (IsAnswer history.now hints.now work.new goal) }
    ensures grows { WorkGrows history.now work.old work.new }
{
    holding();
    let first = match first_goal(&work.bank, uses, goal) {
        Ok(first) => first,
        Err(_) => return Err(AllocError),
    };
    match solve_first(work, mover, history, hints, first.as_slice())? {
        Outcome::Proved(line, trace) => finish(work, history, hints, uses, goal, line, trace),
        Outcome::Failed(steps, cause) => Ok(Outcome::Failed(steps, cause)),
        Outcome::OutOfSteps => Ok(Outcome::OutOfSteps),
        Outcome::Unknown => Ok(Outcome::Unknown),
    }
}

/// Ends a proof of the first goal.
fn finish(
    work: &mut Work,
    history: &History,
    hints: &Hints,
    uses: &[Used],
    goal: TermId,
    line: u64,
    trace: Vec<PathStep>,
) -> Result<Outcome, AllocError>
    requires ready { CanMove history.now hints.now work.old }
    requires uses { All (IsUsed history.now work.old) uses.now }
    requires goal { IsTermIn history.now work.old goal }
    requires line { LineHasOnly work.old line (denials_at work.old.bank uses.now (term_at work.old.bank goal ∷ [])) }
    requires stand { All (StepStands work.old.bank) trace.items }
    requires trace { IsTraceOf history.now hints.now work.old goal trace.items }
    ensures answer { IfOk result (IsAnswer history.now hints.now work.new goal) }
    ensures grows { WorkGrows history.now work.old work.new }
{
    match cut_uses(work, history, uses, goal, line) {
        Ok(last) => Ok(Outcome::Proved(last, trace)),
        Err(Stop::OutOfSteps) => Ok(Outcome::OutOfSteps),
        Err(Stop::Memory) => Err(AllocError),
    }
}
