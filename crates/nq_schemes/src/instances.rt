//! Terms in place of the variables of a term.
ghost use Rattle.std.specs.Prelude.{◌≡◌, IfOk, IfSome, Err};
ghost use Rattle.nq_kernel.specs.Growing.{WorkStands, WorkGrows};
ghost use Rattle.nq_lines.specs.Lines.{IsTermIn};
ghost use Rattle.nq_lines.specs.Facts.{IsFact};
ghost use Rattle.nq_lines.specs.Instances.{ArePairsIn};

use nq_bank::TermId;
use nq_clause::Pair;
use nq_history::History;
use nq_kernel::{Stop, Work};
use nq_lines::{Fact, equate, instance_fact, reflexive, sides_of};
use std::alloc::Global;

/// The equation of a term and itself, and its line.
fn same_fact(work: &mut Work, history: &History, t: TermId) -> Result<Fact, Stop>
    requires stands { WorkStands history.now work.old }
    requires term { IsTermIn history.now work.old t }
    ensures fact { IfOk result (IsFact history.now work.new) }
    ensures grows { WorkGrows history.now work.old work.new }
    ensures out { result ≡ Err Stop.OutOfSteps → work.new.counter.used ≡ work.new.counter.limit }
{
    let term = equate(work, history, t, t)?;
    let line = reflexive(work, history, t)?;
    Ok(Fact { term, line })
}

/// A copy of pairs.
fn copied(alloc: Global, pairs: &[Pair]) -> Result<Vec<Pair>, Stop>
    ensures copy { IfOk result (λ v. v.items ≡ pairs.now) }
    ensures memory { result ≡ Err Stop.OutOfSteps → ⊥ }
{
    match Vec::from_slice(alloc, pairs) {
        Ok(copy) => Ok(copy),
        Err(_) => Err(Stop::Memory),
    }
}

/// The left side of an equation.
fn left_side(work: &Work, history: &History, fact: Fact) -> Option<TermId>
    requires stands { WorkStands history.now work.now }
    requires fact { IsFact history.now work.now fact }
    ensures { IfSome result (IsTermIn history.now work.now) }
{
    let sides = sides_of(work, history, fact.term)?;
    Some(sides.left)
}

/// The instance of an equation's left side.
fn side_of(
    work: &mut Work,
    history: &History,
    fact: Fact,
    pairs: Vec<Pair>,
) -> Result<Option<TermId>, Stop>
    requires stands { WorkStands history.now work.old }
    requires fact { IsFact history.now work.old fact }
    requires pairs { ArePairsIn history.now work.old pairs.items }
    ensures term { IfOk result (λ found. IfSome found (IsTermIn history.now work.new)) }
    ensures grows { WorkGrows history.now work.old work.new }
    ensures out { result ≡ Err Stop.OutOfSteps → work.new.counter.used ≡ work.new.counter.limit }
{
    let found = instance_fact(work, history, fact, pairs)?;
    match found {
        Some(equation) => Ok(left_side(work, history, equation)),
        None => Ok(None),
    }
}

/// Makes the term with the terms of the pairs in place of their variables. It is the term itself where that cannot be made.
pub fn instance_of(
    work: &mut Work,
    history: &History,
    t: TermId,
    pairs: &[Pair],
) -> Result<TermId, Stop>
    requires stands { WorkStands history.now work.old }
    requires term { IsTermIn history.now work.old t }
    requires pairs { ArePairsIn history.now work.old pairs.now }
    ensures term { IfOk result (IsTermIn history.now work.new) }
    ensures grows { WorkGrows history.now work.old work.new }
    ensures out { result ≡ Err Stop.OutOfSteps → work.new.counter.used ≡ work.new.counter.limit }
{
    let copy = copied(work.bank.alloc(), pairs)?;
    let fact = same_fact(work, history, t)?;
    let found = side_of(work, history, fact, copy)?;
    match found {
        Some(made) => Ok(made),
        None => Ok(t),
    }
}
