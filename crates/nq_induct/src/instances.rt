//! Terms in place of the variables of a term, counted: the instance of an equation's line holds them.
ghost use Rattle.std.specs.Prelude.{◌≡◌, IfOk, Err};
ghost use Rattle.nq_logic.specs.Terms.{substituted};
ghost use Rattle.nq_bank.specs.Content.{IsIdOf, term_at};
ghost use Rattle.nq_clause.specs.Substitution.{substitution_at};
ghost use Rattle.nq_kernel.specs.Growing.{WorkStands, WorkGrows};
ghost use Rattle.nq_lines.specs.Lines.{IsTermIn};
ghost use Rattle.nq_lines.specs.Instances.{ArePairsIn};
ghost use Rattle.nq_induct.specs.Instances.{IsReflexive, HasSide};

use nq_bank::TermId;
use nq_clause::Pair;
use nq_history::History;
use nq_kernel::{Stop, Work};
use nq_lines::{argument_at, reflexive};
use std::alloc::Global;

/// A copy of pairs.
pub fn copied_pairs(alloc: Global, pairs: &[Pair]) -> Result<Vec<Pair>, Stop>
    ensures copy { IfOk result (λ v. v.items ≡ pairs.now) }
    ensures memory { result ≡ Err Stop.OutOfSteps → ⊥ }
{
    match Vec::from_slice(alloc, pairs) {
        Ok(copy) => Ok(copy),
        Err(_) => Err(Stop::Memory),
    }
}

/// The side of an equation of a term and itself, which a line holds.
fn side_in(work: &Work, history: &History, line: u64) -> TermId
    requires stands { WorkStands history.now work.now }
    requires line { IsReflexive work.now line }
    ensures { HasSide work.now line result }
{
    let literals = work.log.clause_over(&work.bank, line);
    argument_at(&work.bank, literals[0], 1)
}

/// Makes the term with the terms of the pairs in place of their variables.
pub fn instance_of(
    work: &mut Work,
    history: &History,
    t: TermId,
    pairs: &[Pair],
) -> Result<TermId, Stop>
    requires stands { WorkStands history.now work.old }
    requires term { IsTermIn history.now work.old t }
    requires pairs { ArePairsIn history.now work.old pairs.now }
    ensures term { IfOk result (λ r. IsIdOf work.new.bank r (substituted (substitution_at work.old.bank pairs.now) (term_at work.old.bank t))) }
    ensures over { IfOk result (λ r. IsTermIn history.now work.new r) }
    ensures grows { WorkGrows history.now work.old work.new }
    ensures out { result ≡ Err Stop.OutOfSteps → work.new.counter.used ≡ work.new.counter.limit }
{
    let copy = copied_pairs(work.bank.alloc(), pairs)?;
    let law = reflexive(work, history, t)?;
    let line = work.find_instance(history, law, copy)?;
    Ok(side_in(work, history, line))
}
