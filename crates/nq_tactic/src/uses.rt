//! Instances of axioms, lemmas and definitions that hints name, as lines.
ghost use Rattle.std.specs.Prelude.{◌≡◌, All, IfOk, IfSome, Err};
ghost use Rattle.nq_history.specs.Events.{events_at};
ghost use Rattle.nq_history.specs.Hints.{InstanceStands};
ghost use Rattle.nq_kernel.specs.Growing.{WorkGrows, WorkStands};
ghost use Rattle.nq_kernel.specs.Hints.{PairIsIn};
ghost use Rattle.nq_kernel.specs.Ready.{IsReady};
ghost use Rattle.nq_lines.specs.Facts.{IsFact};
ghost use Rattle.nq_lines.specs.Instances.{ArePairsIn};

use nq_clause::Pair;
use nq_history::{History, Instance};
use nq_kernel::{Stop, Work, ready_histories};
use nq_lines::{Fact, event_fact, instance_fact, row_fact};
use nq_ready::own_terms;
use nq_rule::are_distinct_variables;

/// The terms in place of variables, copied.
fn copied(work: &Work, pairs: &[Pair]) -> Result<Vec<Pair>, Stop>
    ensures copy { IfOk result (λ v. v.items ≡ pairs.now) }
    ensures out { result ≡ Err Stop.OutOfSteps → ⊥ }
{
    match Vec::from_slice(work.bank.alloc(), pairs) {
        Ok(copy) => Ok(copy),
        Err(_) => Err(Stop::Memory),
    }
}

/// The line of the axiom, lemma or definition that an instance names.
fn named(work: &mut Work, history: &History, instance: &Instance) -> Result<Option<Fact>, Stop>
    requires stands { WorkStands history.now work.old }
    requires ready { IsReady (events_at work.old.bank history.now) }
    requires instance { InstanceStands work.old.bank instance.now }
    ensures fact { IfOk result (λ found. IfSome found (IsFact history.now work.new)) }
    ensures grows { WorkGrows history.now work.old work.new }
    ensures out { result ≡ Err Stop.OutOfSteps → work.new.counter.used ≡ work.new.counter.limit }
{
    own_terms();
    ready_histories();
    match event_fact(work, history, instance.name)? {
        Some(fact) => Ok(Some(fact)),
        None => row_fact(work, history, instance.name),
    }
}

/// The instance that a hint names, where it has a line with one literal.
pub fn used(work: &mut Work, history: &History, instance: &Instance) -> Result<Option<Fact>, Stop>
    requires stands { WorkStands history.now work.old }
    requires ready { IsReady (events_at work.old.bank history.now) }
    requires instance { InstanceStands work.old.bank instance.now }
    requires pairs { All (PairIsIn work.old.bank history.now) instance.now.pairs.items }
    ensures fact { IfOk result (λ found. IfSome found (IsFact history.now work.new)) }
    ensures grows { WorkGrows history.now work.old work.new }
    ensures out { result ≡ Err Stop.OutOfSteps → work.new.counter.used ≡ work.new.counter.limit }
{
    if !are_distinct_variables(&work.bank, instance.pairs.as_slice()) {
        return Ok(None);
    }
    used_at(work, history, instance)
}

/// The same, where the variables of its pairs are distinct.
fn used_at(work: &mut Work, history: &History, instance: &Instance) -> Result<Option<Fact>, Stop>
    requires stands { WorkStands history.now work.old }
    requires ready { IsReady (events_at work.old.bank history.now) }
    requires instance { InstanceStands work.old.bank instance.now }
    requires pairs { ArePairsIn history.now work.old instance.now.pairs.items }
    ensures fact { IfOk result (λ found. IfSome found (IsFact history.now work.new)) }
    ensures grows { WorkGrows history.now work.old work.new }
    ensures out { result ≡ Err Stop.OutOfSteps → work.new.counter.used ≡ work.new.counter.limit }
{
    match named(work, history, instance)? {
        Some(fact) => {
            let pairs = copied(work, instance.pairs.as_slice())?;
            instance_fact(work, history, fact, pairs)
        }
        None => Ok(None),
    }
}
