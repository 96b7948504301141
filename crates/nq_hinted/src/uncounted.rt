//! The line of a lemma, from that of its nest. No step is counted.
//!
//! The steps of a derived line count themselves. Here they count on a counter of their own that has 2^64 - 1 steps, more than memory
//! has room for, and the counter of the work is put back behind them.
ghost use Rattle.std.specs.Prelude.{◌≡◌, ◌∷◌, [], All, IfOk, Err, map};
ghost use Rattle.nq_bank.specs.Content.{Stands, term_at, terms_at};
ghost use Rattle.nq_history.specs.Events.{events_at};
ghost use Rattle.nq_history.specs.Hints.{InstanceStands};
ghost use Rattle.nq_event.specs.EventsAt.{instance_at};
ghost use Rattle.nq_goals.specs.Hints.{denied_instances};
ghost use Rattle.nq_kernel.specs.Growing.{WorkGrows, WorkStands};
ghost use Rattle.nq_kernel.specs.Ready.{IsReady};
ghost use Rattle.nq_lines.specs.Instances.{ArePairsIn};
ghost use Rattle.nq_lines.specs.Lines.{IsTermIn, LineHasOnly};
ghost use Rattle.nq_eval.specs.Lines.{GrowsUncounted};
ghost use Rattle.nq_hinted.specs.Nests.{AreDenials, nest};
ghost use Rattle.nq_hinted.specs.Answers.{UnwindsTo};

use crate::cutting::cut_instances;
use crate::nests::open_nest;
use nq_bank::{Bank, TermId};
use nq_history::{History, Instance};
use nq_kernel::{Counter, Log, Stop, Work};
use std::alloc::{AllocError, Global};
use std::mem;

/// A counter that is at its limit after 2^64 - 1 steps.
fn long_counter(alloc: Global) -> Result<Counter, AllocError> {
    let bank = Bank::new(alloc)?;
    let Work {
        bank: _bank,
        log: _log,
        counter,
        known: _known,
    } = Work::new(bank, Log::new(alloc), u64::MAX);
    Ok(counter)
}

/// Takes the nest of a first goal apart, and cuts the denials of the instances away.
fn unwind(
    work: &mut Work,
    history: &History,
    instances: &[Instance],
    first: TermId,
    rest: &[TermId],
    whole: TermId,
    line: u64,
) -> Result<u64, Stop>
    requires stands { WorkStands history.now work.old }
    requires ready { IsReady (events_at work.old.bank history.now) }
    requires instances { All (InstanceStands work.old.bank) instances.now }
    requires pairs { All (λ i. ArePairsIn history.now work.old i.pairs.items) instances.now }
    requires first { Stands work.old.bank first }
    requires rest { All (Stands work.old.bank) rest.now }
    requires denials { AreDenials (term_at work.old.bank first) (terms_at work.old.bank rest.now) }
    requires whole { term_at work.old.bank whole ≡ nest (term_at work.old.bank first) (terms_at work.old.bank rest.now) }
    requires over { IsTermIn history.now work.old whole }
    requires line { LineHasOnly work.old line (term_at work.old.bank whole ∷ []) }
    ensures line { IfOk result (λ n. UnwindsTo work.new (denied_instances (events_at work.old.bank history.now) (map (instance_at work.old.bank) instances.now)) (term_at work.old.bank first ∷ terms_at work.old.bank rest.now) n) }
    ensures grows { WorkGrows history.now work.old work.new }
{
    let line = open_nest(work, history, first, rest, whole, line)?;
    cut_instances(work, history, instances, line)
}

/// The same, without counting a step. A step that would not fit in the long counter, or a term that is too deep, is answered as
/// want of memory.
pub fn unwind_uncounted(
    work: &mut Work,
    history: &History,
    instances: &[Instance],
    first: TermId,
    rest: &[TermId],
    whole: TermId,
    line: u64,
) -> Result<u64, AllocError>
    requires stands { WorkStands history.now work.old }
    requires ready { IsReady (events_at work.old.bank history.now) }
    requires instances { All (InstanceStands work.old.bank) instances.now }
    requires pairs { All (λ i. ArePairsIn history.now work.old i.pairs.items) instances.now }
    requires first { Stands work.old.bank first }
    requires rest { All (Stands work.old.bank) rest.now }
    requires denials { AreDenials (term_at work.old.bank first) (terms_at work.old.bank rest.now) }
    requires whole { term_at work.old.bank whole ≡ nest (term_at work.old.bank first) (terms_at work.old.bank rest.now) }
    requires over { IsTermIn history.now work.old whole }
    requires line { LineHasOnly work.old line (term_at work.old.bank whole ∷ []) }
    ensures line { IfOk result (λ n. UnwindsTo work.new (denied_instances (events_at work.old.bank history.now) (map (instance_at work.old.bank) instances.now)) (term_at work.old.bank first ∷ terms_at work.old.bank rest.now) n) }
    ensures grows { GrowsUncounted history.now work.old work.new }
{
    let long = long_counter(work.bank.alloc())?;
    let kept = mem::replace(&mut work.counter, long);
    let answer = unwind(work, history, instances, first, rest, whole, line);
    work.counter = kept;
    match answer {
        Ok(n) => Ok(n),
        Err(_) => Err(AllocError),
    }
}
