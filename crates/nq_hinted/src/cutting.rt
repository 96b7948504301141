//! Lines from which the denials of instances are cut away.
ghost use Rattle.std.specs.Prelude.{◌≡◌, All, IfOk, IfSome, List, Some, Err, map};
ghost use Rattle.std.specs.Option.{option_map};
ghost use Rattle.nq_logic.specs.Terms.{Term};
ghost use Rattle.nq_bank.specs.Content.{term_at};
ghost use Rattle.nq_history.specs.Events.{events_at};
ghost use Rattle.nq_history.specs.Hints.{InstanceStands};
ghost use Rattle.nq_events.specs.HintRefusals.{instance_term};
ghost use Rattle.nq_event.specs.EventsAt.{instance_at};
ghost use Rattle.nq_goals.specs.Hints.{denied_instances};
ghost use Rattle.nq_kernel.specs.Growing.{LineStands, WorkGrows, WorkStands};
ghost use Rattle.nq_kernel.specs.Ready.{IsReady};
ghost use Rattle.nq_lines.specs.Instances.{ArePairsIn};
ghost use Rattle.nq_lines.specs.Lines.{IsTermIn, LineHasOnly};
ghost use Rattle.nq_hinted.specs.Cited.{CutsAway};

use crate::cited::instance_line;
use nq_bank::TermId;
use nq_history::{History, Instance};
use nq_kernel::{Stop, Work};
use nq_lines::cut;
use nq_uses::instance_term;

/// The term of an instance.
fn term_of(work: &mut Work, history: &History, instance: &Instance) -> Result<Option<TermId>, Stop>
    requires stands { WorkStands history.now work.old }
    requires ready { IsReady (events_at work.old.bank history.now) }
    requires instance { InstanceStands work.old.bank instance.now }
    requires pairs { ArePairsIn history.now work.old instance.now.pairs.items }
    ensures is { IfOk result (λ o. option_map (term_at work.new.bank) o ≡ instance_term (events_at work.old.bank history.now) (instance_at work.old.bank instance.now)) }
    ensures over { IfOk result (λ o. IfSome o (IsTermIn history.now work.new)) }
    ensures grows { WorkGrows history.now work.old work.new }
    ensures out { result ≡ Err Stop.OutOfSteps → work.new.counter.used ≡ work.new.counter.limit }
{
    match instance_term(&mut work.bank, history, instance) {
        Ok(found) => Ok(found),
        Err(_) => Err(Stop::Memory),
    }
}

/// Cuts the denial of an instance away, where it has this term.
fn cut_term(
    work: &mut Work,
    history: &History,
    instance: &Instance,
    t: TermId,
    line: u64,
) -> Result<u64, Stop>
    requires stands { WorkStands history.now work.old }
    requires instance { InstanceStands work.old.bank instance.now }
    requires pairs { ArePairsIn history.now work.old instance.now.pairs.items }
    requires term { IsTermIn history.now work.old t }
    requires is { instance_term (events_at work.old.bank history.now) (instance_at work.old.bank instance.now) ≡ Some (term_at work.old.bank t) }
    requires line { LineStands work.old line }
    ensures line { IfOk result (λ n. CutsAway work.old work.new (Some (term_at work.old.bank t)) line n) }
    ensures stands { IfOk result (λ n. LineStands work.new n) }
    ensures grows { WorkGrows history.now work.old work.new }
    ensures out { result ≡ Err Stop.OutOfSteps → work.new.counter.used ≡ work.new.counter.limit }
{
    let shown = instance_line(work, history, instance)?;
    cut(work, history, shown, line, t)
}

/// Cuts the denial of an instance away, if there is one.
fn cut_instance(
    work: &mut Work,
    history: &History,
    instance: &Instance,
    line: u64,
) -> Result<u64, Stop>
    requires stands { WorkStands history.now work.old }
    requires ready { IsReady (events_at work.old.bank history.now) }
    requires instance { InstanceStands work.old.bank instance.now }
    requires pairs { ArePairsIn history.now work.old instance.now.pairs.items }
    requires line { LineStands work.old line }
    ensures line { IfOk result (λ n. CutsAway work.old work.new (instance_term (events_at work.old.bank history.now) (instance_at work.old.bank instance.now)) line n) }
    ensures stands { IfOk result (λ n. LineStands work.new n) }
    ensures grows { WorkGrows history.now work.old work.new }
    ensures out { result ≡ Err Stop.OutOfSteps → work.new.counter.used ≡ work.new.counter.limit }
{
    match term_of(work, history, instance)? {
        Some(t) => cut_term(work, history, instance, t, line),
        None => Ok(line),
    }
}

/// Cuts the denials of instances away.
pub fn cut_instances(
    work: &mut Work,
    history: &History,
    instances: &[Instance],
    line: u64,
) -> Result<u64, Stop>
    requires stands { WorkStands history.now work.old }
    requires ready { IsReady (events_at work.old.bank history.now) }
    requires instances { All (InstanceStands work.old.bank) instances.now }
    requires pairs { All (λ i. ArePairsIn history.now work.old i.pairs.items) instances.now }
    requires line { LineStands work.old line }
    ensures line { IfOk result (λ n. (these : List Term) → LineHasOnly work.old line (denied_instances (events_at work.old.bank history.now) (map (instance_at work.old.bank) instances.now) these) → LineHasOnly work.new n these) }
    ensures stands { IfOk result (λ n. LineStands work.new n) }
    ensures grows { WorkGrows history.now work.old work.new }
    ensures out { result ≡ Err Stop.OutOfSteps → work.new.counter.used ≡ work.new.counter.limit }
{
    let mut line = line;
    for instance in instances {
        line = cut_instance(work, history, instance, line)?;
    }
    Ok(line)
}
