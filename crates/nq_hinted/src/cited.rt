//! The lines of the instances that hints name.
ghost use Rattle.std.specs.Prelude.{◌≡◌, ◌∷◌, [], IfOk, IsSome, Some, Err};
ghost use Rattle.nq_logic.specs.Terms.{Term};
ghost use Rattle.nq_logic.specs.Names.{looked_up};
ghost use Rattle.nq_bank.specs.Content.{IsNamed, text_at};
ghost use Rattle.nq_history.specs.Events.{event_at, events_at};
ghost use Rattle.nq_history.specs.Hints.{InstanceStands};
ghost use Rattle.nq_events.specs.HintRefusals.{instance_term, term_named};
ghost use Rattle.nq_event.specs.EventsAt.{instance_at};
ghost use Rattle.nq_kernel.specs.Growing.{WorkGrows, WorkStands};
ghost use Rattle.nq_lines.specs.Instances.{ArePairsIn};
ghost use Rattle.nq_lines.specs.Lines.{LineHasOnly};
ghost use Rattle.nq_hinted.specs.Cited.{is_defining, is_definition};

use nq_bank::{Bank, Sym};
use nq_clause::Pair;
use nq_history::{Entry, EntryKind, History, Instance};
use nq_kernel::{Stop, Work};
use nq_lines::{event_line, row_line};

/// Does an entry define a function?
fn is_defining(bank: &Bank, entry: &Entry) -> bool
    ensures { result ≡ is_defining (event_at bank.now entry.now) }
{
    match &entry.kind {
        EntryKind::Defn(_, _, _) => true,
        EntryKind::Axiom(_, _) => false,
        EntryKind::Lemma(_, _) => false,
        EntryKind::Shell(_) => false,
        EntryKind::Dcl(_) => false,
        EntryKind::Toggle(_, _) => false,
    }
}

/// Is this the name of a definition?
fn is_definition(work: &Work, history: &History, name: Sym) -> bool
    requires stands { WorkStands history.now work.now }
    requires name { IsNamed work.now.bank name }
    ensures { result ≡ is_definition (looked_up (text_at work.now.bank name) (events_at work.now.bank history.now)) }
{
    work.bank.is_sound();
    match history.lookup(name) {
        Some(entry) => is_defining(&work.bank, entry),
        None => false,
    }
}

/// Adds the line of what the axiom, lemma or definition of a name says.
fn stated_line(work: &mut Work, history: &History, name: Sym) -> Result<u64, Stop>
    requires stands { WorkStands history.now work.old }
    requires name { IsNamed work.old.bank name }
    requires stated { IsSome (term_named (events_at work.old.bank history.now) (text_at work.old.bank name)) }
    ensures line { IfOk result (λ n. (t : Term) → term_named (events_at work.old.bank history.now) (text_at work.old.bank name) ≡ Some t → LineHasOnly work.new n (t ∷ [])) }
    ensures grows { WorkGrows history.now work.old work.new }
    ensures out { result ≡ Err Stop.OutOfSteps → work.new.counter.used ≡ work.new.counter.limit }
{
    if is_definition(work, history, name) {
        row_line(work, history, name, 1, 0)
    } else {
        event_line(work, history, name)
    }
}

/// The terms in place of variables, copied.
fn copied(work: &Work, pairs: &[Pair]) -> Result<Vec<Pair>, Stop>
    ensures copy { IfOk result (λ v. v.items ≡ pairs.now) }
    ensures out { result ≡ Err Stop.OutOfSteps → ⊥ }
{
    match Vec::from_slice(work.bank.alloc(), pairs) {
        Ok(copy) => Ok(copy),
        Err(_) => Err(Stop::Memory),
    }
}

/// Adds the line of an instance.
pub fn instance_line(work: &mut Work, history: &History, instance: &Instance) -> Result<u64, Stop>
    requires stands { WorkStands history.now work.old }
    requires instance { InstanceStands work.old.bank instance.now }
    requires pairs { ArePairsIn history.now work.old instance.now.pairs.items }
    requires stated { IsSome (instance_term (events_at work.old.bank history.now) (instance_at work.old.bank instance.now)) }
    ensures line { IfOk result (λ n. (t : Term) → instance_term (events_at work.old.bank history.now) (instance_at work.old.bank instance.now) ≡ Some t → LineHasOnly work.new n (t ∷ [])) }
    ensures grows { WorkGrows history.now work.old work.new }
    ensures out { result ≡ Err Stop.OutOfSteps → work.new.counter.used ≡ work.new.counter.limit }
{
    let pairs = copied(work, instance.pairs.as_slice())?;
    let line = stated_line(work, history, instance.name)?;
    nq_lines::instance(work, history, line, pairs)
}
