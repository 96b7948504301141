//! What the lines of a scheme stand on.
ghost use Rattle.std.specs.Prelude.{◌≡◌, ◌++◌, ◌∷◌, [], All, IfOk, IfSome, Err};
ghost use Rattle.nq_kernel.specs.Growing.{WorkStands, WorkGrows};
ghost use Rattle.nq_kernel.specs.Ready.{IsReady};
ghost use Rattle.nq_lines.specs.Lines.{IsTermIn};
ghost use Rattle.nq_lines.specs.Instances.{ArePairsIn};
ghost use Rattle.nq_schemes.specs.Known.{IsOpenedIn};
ghost use Rattle.nq_schemes.specs.Steps.{IsBasisIn, IsOrdinalIn, IsSizedIn};
ghost use Rattle.nq_history.specs.Events.{events_at};

use crate::basis::{Basis, SizedVariable};
use crate::draft::Change;
use crate::falling::Falling;
use crate::instances::instance_of;
use crate::known::{known_name, pairs_of};
use crate::opened::Opened;
use crate::ordinals::ordinal_for;
use crate::own::is_own;
use crate::sizes::{ordinal_line, size_of};
use nq_bank::TermId;
use nq_clause::Pair;
use nq_history::History;
use nq_induct::known_truth;
use nq_kernel::{Stop, Work};
use nq_lines::Fact;
use nq_ready::own_terms;

/// The size of a variable, and the line that it is an ordinal.
pub fn ordinal_of_size(
    work: &mut Work,
    history: &History,
    whole: SizedVariable,
) -> Result<Fact, Stop>
    requires stands { WorkStands history.now work.old }
    requires whole { IsSizedIn history.now work.old whole }
    ensures ordinal { IfOk result (IsOrdinalIn history.now work.new) }
    ensures grows { WorkGrows history.now work.old work.new }
    ensures out { result ≡ Err Stop.OutOfSteps → work.new.counter.used ≡ work.new.counter.limit }
{
    let term = size_of(work, history, whole.variable)?;
    let line = ordinal_line(work, history, whole.variable)?;
    Ok(Fact { term, line })
}

/// Calls at hand, and a term.
fn known_with(opened: &[Opened], t: TermId, work: &Work) -> Result<Vec<Opened>, Stop>
    ensures all { IfOk result (λ v. v.items ≡ opened.now ++ (record { call = t; body = t }) ∷ []) }
    ensures memory { result ≡ Err Stop.OutOfSteps → ⊥ }
{
    let more = Opened { call: t, body: t };
    match Vec::from_slice(work.bank.alloc(), opened) {
        Ok(mut all) => match all.push(more) {
            Ok(()) => Ok(all),
            Err(_) => Err(Stop::Memory),
        },
        Err(_) => Err(Stop::Memory),
    }
}

/// The pairs that take a measure to what it is at a call.
fn pairs_at(
    work: &Work,
    history: &History,
    opened: &[Opened],
    measure: TermId,
    changes: &[Change],
) -> Result<Option<Vec<Pair>>, Stop>
    requires opened { All (IsOpenedIn history.now work.now) opened.now }
    requires measure { IsTermIn history.now work.now measure }
    ensures pairs { IfOk result (λ found. IfSome found (λ v. ArePairsIn history.now work.now v.items)) }
    ensures memory { result ≡ Err Stop.OutOfSteps → ⊥ }
{
    let known = known_with(opened, measure, work)?;
    pairs_of(work, history, known.as_slice(), changes)
}

/// The ordinal that serves for a measure where the pairs take it.
fn ordinal_under(
    work: &mut Work,
    history: &History,
    measure: TermId,
    pairs: &[Pair],
) -> Result<Option<Fact>, Stop>
    requires stands { WorkStands history.now work.old }
    requires measure { IsTermIn history.now work.old measure }
    requires pairs { ArePairsIn history.now work.old pairs.now }
    ensures ordinal { IfOk result (λ found. IfSome found (IsOrdinalIn history.now work.new)) }
    ensures grows { WorkGrows history.now work.old work.new }
    ensures out { result ≡ Err Stop.OutOfSteps → work.new.counter.used ≡ work.new.counter.limit }
{
    let here = instance_of(work, history, measure, pairs)?;
    ordinal_for(work, history, here)
}

/// The ordinal that serves for a measure at a call.
pub fn ordinal_of_measure(
    work: &mut Work,
    history: &History,
    opened: &[Opened],
    falling: &Falling,
) -> Result<Option<Fact>, Stop>
    requires stands { WorkStands history.now work.old }
    requires opened { All (IsOpenedIn history.now work.old) opened.now }
    ensures ordinal { IfOk result (λ found. IfSome found (IsOrdinalIn history.now work.new)) }
    ensures grows { WorkGrows history.now work.old work.new }
    ensures out { result ≡ Err Stop.OutOfSteps → work.new.counter.used ≡ work.new.counter.limit }
{
    let measure = falling.measure;
    if !is_own(work, history, measure) {
        return Ok(None);
    }
    let found = pairs_at(work, history, opened, measure, falling.changes.as_slice())?;
    match found {
        Some(pairs) => ordinal_under(work, history, measure, pairs.as_slice()),
        None => Ok(None),
    }
}

/// What the lines of a scheme stand on where this ordinal falls.
pub fn basis_with(
    work: &mut Work,
    history: &History,
    opened: Vec<Opened>,
    sized: Option<SizedVariable>,
    ordinal: Fact,
    arithmetic: bool,
) -> Result<Basis, Stop>
    requires stands { WorkStands history.now work.old }
    requires ready { IsReady (events_at work.old.bank history.now) }
    requires opened { All (IsOpenedIn history.now work.old) opened.items }
    requires sized { IfSome sized (IsSizedIn history.now work.old) }
    requires ordinal { IsOrdinalIn history.now work.old ordinal }
    ensures basis { IfOk result (IsBasisIn history.now work.new) }
    ensures grows { WorkGrows history.now work.old work.new }
    ensures out { result ≡ Err Stop.OutOfSteps → work.new.counter.used ≡ work.new.counter.limit }
{
    own_terms();
    let shown = known_truth(work, history)?;
    Ok(Basis {
        opened,
        sized,
        measure: ordinal.term,
        ordinal: ordinal.line,
        shown,
        arithmetic,
    })
}

/// The same, where the size of a variable falls.
fn basis_of_size(
    work: &mut Work,
    history: &History,
    opened: Vec<Opened>,
    variable: TermId,
    arithmetic: bool,
) -> Result<Option<Basis>, Stop>
    requires stands { WorkStands history.now work.old }
    requires ready { IsReady (events_at work.old.bank history.now) }
    requires opened { All (IsOpenedIn history.now work.old) opened.items }
    ensures basis { IfOk result (λ found. IfSome found (IsBasisIn history.now work.new)) }
    ensures grows { WorkGrows history.now work.old work.new }
    ensures out { result ≡ Err Stop.OutOfSteps → work.new.counter.used ≡ work.new.counter.limit }
{
    match known_name(work, history, opened.as_slice(), variable) {
        Some(name) => {
            let whole = SizedVariable { variable, name };
            let ordinal = ordinal_of_size(work, history, whole)?;
            let basis = basis_with(work, history, opened, Some(whole), ordinal, arithmetic)?;
            Ok(Some(basis))
        }
        None => Ok(None),
    }
}

/// The same, where a measure of another form falls.
fn basis_of_measure(
    work: &mut Work,
    history: &History,
    opened: Vec<Opened>,
    falling: &Falling,
    arithmetic: bool,
) -> Result<Option<Basis>, Stop>
    requires stands { WorkStands history.now work.old }
    requires ready { IsReady (events_at work.old.bank history.now) }
    requires opened { All (IsOpenedIn history.now work.old) opened.items }
    ensures basis { IfOk result (λ found. IfSome found (IsBasisIn history.now work.new)) }
    ensures grows { WorkGrows history.now work.old work.new }
    ensures out { result ≡ Err Stop.OutOfSteps → work.new.counter.used ≡ work.new.counter.limit }
{
    let found = ordinal_of_measure(work, history, opened.as_slice(), falling)?;
    match found {
        Some(ordinal) => {
            let basis = basis_with(work, history, opened, None, ordinal, arithmetic)?;
            Ok(Some(basis))
        }
        None => Ok(None),
    }
}

/// What the lines of a scheme stand on in which this falls.
pub fn basis_of(
    work: &mut Work,
    history: &History,
    opened: Vec<Opened>,
    falling: &Falling,
    arithmetic: bool,
) -> Result<Option<Basis>, Stop>
    requires stands { WorkStands history.now work.old }
    requires ready { IsReady (events_at work.old.bank history.now) }
    requires opened { All (IsOpenedIn history.now work.old) opened.items }
    ensures basis { IfOk result (λ found. IfSome found (IsBasisIn history.now work.new)) }
    ensures grows { WorkGrows history.now work.old work.new }
    ensures out { result ≡ Err Stop.OutOfSteps → work.new.counter.used ≡ work.new.counter.limit }
{
    match falling.sized {
        Some(variable) => basis_of_size(work, history, opened, variable, arithmetic),
        None => basis_of_measure(work, history, opened, falling, arithmetic),
    }
}
