//! The plain scheme of a call: one case, by the first recursive call in the body of its function, under a test that the measure falls.
//! It is always there.
ghost use Rattle.std.specs.Prelude.{◌≡◌, ◌<◌, All, IfOk, IfSome, Err, None, length};
ghost use Rattle.nq_history.specs.Events.{events_at};
ghost use Rattle.nq_kernel.specs.Growing.{WorkStands, WorkGrows};
ghost use Rattle.nq_kernel.specs.Ready.{IsReady};
ghost use Rattle.nq_lines.specs.Lines.{IsTermIn};
ghost use Rattle.nq_lines.specs.Instances.{ArePairsIn};
ghost use Rattle.nq_induct.specs.Schemes.{IsSchemeIn};
ghost use Rattle.nq_schemes.specs.Known.{IsOpenedIn};
ghost use Rattle.nq_schemes.specs.Single.{HasCases, HasSteps};
ghost use Rattle.nq_schemes.specs.Steps.{IsBasisIn, IsOrdinalIn};

use crate::bases::{basis_with, ordinal_of_measure, ordinal_of_size};
use crate::basis::{Basis, SizedVariable};
use crate::draft::Change;
use crate::falling::Falling;
use crate::finding::suggesting_call;
use crate::gathering::governing_all;
use crate::guess::{Guess, guess_at};
use crate::known::{known_name, pairs_of};
use crate::opened::Opened;
use crate::openings::{add_opened, all_opened};
use crate::single::single_scheme;
use crate::sizes::{ordinal_line, size_of};
use nq_bank::TermId;
use nq_clause::Pair;
use nq_history::History;
use nq_induct::Scheme;
use nq_kernel::{Stop, Work};
use nq_lines::{Fact, truth};

/// A call with its body, where that is found, and then the call alone.
fn opened_call(work: &mut Work, history: &History, call: TermId) -> Result<Vec<Opened>, Stop>
    requires stands { WorkStands history.now work.old }
    requires ready { IsReady (events_at work.old.bank history.now) }
    requires call { IsTermIn history.now work.old call }
    ensures opened { IfOk result (λ v. All (IsOpenedIn history.now work.new) v.items) }
    ensures grows { WorkGrows history.now work.old work.new }
    ensures out { result ≡ Err Stop.OutOfSteps → work.new.counter.used ≡ work.new.counter.limit }
{
    let calls = [call];
    let mut opened = all_opened(work, history, &calls, &calls)?;
    add_opened(&mut opened, Some(Opened { call, body: call }))?;
    Ok(opened)
}

/// The size of T, and the line that it is an ordinal.
fn ordinal_of_truth(work: &mut Work, history: &History) -> Result<Fact, Stop>
    requires stands { WorkStands history.now work.old }
    ensures ordinal { IfOk result (IsOrdinalIn history.now work.new) }
    ensures grows { WorkGrows history.now work.old work.new }
    ensures out { result ≡ Err Stop.OutOfSteps → work.new.counter.used ≡ work.new.counter.limit }
{
    let shown = truth(work, history)?;
    let term = size_of(work, history, shown)?;
    let line = ordinal_line(work, history, shown)?;
    Ok(Fact { term, line })
}

/// The size of a variable that is known, and the line that it is an ordinal.
fn ordinal_of_variable(
    work: &mut Work,
    history: &History,
    opened: &[Opened],
    variable: TermId,
) -> Result<Option<Fact>, Stop>
    requires stands { WorkStands history.now work.old }
    requires opened { All (IsOpenedIn history.now work.old) opened.now }
    ensures ordinal { IfOk result (λ found. IfSome found (IsOrdinalIn history.now work.new)) }
    ensures grows { WorkGrows history.now work.old work.new }
    ensures out { result ≡ Err Stop.OutOfSteps → work.new.counter.used ≡ work.new.counter.limit }
{
    match known_name(work, history, opened, variable) {
        Some(name) => {
            let ordinal = ordinal_of_size(work, history, SizedVariable { variable, name })?;
            Ok(Some(ordinal))
        }
        None => Ok(None),
    }
}

/// The ordinal that serves where this falls, and the line that it is one, if they are found.
fn ordinal_found(
    work: &mut Work,
    history: &History,
    opened: &[Opened],
    falling: &Falling,
) -> Result<Option<Fact>, Stop>
    requires stands { WorkStands history.now work.old }
    requires opened { All (IsOpenedIn history.now work.old) opened.now }
    ensures ordinal { IfOk result (λ found. IfSome found (IsOrdinalIn history.now work.new)) }
    ensures grows { WorkGrows history.now work.old work.new }
    ensures out { result ≡ Err Stop.OutOfSteps → work.new.counter.used ≡ work.new.counter.limit }
{
    match falling.sized {
        Some(variable) => ordinal_of_variable(work, history, opened, variable),
        None => ordinal_of_measure(work, history, opened, falling),
    }
}

/// The ordinal that serves where this falls, and the line that it is one. Where none is found the size of T serves.
fn certain_ordinal(
    work: &mut Work,
    history: &History,
    opened: &[Opened],
    falling: &Falling,
) -> Result<Fact, Stop>
    requires stands { WorkStands history.now work.old }
    requires opened { All (IsOpenedIn history.now work.old) opened.now }
    ensures ordinal { IfOk result (IsOrdinalIn history.now work.new) }
    ensures grows { WorkGrows history.now work.old work.new }
    ensures out { result ≡ Err Stop.OutOfSteps → work.new.counter.used ≡ work.new.counter.limit }
{
    let found = ordinal_found(work, history, opened, falling)?;
    match found {
        Some(ordinal) => Ok(ordinal),
        None => ordinal_of_truth(work, history),
    }
}

/// What the lines of the plain scheme stand on.
fn plain_basis(
    work: &mut Work,
    history: &History,
    opened: Vec<Opened>,
    falling: &Falling,
    arithmetic: bool,
) -> Result<Basis, Stop>
    requires stands { WorkStands history.now work.old }
    requires ready { IsReady (events_at work.old.bank history.now) }
    requires opened { All (IsOpenedIn history.now work.old) opened.items }
    ensures basis { IfOk result (IsBasisIn history.now work.new) }
    ensures grows { WorkGrows history.now work.old work.new }
    ensures out { result ≡ Err Stop.OutOfSteps → work.new.counter.used ≡ work.new.counter.limit }
{
    let ordinal = certain_ordinal(work, history, opened.as_slice(), falling)?;
    basis_with(work, history, opened, None, ordinal, arithmetic)
}

/// The variables that do not stay, and what they become; none, where these are no distinct variables over the history.
fn certain_pairs(
    work: &Work,
    history: &History,
    opened: &[Opened],
    changes: &[Change],
) -> Result<Vec<Pair>, Stop>
    requires { All (IsOpenedIn history.now work.now) opened.now }
    ensures pairs { IfOk result (λ v. ArePairsIn history.now work.now v.items) }
    ensures memory { result ≡ Err Stop.OutOfSteps → ⊥ }
{
    let found = pairs_of(work, history, opened, changes)?;
    match found {
        Some(pairs) => Ok(pairs),
        None => Ok(Vec::new(work.bank.alloc())),
    }
}

/// The plain scheme of a guess.
fn scheme_with(
    work: &mut Work,
    history: &History,
    basis: &Basis,
    guess: &Guess,
) -> Result<Scheme, Stop>
    requires stands { WorkStands history.now work.old }
    requires basis { IsBasisIn history.now work.old basis.now }
    ensures scheme { IfOk result (IsSchemeIn history.now work.new) }
    ensures cases { IfOk result HasCases }
    ensures steps { IfOk result (λ s. All HasSteps s.cases.items) }
    ensures grows { WorkGrows history.now work.old work.new }
    ensures out { result ≡ Err Stop.OutOfSteps → work.new.counter.used ≡ work.new.counter.limit }
{
    let tests = governing_all(work, history, basis, guess.tests.as_slice())?;
    let changes = guess.changes.as_slice();
    let pairs = certain_pairs(work, history, basis.opened.as_slice(), changes)?;
    single_scheme(work, history, basis, tests.as_slice(), pairs)
}

/// The plain scheme of a call.
fn plain_scheme(
    work: &mut Work,
    history: &History,
    call: TermId,
    arithmetic: bool,
) -> Result<Scheme, Stop>
    requires stands { WorkStands history.now work.old }
    requires ready { IsReady (events_at work.old.bank history.now) }
    requires call { IsTermIn history.now work.old call }
    ensures scheme { IfOk result (IsSchemeIn history.now work.new) }
    ensures cases { IfOk result HasCases }
    ensures steps { IfOk result (λ s. All HasSteps s.cases.items) }
    ensures grows { WorkGrows history.now work.old work.new }
    ensures out { result ≡ Err Stop.OutOfSteps → work.new.counter.used ≡ work.new.counter.limit }
{
    let opened = opened_call(work, history, call)?;
    let guess = guess_at(work, history, opened.as_slice(), call)?;
    let basis = plain_basis(work, history, opened, &guess.falling, arithmetic)?;
    scheme_with(work, history, &basis, &guess)
}

/// The plain scheme of the first call in a goal that suggests one.
fn plain_scheme_of(
    work: &mut Work,
    history: &History,
    goal: &[TermId],
    arithmetic: bool,
) -> Result<Scheme, Stop>
    requires stands { WorkStands history.now work.old }
    requires ready { IsReady (events_at work.old.bank history.now) }
    requires goal { All (IsTermIn history.now work.old) goal.now }
    requires some { 0 < length goal.now }
    ensures scheme { IfOk result (IsSchemeIn history.now work.new) }
    ensures cases { IfOk result HasCases }
    ensures grows { WorkGrows history.now work.old work.new }
    ensures out { result ≡ Err Stop.OutOfSteps → work.new.counter.used ≡ work.new.counter.limit }
{
    let call = suggesting_call(work, history, goal)?;
    plain_scheme(work, history, call, arithmetic)
}

/// A scheme that was found, or at the first turn the plain one of a call.
pub fn found_or_plain(
    work: &mut Work,
    history: &History,
    goal: &[TermId],
    found: Option<Scheme>,
    turn: u32,
    arithmetic: bool,
) -> Result<Option<Scheme>, Stop>
    requires stands { WorkStands history.now work.old }
    requires ready { IsReady (events_at work.old.bank history.now) }
    requires goal { All (IsTermIn history.now work.old) goal.now }
    requires some { 0 < length goal.now }
    requires found { IfSome found (IsSchemeIn history.now work.old) }
    requires cases { IfSome found HasCases }
    ensures scheme { IfOk result (λ found. IfSome found (IsSchemeIn history.now work.new)) }
    ensures cases { IfOk result (λ found. IfSome found HasCases) }
    ensures told { turn ≡ 0 → IfOk result (λ found. found ≡ None → ⊥) }
    ensures grows { WorkGrows history.now work.old work.new }
    ensures out { result ≡ Err Stop.OutOfSteps → work.new.counter.used ≡ work.new.counter.limit }
{
    match found {
        Some(scheme) => Ok(Some(scheme)),
        None => {
            if turn > 0 {
                return Ok(None);
            }
            let plain = plain_scheme_of(work, history, goal, arithmetic)?;
            Ok(Some(plain))
        }
    }
}
