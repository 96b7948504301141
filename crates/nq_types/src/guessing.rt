//! Lines that may show the type of a term. What a line shows is read from it afterwards, so no contract speaks of its literals.
//!
//! A term is told by its form, by an assumption, or by what its function gives. Else an IF is told by its branches, each under the test
//! or its NOT, a call by its opening, and a term that is assumed to equal another by that one. So `(IF (NUMBERP X) X 0)` is a number:
//! X is one where the test holds, and 0 is one. How far this goes is bounded by levels. What assumptions say that the term is not is
//! taken away at the end.
ghost use Rattle.std.specs.Prelude.{◌≡◌, ◌≤◌, All, IfOk, IfSome, Err, length};
ghost use Rattle.nq_logic.specs.ShellPrinciple.{shells_of};
ghost use Rattle.nq_history.specs.Events.{events_at};
ghost use Rattle.nq_kernel.specs.Growing.{LineStands, WorkGrows, WorkStands};
ghost use Rattle.nq_kernel.specs.Ready.{IsReady};
ghost use Rattle.nq_lines.specs.Lines.{IsTermIn};
ghost use Rattle.nq_types.specs.Guessing.{CanGuess, IsEqualIn, IsGuessed};

use crate::assumptions::{Equal, equal_to, telling, told_by, told_by_line};
use crate::branches::branches_of;
use crate::denying::without_all;
use crate::exact::exact_line;
use crate::functions::plain_line;
use crate::nesting::nest_line;
use crate::replacing::carried;
use crate::testing::if_line;
use nq_bank::TermId;
use nq_history::History;
use nq_kernel::{Stop, Work};
use nq_lines::{Fact, opening};
use nq_ready::own_terms;

/// How many IFs, openings and equations lead from a term to one that is told by itself.
const MOST_LEVELS: u64 = 10;

/// Adds a line of what a term is, by the first assumption that tells it, or else by its function.
fn known_line(
    work: &mut Work,
    history: &History,
    assumed: &[TermId],
    t: TermId,
) -> Result<Option<u64>, Stop>
    requires can { CanGuess history.now work.old assumed.now }
    requires term { IsTermIn history.now work.old t }
    ensures line { IfOk result (λ found. IfSome found (LineStands work.new)) }
    ensures grows { WorkGrows history.now work.old work.new }
    ensures out { result ≡ Err Stop.OutOfSteps → work.new.counter.used ≡ work.new.counter.limit }
{
    match telling(work, history, assumed, t) {
        Some(a) => told_by(work, history, a, t),
        None => plain_line(work, history, t),
    }
}

/// Adds a line of what a term is, by its form, by an assumption, or by its function.
fn outer_line(
    work: &mut Work,
    history: &History,
    assumed: &[TermId],
    t: TermId,
) -> Result<Option<u64>, Stop>
    requires can { CanGuess history.now work.old assumed.now }
    requires term { IsTermIn history.now work.old t }
    ensures line { IfOk result (λ found. IfSome found (LineStands work.new)) }
    ensures grows { WorkGrows history.now work.old work.new }
    ensures out { result ≡ Err Stop.OutOfSteps → work.new.counter.used ≡ work.new.counter.limit }
{
    match exact_line(work, history, t)? {
        Some(line) => Ok(Some(line)),
        None => known_line(work, history, assumed, t),
    }
}

/// Adds a line of what a call is, by its opening.
#[cycle(guessing)]
fn body_line(
    work: &mut Work,
    history: &History,
    assumed: &[TermId],
    levels: u64,
    t: TermId,
    body: Fact,
) -> Result<Option<u64>, Stop>
    requires can { CanGuess history.now work.old assumed.now }
    requires term { IsTermIn history.now work.old t }
    requires body { IsGuessed history.now work.old body }
    ensures line { IfOk result (λ found. IfSome found (LineStands work.new)) }
    ensures grows { WorkGrows history.now work.old work.new }
    ensures out { result ≡ Err Stop.OutOfSteps → work.new.counter.used ≡ work.new.counter.limit }
{
    match told_line(work, history, assumed, levels, body.term)? {
        Some(line) => {
            let told = carried(work, history, t, body.term, body.line, line)?;
            Ok(Some(told))
        }
        None => Ok(None),
    }
}

/// Adds a line of what a term is, where it is a call that opens.
#[cycle(guessing)]
fn opened_line(
    work: &mut Work,
    history: &History,
    assumed: &[TermId],
    levels: u64,
    t: TermId,
) -> Result<Option<u64>, Stop>
    requires can { CanGuess history.now work.old assumed.now }
    requires term { IsTermIn history.now work.old t }
    ensures line { IfOk result (λ found. IfSome found (LineStands work.new)) }
    ensures grows { WorkGrows history.now work.old work.new }
    ensures out { result ≡ Err Stop.OutOfSteps → work.new.counter.used ≡ work.new.counter.limit }
{
    own_terms();
    match opening(work, history, t)? {
        Some(body) => body_line(work, history, assumed, levels, t, body),
        None => Ok(None),
    }
}

/// Adds a line of what a term is, by one that it is assumed to equal.
#[cycle(guessing)]
fn line_of_equal(
    work: &mut Work,
    history: &History,
    assumed: &[TermId],
    levels: u64,
    t: TermId,
    equal: Equal,
) -> Result<Option<u64>, Stop>
    requires can { CanGuess history.now work.old assumed.now }
    requires term { IsTermIn history.now work.old t }
    requires equal { IsEqualIn history.now work.old equal }
    ensures line { IfOk result (λ found. IfSome found (LineStands work.new)) }
    ensures grows { WorkGrows history.now work.old work.new }
    ensures out { result ≡ Err Stop.OutOfSteps → work.new.counter.used ≡ work.new.counter.limit }
{
    match told_line(work, history, assumed, levels, equal.other)? {
        Some(line) => told_by_line(
            work,
            history,
            equal.assumption,
            equal.turned,
            t,
            equal.other,
            line,
        ),
        None => Ok(None),
    }
}

/// Adds a line of what a term is, where it is assumed to equal another.
#[cycle(guessing)]
fn equal_line(
    work: &mut Work,
    history: &History,
    assumed: &[TermId],
    levels: u64,
    t: TermId,
) -> Result<Option<u64>, Stop>
    requires can { CanGuess history.now work.old assumed.now }
    requires term { IsTermIn history.now work.old t }
    ensures line { IfOk result (λ found. IfSome found (LineStands work.new)) }
    ensures grows { WorkGrows history.now work.old work.new }
    ensures out { result ≡ Err Stop.OutOfSteps → work.new.counter.used ≡ work.new.counter.limit }
{
    match equal_to(work, history, assumed, t) {
        Some(equal) => line_of_equal(work, history, assumed, levels, t, equal),
        None => Ok(None),
    }
}

/// Adds a line of what a term that is no IF is, by its opening, or by a term that it is assumed to equal.
#[cycle(guessing)]
fn other_line(
    work: &mut Work,
    history: &History,
    assumed: &[TermId],
    levels: u64,
    t: TermId,
) -> Result<Option<u64>, Stop>
    requires can { CanGuess history.now work.old assumed.now }
    requires term { IsTermIn history.now work.old t }
    ensures line { IfOk result (λ found. IfSome found (LineStands work.new)) }
    ensures grows { WorkGrows history.now work.old work.new }
    ensures out { result ≡ Err Stop.OutOfSteps → work.new.counter.used ≡ work.new.counter.limit }
{
    match opened_line(work, history, assumed, levels, t)? {
        Some(line) => Ok(Some(line)),
        None => equal_line(work, history, assumed, levels, t),
    }
}

/// Adds a line of what a term is, by another one.
#[cycle(guessing)]
fn inner_line(
    work: &mut Work,
    history: &History,
    assumed: &[TermId],
    levels: u64,
    t: TermId,
) -> Result<Option<u64>, Stop>
    requires can { CanGuess history.now work.old assumed.now }
    requires term { IsTermIn history.now work.old t }
    ensures line { IfOk result (λ found. IfSome found (LineStands work.new)) }
    ensures grows { WorkGrows history.now work.old work.new }
    ensures out { result ≡ Err Stop.OutOfSteps → work.new.counter.used ≡ work.new.counter.limit }
{
    match branches_of(work, history, t) {
        Some(parts) => if_line(work, history, assumed, levels, t, parts),
        None => other_line(work, history, assumed, levels, t),
    }
}

/// Adds a line of what a term is, by another one, where there are levels left.
#[cycle(guessing)]
fn deeper_line(
    work: &mut Work,
    history: &History,
    assumed: &[TermId],
    levels: u64,
    t: TermId,
) -> Result<Option<u64>, Stop>
    requires can { CanGuess history.now work.old assumed.now }
    requires term { IsTermIn history.now work.old t }
    ensures line { IfOk result (λ found. IfSome found (LineStands work.new)) }
    ensures grows { WorkGrows history.now work.old work.new }
    ensures out { result ≡ Err Stop.OutOfSteps → work.new.counter.used ≡ work.new.counter.limit }
{
    if levels == 0 {
        Ok(None)
    } else {
        inner_line(work, history, assumed, levels - 1, t)
    }
}

/// Adds a line of what a term is, by itself or by another one.
#[cycle(guessing)]
fn any_line(
    work: &mut Work,
    history: &History,
    assumed: &[TermId],
    levels: u64,
    t: TermId,
) -> Result<Option<u64>, Stop>
    requires can { CanGuess history.now work.old assumed.now }
    requires term { IsTermIn history.now work.old t }
    ensures line { IfOk result (λ found. IfSome found (LineStands work.new)) }
    ensures grows { WorkGrows history.now work.old work.new }
    ensures out { result ≡ Err Stop.OutOfSteps → work.new.counter.used ≡ work.new.counter.limit }
{
    match outer_line(work, history, assumed, t)? {
        Some(line) => Ok(Some(line)),
        None => deeper_line(work, history, assumed, levels, t),
    }
}

/// Adds a line of what a term is, without what it is assumed not to be.
#[cycle(guessing)]
pub fn told_line(
    work: &mut Work,
    history: &History,
    assumed: &[TermId],
    levels: u64,
    t: TermId,
) -> Result<Option<u64>, Stop>
    requires can { CanGuess history.now work.old assumed.now }
    requires term { IsTermIn history.now work.old t }
    ensures line { IfOk result (λ found. IfSome found (LineStands work.new)) }
    ensures grows { WorkGrows history.now work.old work.new }
    ensures out { result ≡ Err Stop.OutOfSteps → work.new.counter.used ≡ work.new.counter.limit }
{
    match any_line(work, history, assumed, levels, t)? {
        Some(line) => {
            let told = without_all(work, history, assumed, t, line)?;
            Ok(Some(told))
        }
        None => Ok(None),
    }
}

/// Adds a line that may show the type of a term: what it is, or else what it is not.
pub fn guessed_line(
    work: &mut Work,
    history: &History,
    assumed: &[TermId],
    t: TermId,
) -> Result<Option<u64>, Stop>
    requires stands { WorkStands history.now work.old }
    requires ready { IsReady (events_at work.old.bank history.now) }
    requires room { length (shells_of (events_at work.old.bank history.now)) ≤ 61 }
    requires assumed { All (IsTermIn history.now work.old) assumed.now }
    requires term { IsTermIn history.now work.old t }
    ensures line { IfOk result (λ found. IfSome found (LineStands work.new)) }
    ensures grows { WorkGrows history.now work.old work.new }
    ensures out { result ≡ Err Stop.OutOfSteps → work.new.counter.used ≡ work.new.counter.limit }
{
    match told_line(work, history, assumed, MOST_LEVELS, t)? {
        Some(line) => Ok(Some(line)),
        None => nest_line(work, history, assumed, t),
    }
}
