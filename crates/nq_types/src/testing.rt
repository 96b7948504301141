//! Lines of what IFs are, by their branches, each under the test or its NOT; by one branch where the test is assumed or denied.
ghost use Rattle.std.specs.Prelude.{◌≡◌, IfOk, IfSome, Err};
ghost use Rattle.nq_kernel.specs.Growing.{LineStands, WorkGrows};
ghost use Rattle.nq_lines.specs.Lines.{IsTermIn};
ghost use Rattle.nq_lines.specs.Branches.{AreBranchesIn};
ghost use Rattle.nq_types.specs.Guessing.{CanGuess};

use crate::branches::{denial_of, first_told, second_told, under_denial, with_more};
use crate::guessing::told_line;
use crate::judging::has_id;
use nq_bank::TermId;
use nq_history::History;
use nq_kernel::{Stop, Work};
use nq_lines::cut;
use nq_rule::Branches;

/// Adds a line of what an IF is, or that its test is false, by its first branch.
#[cycle(guessing)]
fn first_line(
    work: &mut Work,
    history: &History,
    assumed: &[TermId],
    levels: u64,
    t: TermId,
    parts: Branches,
) -> Result<Option<u64>, Stop>
    requires can { CanGuess history.now work.old assumed.now }
    requires term { IsTermIn history.now work.old t }
    requires parts { AreBranchesIn history.now work.old parts }
    ensures line { IfOk result (λ found. IfSome found (LineStands work.new)) }
    ensures grows { WorkGrows history.now work.old work.new }
    ensures out { result ≡ Err Stop.OutOfSteps → work.new.counter.used ≡ work.new.counter.limit }
{
    let more = with_more(work, history, parts.test, assumed)?;
    match told_line(work, history, more.as_slice(), levels, parts.first)? {
        Some(line) => {
            let told = first_told(work, history, t, parts, line)?;
            Ok(Some(told))
        }
        None => Ok(None),
    }
}

/// Adds a line of what an IF is, or that its test holds, by its second branch.
#[cycle(guessing)]
fn second_line(
    work: &mut Work,
    history: &History,
    assumed: &[TermId],
    levels: u64,
    t: TermId,
    parts: Branches,
) -> Result<Option<u64>, Stop>
    requires can { CanGuess history.now work.old assumed.now }
    requires term { IsTermIn history.now work.old t }
    requires parts { AreBranchesIn history.now work.old parts }
    ensures line { IfOk result (λ found. IfSome found (LineStands work.new)) }
    ensures grows { WorkGrows history.now work.old work.new }
    ensures out { result ≡ Err Stop.OutOfSteps → work.new.counter.used ≡ work.new.counter.limit }
{
    let denied = denial_of(work, history, parts.test)?;
    let more = with_more(work, history, denied, assumed)?;
    match told_line(work, history, more.as_slice(), levels, parts.second)? {
        Some(line) => {
            let told = second_told(work, history, t, parts, line)?;
            Ok(Some(told))
        }
        None => Ok(None),
    }
}

/// Adds a line of what an IF is, from one by its first branch, and by its second unless the test is assumed.
#[cycle(guessing)]
fn with_second(
    work: &mut Work,
    history: &History,
    assumed: &[TermId],
    levels: u64,
    t: TermId,
    parts: Branches,
    first: u64,
) -> Result<Option<u64>, Stop>
    requires can { CanGuess history.now work.old assumed.now }
    requires term { IsTermIn history.now work.old t }
    requires parts { AreBranchesIn history.now work.old parts }
    requires first { LineStands work.old first }
    ensures line { IfOk result (λ found. IfSome found (LineStands work.new)) }
    ensures grows { WorkGrows history.now work.old work.new }
    ensures out { result ≡ Err Stop.OutOfSteps → work.new.counter.used ≡ work.new.counter.limit }
{
    if has_id(assumed, parts.test) {
        return Ok(Some(first));
    }
    match second_line(work, history, assumed, levels, t, parts)? {
        Some(second) => {
            let line = cut(work, history, second, first, parts.test)?;
            Ok(Some(line))
        }
        None => Ok(None),
    }
}

/// Adds a line of what an IF is, by its second branch, where the denial of the test is assumed.
#[cycle(guessing)]
fn second_alone(
    work: &mut Work,
    history: &History,
    assumed: &[TermId],
    levels: u64,
    t: TermId,
    parts: Branches,
) -> Result<Option<u64>, Stop>
    requires can { CanGuess history.now work.old assumed.now }
    requires term { IsTermIn history.now work.old t }
    requires parts { AreBranchesIn history.now work.old parts }
    ensures line { IfOk result (λ found. IfSome found (LineStands work.new)) }
    ensures grows { WorkGrows history.now work.old work.new }
    ensures out { result ≡ Err Stop.OutOfSteps → work.new.counter.used ≡ work.new.counter.limit }
{
    match second_line(work, history, assumed, levels, t, parts)? {
        Some(line) => {
            let told = under_denial(work, history, parts.test, line)?;
            Ok(Some(told))
        }
        None => Ok(None),
    }
}

/// Adds a line of what an IF is, by its first branch, and by its second unless the test is assumed.
#[cycle(guessing)]
fn first_then_second(
    work: &mut Work,
    history: &History,
    assumed: &[TermId],
    levels: u64,
    t: TermId,
    parts: Branches,
) -> Result<Option<u64>, Stop>
    requires can { CanGuess history.now work.old assumed.now }
    requires term { IsTermIn history.now work.old t }
    requires parts { AreBranchesIn history.now work.old parts }
    ensures line { IfOk result (λ found. IfSome found (LineStands work.new)) }
    ensures grows { WorkGrows history.now work.old work.new }
    ensures out { result ≡ Err Stop.OutOfSteps → work.new.counter.used ≡ work.new.counter.limit }
{
    match first_line(work, history, assumed, levels, t, parts)? {
        Some(first) => with_second(work, history, assumed, levels, t, parts, first),
        None => Ok(None),
    }
}

/// Adds a line of what an IF is, by its branches, or by one where the test is assumed or denied.
#[cycle(guessing)]
pub fn if_line(
    work: &mut Work,
    history: &History,
    assumed: &[TermId],
    levels: u64,
    t: TermId,
    parts: Branches,
) -> Result<Option<u64>, Stop>
    requires can { CanGuess history.now work.old assumed.now }
    requires term { IsTermIn history.now work.old t }
    requires parts { AreBranchesIn history.now work.old parts }
    ensures line { IfOk result (λ found. IfSome found (LineStands work.new)) }
    ensures grows { WorkGrows history.now work.old work.new }
    ensures out { result ≡ Err Stop.OutOfSteps → work.new.counter.used ≡ work.new.counter.limit }
{
    let denied = denial_of(work, history, parts.test)?;
    if has_id(assumed, denied) {
        second_alone(work, history, assumed, levels, t, parts)
    } else {
        first_then_second(work, history, assumed, levels, t, parts)
    }
}
