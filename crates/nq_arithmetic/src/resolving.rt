//! Lines without the facts that they rest on.
ghost use Rattle.std.specs.Prelude.{◌≡◌, All, IfOk, Err};
ghost use Rattle.nq_kernel.specs.Growing.{LineStands, WorkGrows, WorkStands};
ghost use Rattle.nq_lines.specs.Lines.{IsTermIn};
ghost use Rattle.nq_arithmetic.specs.Claims.{IsAssumptionIn};

use crate::assumptions::{Assumption, literals_with};
use crate::claims::{join, opposite_of};
use crate::reading::line_has;
use crate::sources::source_line;
use nq_bank::TermId;
use nq_history::History;
use nq_kernel::{Stop, Work};

/// Adds a line without a fact that it rests on. The fact may rest on those before it.
fn without_fact(
    work: &mut Work,
    history: &History,
    literals: &[TermId],
    assumption: Assumption,
    line: u64,
) -> Result<u64, Stop>
    requires stands { WorkStands history.now work.old }
    requires literals { All (IsTermIn history.now work.old) literals.now }
    requires assumption { IsAssumptionIn history.now work.old assumption }
    requires line { LineStands work.old line }
    ensures line { IfOk result (λ n. LineStands work.new n) }
    ensures grows { WorkGrows history.now work.old work.new }
    ensures out { result ≡ Err Stop.OutOfSteps → work.new.counter.used ≡ work.new.counter.limit }
{
    let shown = source_line(work, history, literals, assumption.source)?;
    join(work, history, assumption.claim, shown, line)
}

/// Adds a line without the fact at a place, where it rests on it.
fn without_place(
    work: &mut Work,
    history: &History,
    goal: &[TermId],
    assumptions: &[Assumption],
    place: usize,
    line: u64,
) -> Result<u64, Stop>
    requires stands { WorkStands history.now work.old }
    requires goal { All (IsTermIn history.now work.old) goal.now }
    requires assumptions { All (IsAssumptionIn history.now work.old) assumptions.now }
    requires line { LineStands work.old line }
    ensures line { IfOk result (λ n. LineStands work.new n) }
    ensures grows { WorkGrows history.now work.old work.new }
    ensures out { result ≡ Err Stop.OutOfSteps → work.new.counter.used ≡ work.new.counter.limit }
{
    if place >= assumptions.len() {
        return Ok(line);
    }
    let opposite = opposite_of(work, history, assumptions[place].claim);
    if !line_has(work, history, line, opposite) {
        return Ok(line);
    }
    let literals = literals_with(work, history, goal, assumptions, place)?;
    without_fact(work, history, literals.as_slice(), assumptions[place], line)
}

/// Adds a line without the facts that it rests on, the last ones first.
pub fn resolved(
    work: &mut Work,
    history: &History,
    goal: &[TermId],
    assumptions: &[Assumption],
    line: u64,
) -> Result<u64, Stop>
    requires stands { WorkStands history.now work.old }
    requires goal { All (IsTermIn history.now work.old) goal.now }
    requires assumptions { All (IsAssumptionIn history.now work.old) assumptions.now }
    requires line { LineStands work.old line }
    ensures line { IfOk result (λ n. LineStands work.new n) }
    ensures grows { WorkGrows history.now work.old work.new }
    ensures out { result ≡ Err Stop.OutOfSteps → work.new.counter.used ≡ work.new.counter.limit }
{
    let mut last = line;
    for done in 0..assumptions.len() {
        let place = assumptions.len() - 1 - done;
        last = without_place(work, history, goal, assumptions, place, last)?;
    }
    Ok(last)
}
