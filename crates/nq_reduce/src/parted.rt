//! The row of a shell that says that an object is made of its parts, about a term, as a line.
ghost use Rattle.std.specs.Prelude.{◌≡◌, All, IfOk, IfSome, Err};
ghost use Rattle.nq_bank.specs.Content.{IsNamed};
ghost use Rattle.nq_history.specs.Events.{events_at};
ghost use Rattle.nq_kernel.specs.Growing.{WorkGrows, WorkStands};
ghost use Rattle.nq_lines.specs.Lines.{IsTermIn};
ghost use Rattle.nq_lines.specs.OwnTerms.{HasOwnTerms};
ghost use Rattle.nq_reduce.specs.Clauses.{LineIsIn};

use crate::clauses::{instance_line, last_of, literals_of, row_of};
use crate::kinds::constructor_at;
use crate::trials::REMADE_IS_SAME;
use nq_bank::{Sym, TermId};
use nq_history::History;
use nq_kernel::{Stop, Work};
use nq_lines::{match_pairs, sides_of};

/// Adds the line that says that a term is made of its parts, if it is an object of the shell at a place.
pub fn parted_line(
    work: &mut Work,
    history: &History,
    place: usize,
    t: TermId,
) -> Result<Option<u64>, Stop>
    requires stands { WorkStands history.now work.old }
    requires ready { HasOwnTerms (events_at work.old.bank history.now) }
    requires term { IsTermIn history.now work.old t }
    ensures line { IfOk result (λ found. IfSome found (LineIsIn history.now work.new)) }
    ensures grows { WorkGrows history.now work.old work.new }
    ensures out { result ≡ Err Stop.OutOfSteps → work.new.counter.used ≡ work.new.counter.limit }
{
    match constructor_at(work, history, place) {
        Some(name) => parted_row(work, history, name, t),
        None => Ok(None),
    }
}

/// The same, by the constructor.
fn parted_row(work: &mut Work, history: &History, name: Sym, t: TermId) -> Result<Option<u64>, Stop>
    requires stands { WorkStands history.now work.old }
    requires ready { HasOwnTerms (events_at work.old.bank history.now) }
    requires name { IsNamed work.old.bank name }
    requires term { IsTermIn history.now work.old t }
    ensures line { IfOk result (λ found. IfSome found (LineIsIn history.now work.new)) }
    ensures grows { WorkGrows history.now work.old work.new }
    ensures out { result ≡ Err Stop.OutOfSteps → work.new.counter.used ≡ work.new.counter.limit }
{
    match row_of(work, history, name, REMADE_IS_SAME, 0)? {
        Some(line) => line_about(work, history, line, t),
        None => Ok(None),
    }
}

/// Adds the instance of a line about a term, in the place of the right side of its last literal.
fn line_about(work: &mut Work, history: &History, line: u64, t: TermId) -> Result<Option<u64>, Stop>
    requires stands { WorkStands history.now work.old }
    requires line { LineIsIn history.now work.old line }
    requires term { IsTermIn history.now work.old t }
    ensures line { IfOk result (λ found. IfSome found (LineIsIn history.now work.new)) }
    ensures grows { WorkGrows history.now work.old work.new }
    ensures out { result ≡ Err Stop.OutOfSteps → work.new.counter.used ≡ work.new.counter.limit }
{
    let literals = literals_of(work, history, line)?;
    match last_right(work, history, literals.as_slice()) {
        Some(variable) => line_with(work, history, line, variable, t),
        None => Ok(None),
    }
}

/// The right side of the last of some literals.
fn last_right(work: &Work, history: &History, literals: &[TermId]) -> Option<TermId>
    requires stands { WorkStands history.now work.now }
    requires literals { All (IsTermIn history.now work.now) literals.now }
    ensures { IfSome result (IsTermIn history.now work.now) }
{
    let last = last_of(work, history, literals)?;
    let sides = sides_of(work, history, last)?;
    Some(sides.right)
}

/// Adds the instance of a line that has a term in the place of a variable.
fn line_with(
    work: &mut Work,
    history: &History,
    line: u64,
    variable: TermId,
    t: TermId,
) -> Result<Option<u64>, Stop>
    requires stands { WorkStands history.now work.old }
    requires line { LineIsIn history.now work.old line }
    requires variable { IsTermIn history.now work.old variable }
    requires term { IsTermIn history.now work.old t }
    ensures line { IfOk result (λ found. IfSome found (LineIsIn history.now work.new)) }
    ensures grows { WorkGrows history.now work.old work.new }
    ensures out { result ≡ Err Stop.OutOfSteps → work.new.counter.used ≡ work.new.counter.limit }
{
    match match_pairs(work, history, variable, t)? {
        Some(pairs) => instance_line(work, history, line, pairs),
        None => Ok(None),
    }
}
