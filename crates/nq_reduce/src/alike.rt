//! Lines about a part of an object just made: that the part is what the object was made of.
ghost use Rattle.std.specs.Prelude.{◌≡◌, All, IfOk, IfSome, Err};
ghost use Rattle.nq_bank.specs.Content.{IsNamed, term_at, terms_at};
ghost use Rattle.nq_kernel.specs.Growing.{WorkGrows, WorkStands};
ghost use Rattle.nq_lines.specs.Lines.{IsTermIn};
ghost use Rattle.nq_reduce.specs.Clauses.{LineIsIn};
ghost use Rattle.nq_reduce.specs.Held.{IsHeld};
ghost use Rattle.nq_reduce.specs.Rewriting.{CanRewrite};

use crate::clauses::{instance_line, last_of, literals_of, row_of};
use crate::congruence::argument_of;
use crate::kinds::constructor_at;
use crate::rows::{Chosen, shown_by};
use crate::trials::PART_OF_MADE;
use nq_bank::{Sym, TermId};
use nq_history::History;
use nq_kernel::{Stop, Work};
use nq_lines::{Fact, match_pairs, sides_of};

/// The line that a part of an object just made is what it was made of.
pub fn part_fact(
    work: &mut Work,
    history: &History,
    assumed: &[TermId],
    place: usize,
    part: u64,
    t: TermId,
) -> Result<Option<Fact>, Stop>
    requires can { CanRewrite history.now work.old assumed.now t }
    ensures held { IfOk result (λ found. IfSome found (IsHeld history.now work.new (terms_at work.old.bank assumed.now))) }
    ensures grows { WorkGrows history.now work.old work.new }
    ensures out { result ≡ Err Stop.OutOfSteps → work.new.counter.used ≡ work.new.counter.limit }
{
    match constructor_at(work, history, place) {
        Some(name) => part_fact_by(work, history, assumed, name, part, t),
        None => Ok(None),
    }
}

/// The same, by the constructor.
fn part_fact_by(
    work: &mut Work,
    history: &History,
    assumed: &[TermId],
    name: Sym,
    part: u64,
    t: TermId,
) -> Result<Option<Fact>, Stop>
    requires can { CanRewrite history.now work.old assumed.now t }
    requires name { IsNamed work.old.bank name }
    ensures held { IfOk result (λ found. IfSome found (IsHeld history.now work.new (terms_at work.old.bank assumed.now))) }
    ensures grows { WorkGrows history.now work.old work.new }
    ensures out { result ≡ Err Stop.OutOfSteps → work.new.counter.used ≡ work.new.counter.limit }
{
    match row_of(work, history, name, PART_OF_MADE, part)? {
        Some(line) => part_fact_of(work, history, assumed, line, t),
        None => Ok(None),
    }
}

/// The same, by the line of the row.
fn part_fact_of(
    work: &mut Work,
    history: &History,
    assumed: &[TermId],
    line: u64,
    t: TermId,
) -> Result<Option<Fact>, Stop>
    requires can { CanRewrite history.now work.old assumed.now t }
    requires line { LineIsIn history.now work.old line }
    ensures held { IfOk result (λ found. IfSome found (IsHeld history.now work.new (terms_at work.old.bank assumed.now))) }
    ensures grows { WorkGrows history.now work.old work.new }
    ensures out { result ≡ Err Stop.OutOfSteps → work.new.counter.used ≡ work.new.counter.limit }
{
    let literals = literals_of(work, history, line)?;
    match made_pattern(work, history, literals.as_slice()) {
        Some(pattern) => part_fact_at(work, history, assumed, line, pattern, t),
        None => Ok(None),
    }
}

/// The object within the left side of the last of some literals.
fn made_pattern(work: &Work, history: &History, literals: &[TermId]) -> Option<TermId>
    requires stands { WorkStands history.now work.now }
    requires literals { All (IsTermIn history.now work.now) literals.now }
    ensures { IfSome result (IsTermIn history.now work.now) }
{
    let last = last_of(work, history, literals)?;
    let sides = sides_of(work, history, last)?;
    argument_of(work, history, sides.left, 1)
}

/// The same, where the pattern of the object is known.
fn part_fact_at(
    work: &mut Work,
    history: &History,
    assumed: &[TermId],
    line: u64,
    pattern: TermId,
    t: TermId,
) -> Result<Option<Fact>, Stop>
    requires can { CanRewrite history.now work.old assumed.now t }
    requires line { LineIsIn history.now work.old line }
    requires pattern { IsTermIn history.now work.old pattern }
    ensures held { IfOk result (λ found. IfSome found (IsHeld history.now work.new (terms_at work.old.bank assumed.now))) }
    ensures grows { WorkGrows history.now work.old work.new }
    ensures out { result ≡ Err Stop.OutOfSteps → work.new.counter.used ≡ work.new.counter.limit }
{
    match pattern_line(work, history, assumed, line, pattern, t)? {
        Some(made) => shown_by(work, history, assumed, made, Chosen::Last, t),
        None => Ok(None),
    }
}

/// Adds the instance of a line that takes a pattern to a term, if there is one.
fn pattern_line(
    work: &mut Work,
    history: &History,
    assumed: &[TermId],
    line: u64,
    pattern: TermId,
    t: TermId,
) -> Result<Option<u64>, Stop>
    requires can { CanRewrite history.now work.old assumed.now t }
    requires line { LineIsIn history.now work.old line }
    requires pattern { IsTermIn history.now work.old pattern }
    ensures line { IfOk result (λ found. IfSome found (LineIsIn history.now work.new)) }
    ensures grows { WorkGrows history.now work.old work.new }
    ensures out { result ≡ Err Stop.OutOfSteps → work.new.counter.used ≡ work.new.counter.limit }
{
    match match_pairs(work, history, pattern, t)? {
        Some(pairs) => instance_line(work, history, line, pairs),
        None => Ok(None),
    }
}
