//! Lines that say of what kind an object just made is.
ghost use Rattle.std.specs.Prelude.{◌≡◌, IfOk, IfSome, Err};
ghost use Rattle.nq_bank.specs.Content.{IsNamed, term_at, terms_at};
ghost use Rattle.nq_kernel.specs.Growing.{WorkGrows};
ghost use Rattle.nq_lines.specs.Lines.{IsTermIn};
ghost use Rattle.nq_lines.specs.Facts.{IsFact};
ghost use Rattle.nq_reduce.specs.Clauses.{LineIsIn};
ghost use Rattle.nq_reduce.specs.Held.{IsHeld};
ghost use Rattle.nq_reduce.specs.Rewriting.{CanRewrite};

use crate::clauses::row_of;
use crate::congruence::argument_of;
use crate::kinds::{constructor_at, made_row};
use nq_bank::{Sym, TermId};
use nq_history::History;
use nq_kernel::{Stop, Work};
use nq_lines::{Fact, literal_of, matched_fact};

/// The line of the recognizer of an object just made.
pub fn made_fact(
    work: &mut Work,
    history: &History,
    assumed: &[TermId],
    t: TermId,
) -> Result<Option<Fact>, Stop>
    requires can { CanRewrite history.now work.old assumed.now t }
    ensures held { IfOk result (λ found. IfSome found (IsHeld history.now work.new (terms_at work.old.bank assumed.now))) }
    ensures grows { WorkGrows history.now work.old work.new }
    ensures out { result ≡ Err Stop.OutOfSteps → work.new.counter.used ≡ work.new.counter.limit }
{
    match made_row(&work.bank, history, t) {
        Some((place, row)) => made_by(work, history, assumed, place, row, t),
        None => Ok(None),
    }
}

/// The same, by a row of the shell at a place.
fn made_by(
    work: &mut Work,
    history: &History,
    assumed: &[TermId],
    place: usize,
    row: u64,
    t: TermId,
) -> Result<Option<Fact>, Stop>
    requires can { CanRewrite history.now work.old assumed.now t }
    ensures held { IfOk result (λ found. IfSome found (IsHeld history.now work.new (terms_at work.old.bank assumed.now))) }
    ensures grows { WorkGrows history.now work.old work.new }
    ensures out { result ≡ Err Stop.OutOfSteps → work.new.counter.used ≡ work.new.counter.limit }
{
    match constructor_at(work, history, place) {
        Some(name) => made_by_row(work, history, assumed, name, row, t),
        None => Ok(None),
    }
}

/// The same, by the row of this name.
fn made_by_row(
    work: &mut Work,
    history: &History,
    assumed: &[TermId],
    name: Sym,
    row: u64,
    t: TermId,
) -> Result<Option<Fact>, Stop>
    requires can { CanRewrite history.now work.old assumed.now t }
    requires name { IsNamed work.old.bank name }
    ensures held { IfOk result (λ found. IfSome found (IsHeld history.now work.new (terms_at work.old.bank assumed.now))) }
    ensures grows { WorkGrows history.now work.old work.new }
    ensures out { result ≡ Err Stop.OutOfSteps → work.new.counter.used ≡ work.new.counter.limit }
{
    match row_of(work, history, name, row, 0)? {
        Some(line) => made_by_line(work, history, assumed, line, t),
        None => Ok(None),
    }
}

/// The same, by its line.
fn made_by_line(
    work: &mut Work,
    history: &History,
    assumed: &[TermId],
    line: u64,
    t: TermId,
) -> Result<Option<Fact>, Stop>
    requires can { CanRewrite history.now work.old assumed.now t }
    requires line { LineIsIn history.now work.old line }
    ensures held { IfOk result (λ found. IfSome found (IsHeld history.now work.new (terms_at work.old.bank assumed.now))) }
    ensures grows { WorkGrows history.now work.old work.new }
    ensures out { result ≡ Err Stop.OutOfSteps → work.new.counter.used ≡ work.new.counter.limit }
{
    match literal_of(work, history, line) {
        Some(literal) => made_by_fact(
            work,
            history,
            assumed,
            Fact {
                term: literal,
                line,
            },
            t,
        ),
        None => Ok(None),
    }
}

/// The same, by its literal.
fn made_by_fact(
    work: &mut Work,
    history: &History,
    assumed: &[TermId],
    fact: Fact,
    t: TermId,
) -> Result<Option<Fact>, Stop>
    requires can { CanRewrite history.now work.old assumed.now t }
    requires fact { IsFact history.now work.old fact }
    ensures held { IfOk result (λ found. IfSome found (IsHeld history.now work.new (terms_at work.old.bank assumed.now))) }
    ensures grows { WorkGrows history.now work.old work.new }
    ensures out { result ≡ Err Stop.OutOfSteps → work.new.counter.used ≡ work.new.counter.limit }
{
    match argument_of(work, history, fact.term, 1) {
        Some(pattern) => made_instance(work, history, assumed, fact, pattern, t),
        None => Ok(None),
    }
}

/// The instance of a line that takes a pattern to t.
fn made_instance(
    work: &mut Work,
    history: &History,
    assumed: &[TermId],
    fact: Fact,
    pattern: TermId,
    t: TermId,
) -> Result<Option<Fact>, Stop>
    requires can { CanRewrite history.now work.old assumed.now t }
    requires fact { IsFact history.now work.old fact }
    requires pattern { IsTermIn history.now work.old pattern }
    ensures held { IfOk result (λ found. IfSome found (IsHeld history.now work.new (terms_at work.old.bank assumed.now))) }
    ensures grows { WorkGrows history.now work.old work.new }
    ensures out { result ≡ Err Stop.OutOfSteps → work.new.counter.used ≡ work.new.counter.limit }
{
    matched_fact(work, history, fact, pattern, t)
}
