//! What the work knows of measures: lines that say that a measure is an ordinal, or that it falls under tests.
ghost use Rattle.std.specs.Prelude.{◌≡◌, IfOk, IfSome, Err};
ghost use Rattle.nq_kernel.specs.Growing.{WorkStands, WorkGrows, LineStands};
ghost use Rattle.nq_lines.specs.Lines.{IsTermIn};
ghost use Rattle.nq_lines.specs.Facts.{IsFact};
ghost use Rattle.nq_schemes.specs.Steps.{IsOrdinalIn};

use crate::ordinals::{law_fact, ordinal_in};
use crate::own::is_own;
use crate::terms::{argument_of, has_id, is_call_of};
use nq_bank::{Bank, TermId, ground};
use nq_history::History;
use nq_kernel::{Stop, Work};
use nq_lines::{Fact, instance, match_pairs, matched_fact};

/// The line at a place among those that the work knows of functions.
fn known_line(work: &Work, history: &History, place: usize) -> Option<u64>
    requires { WorkStands history.now work.now }
    ensures { IfSome result (LineStands work.now) }
{
    let _ = history.len();
    let known = work.known.as_slice();
    if place < known.len() {
        Some(known[place].line)
    } else {
        None
    }
}

/// The literal that says that one ordinal is below another.
fn below_in(bank: &Bank, literals: &[TermId]) -> Option<TermId> {
    for t in literals {
        if t.0 < bank.len() && is_call_of(bank, ground::ORD_LESSP, *t) {
            return Some(*t);
        }
    }
    None
}

/// The literal of a line that says that a measure falls.
fn fall_in(work: &Work, history: &History, line: u64) -> Option<TermId>
    requires stands { WorkStands history.now work.now }
    requires line { LineStands work.now line }
    ensures { IfSome result (IsTermIn history.now work.now) }
{
    let literals = work.log.clause_over(&work.bank, line);
    let t = below_in(&work.bank, literals)?;
    if is_own(work, history, t) {
        Some(t)
    } else {
        None
    }
}

/// Are all of these among others?
fn are_among(ids: &[TermId], others: &[TermId]) -> bool {
    for t in ids {
        if !has_id(others, *t) {
            return false;
        }
    }
    true
}

/// A line, if it has only literals of a goal.
fn fitting(work: &Work, history: &History, goal: &[TermId], line: u64) -> Option<u64>
    requires stands { WorkStands history.now work.now }
    requires line { LineStands work.now line }
    ensures { IfSome result (LineStands work.now) }
{
    let literals = work.log.clause_over(&work.bank, line);
    if are_among(literals, goal) {
        Some(line)
    } else {
        None
    }
}

/// The instance of a line in which a pattern becomes a term, if it has only literals of a goal.
fn fall_matched(
    work: &mut Work,
    history: &History,
    goal: &[TermId],
    falls: TermId,
    line: u64,
    pattern: TermId,
) -> Result<Option<u64>, Stop>
    requires stands { WorkStands history.now work.old }
    requires line { LineStands work.old line }
    requires pattern { IsTermIn history.now work.old pattern }
    requires falls { IsTermIn history.now work.old falls }
    ensures line { IfOk result (λ found. IfSome found (LineStands work.new)) }
    ensures grows { WorkGrows history.now work.old work.new }
    ensures out { result ≡ Err Stop.OutOfSteps → work.new.counter.used ≡ work.new.counter.limit }
{
    match match_pairs(work, history, pattern, falls)? {
        Some(pairs) => {
            let n = instance(work, history, line, pairs)?;
            Ok(fitting(work, history, goal, n))
        }
        None => Ok(None),
    }
}

/// The instance of a known line that shows that a measure falls, if it has only literals of a goal.
fn fall_by(
    work: &mut Work,
    history: &History,
    goal: &[TermId],
    falls: TermId,
    line: u64,
) -> Result<Option<u64>, Stop>
    requires stands { WorkStands history.now work.old }
    requires line { LineStands work.old line }
    requires falls { IsTermIn history.now work.old falls }
    ensures line { IfOk result (λ found. IfSome found (LineStands work.new)) }
    ensures grows { WorkGrows history.now work.old work.new }
    ensures out { result ≡ Err Stop.OutOfSteps → work.new.counter.used ≡ work.new.counter.limit }
{
    match fall_in(work, history, line) {
        Some(pattern) => fall_matched(work, history, goal, falls, line, pattern),
        None => Ok(None),
    }
}

/// The same, of the known line at a place.
fn fall_at(
    work: &mut Work,
    history: &History,
    goal: &[TermId],
    falls: TermId,
    place: usize,
) -> Result<Option<u64>, Stop>
    requires stands { WorkStands history.now work.old }
    requires falls { IsTermIn history.now work.old falls }
    ensures line { IfOk result (λ found. IfSome found (LineStands work.new)) }
    ensures grows { WorkGrows history.now work.old work.new }
    ensures out { result ≡ Err Stop.OutOfSteps → work.new.counter.used ≡ work.new.counter.limit }
{
    match known_line(work, history, place) {
        Some(line) => fall_by(work, history, goal, falls, line),
        None => Ok(None),
    }
}

/// A line with only literals of a goal, by what is known of how measures fall.
pub fn known_fall(
    work: &mut Work,
    history: &History,
    goal: &[TermId],
    falls: TermId,
) -> Result<Option<u64>, Stop>
    requires stands { WorkStands history.now work.old }
    requires falls { IsTermIn history.now work.old falls }
    ensures line { IfOk result (λ found. IfSome found (LineStands work.new)) }
    ensures grows { WorkGrows history.now work.old work.new }
    ensures out { result ≡ Err Stop.OutOfSteps → work.new.counter.used ≡ work.new.counter.limit }
{
    for place in 0..work.known.len() {
        let found = fall_at(work, history, goal, falls, place)?;
        if found.is_some() {
            return Ok(found);
        }
    }
    Ok(None)
}

/// The argument of a term that says that it is an ordinal.
fn ordinal_pattern(work: &Work, history: &History, fact: Fact) -> Option<TermId>
    requires stands { WorkStands history.now work.now }
    requires fact { IsFact history.now work.now fact }
    ensures { IfSome result (IsTermIn history.now work.now) }
{
    if !is_call_of(&work.bank, ground::ORDINALP, fact.term) {
        return None;
    }
    let t = argument_of(&work.bank, fact.term, 0)?;
    if is_own(work, history, t) {
        Some(t)
    } else {
        None
    }
}

/// The instance of a fact in which a pattern becomes a measure, where that says that the measure is an ordinal.
fn ordinal_matched(
    work: &mut Work,
    history: &History,
    measure: TermId,
    fact: Fact,
    pattern: TermId,
) -> Result<Option<Fact>, Stop>
    requires stands { WorkStands history.now work.old }
    requires measure { IsTermIn history.now work.old measure }
    requires fact { IsFact history.now work.old fact }
    requires pattern { IsTermIn history.now work.old pattern }
    ensures ordinal { IfOk result (λ found. IfSome found (IsOrdinalIn history.now work.new)) }
    ensures grows { WorkGrows history.now work.old work.new }
    ensures out { result ≡ Err Stop.OutOfSteps → work.new.counter.used ≡ work.new.counter.limit }
{
    match matched_fact(work, history, fact, pattern, measure)? {
        Some(here) => ordinal_in(work, history, here),
        None => Ok(None),
    }
}

/// The same, by a fact that the work knows.
fn ordinal_by_fact(
    work: &mut Work,
    history: &History,
    measure: TermId,
    fact: Fact,
) -> Result<Option<Fact>, Stop>
    requires stands { WorkStands history.now work.old }
    requires measure { IsTermIn history.now work.old measure }
    requires fact { IsFact history.now work.old fact }
    ensures ordinal { IfOk result (λ found. IfSome found (IsOrdinalIn history.now work.new)) }
    ensures grows { WorkGrows history.now work.old work.new }
    ensures out { result ≡ Err Stop.OutOfSteps → work.new.counter.used ≡ work.new.counter.limit }
{
    match ordinal_pattern(work, history, fact) {
        Some(pattern) => ordinal_matched(work, history, measure, fact, pattern),
        None => Ok(None),
    }
}

/// The fact of the known line at a place, if that has one literal.
fn known_fact(work: &Work, history: &History, place: usize) -> Option<Fact>
    requires { WorkStands history.now work.now }
    ensures { IfSome result (IsFact history.now work.now) }
{
    match known_line(work, history, place) {
        Some(line) => law_fact(work, history, line),
        None => None,
    }
}

/// The same, of the known line at a place.
fn ordinal_at_place(
    work: &mut Work,
    history: &History,
    measure: TermId,
    place: usize,
) -> Result<Option<Fact>, Stop>
    requires stands { WorkStands history.now work.old }
    requires measure { IsTermIn history.now work.old measure }
    ensures ordinal { IfOk result (λ found. IfSome found (IsOrdinalIn history.now work.new)) }
    ensures grows { WorkGrows history.now work.old work.new }
    ensures out { result ≡ Err Stop.OutOfSteps → work.new.counter.used ≡ work.new.counter.limit }
{
    match known_fact(work, history, place) {
        Some(fact) => ordinal_by_fact(work, history, measure, fact),
        None => Ok(None),
    }
}

/// A measure, and the line that it is an ordinal, by what is known of measures.
pub fn known_ordinal(
    work: &mut Work,
    history: &History,
    measure: TermId,
) -> Result<Option<Fact>, Stop>
    requires stands { WorkStands history.now work.old }
    requires measure { IsTermIn history.now work.old measure }
    ensures ordinal { IfOk result (λ found. IfSome found (IsOrdinalIn history.now work.new)) }
    ensures grows { WorkGrows history.now work.old work.new }
    ensures out { result ≡ Err Stop.OutOfSteps → work.new.counter.used ≡ work.new.counter.limit }
{
    for place in 0..work.known.len() {
        let found = ordinal_at_place(work, history, measure, place)?;
        if found.is_some() {
            return Ok(found);
        }
    }
    Ok(None)
}
