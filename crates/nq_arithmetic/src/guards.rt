//! What a fact rests on: the guards of its law, which are among the literals at hand, or follow from these by arithmetic.
ghost use Rattle.std.specs.Prelude.{◌≡◌, All, IfOk, IfSome, Err};
ghost use Rattle.nq_kernel.specs.Growing.{LineStands, WorkGrows, WorkStands};
ghost use Rattle.nq_lines.specs.Lines.{IsTermIn};
ghost use Rattle.nq_arithmetic.specs.Claims.{AreOperandsIn, IsClaimIn};

use crate::claims::{Claim, claim_at, join, literal_of, opposite_of};
use crate::keeping::{Question, is_kept, keep, key_of_claim};
use crate::lines::law_at;
use crate::numbers::{number_law, number_line};
use crate::reading::{Operands, has_id, operands_of};
use crate::refuting::{are_refuted, refuted, with_literal};
use crate::template::{Guard, Template, Way};
use nq_bank::TermId;
use nq_history::History;
use nq_kernel::{Stop, Work};

/// Is the term of which a NUMBERP speaks a number by a law?
fn is_number(work: &Work, history: &History, test: TermId) -> bool
    requires stands { WorkStands history.now work.now }
    requires test { IsTermIn history.now work.now test }
{
    match operands_of(work, history, test) {
        Some(at) => number_law(&work.bank, at.first).is_some(),
        None => false,
    }
}

/// Is the opposite of a claim refuted together with these literals?
fn is_sum(work: &Work, history: &History, literals: &[TermId], claim: Claim) -> Result<bool, Stop>
    requires stands { WorkStands history.now work.now }
    requires literals { All (IsTermIn history.now work.now) literals.now }
    requires claim { IsClaimIn history.now work.now claim }
    ensures memory { result ≡ Err Stop.OutOfSteps → ⊥ }
{
    let opposite = opposite_of(work, history, claim);
    let all = with_literal(work, history, literals, opposite)?;
    are_refuted(work, history, all.as_slice())
}

/// The same, and what was found is kept.
fn is_new_sum(
    work: &mut Work,
    history: &History,
    literals: &[TermId],
    claim: Claim,
    number: u64,
) -> Result<bool, Stop>
    requires stands { WorkStands history.now work.old }
    requires literals { All (IsTermIn history.now work.old) literals.now }
    requires claim { IsClaimIn history.now work.old claim }
    ensures same { work.new ≡ work.old }
    ensures memory { result ≡ Err Stop.OutOfSteps → ⊥ }
{
    let met = is_sum(work, history, literals, claim)?;
    let question = if met { Question::Met } else { Question::Unmet };
    keep(work, question, number);
    Ok(met)
}

/// The same, as it was found before, where that was kept.
fn is_sum_kept(
    work: &mut Work,
    history: &History,
    literals: &[TermId],
    claim: Claim,
) -> Result<bool, Stop>
    requires stands { WorkStands history.now work.old }
    requires literals { All (IsTermIn history.now work.old) literals.now }
    requires claim { IsClaimIn history.now work.old claim }
    ensures same { work.new ≡ work.old }
    ensures memory { result ≡ Err Stop.OutOfSteps → ⊥ }
{
    let number = key_of_claim(literals, claim);
    if is_kept(work, Question::Unmet, number) {
        return Ok(false);
    }
    if is_kept(work, Question::Met, number) {
        return Ok(true);
    }
    is_new_sum(work, history, literals, claim, number)
}

/// Is a literal among these, or met in this way? No line is added.
pub fn is_claim_met(
    work: &mut Work,
    history: &History,
    literals: &[TermId],
    way: Way,
    claim: Claim,
) -> Result<bool, Stop>
    requires stands { WorkStands history.now work.old }
    requires literals { All (IsTermIn history.now work.old) literals.now }
    requires claim { IsClaimIn history.now work.old claim }
    ensures same { work.new ≡ work.old }
    ensures memory { result ≡ Err Stop.OutOfSteps → ⊥ }
{
    if has_id(literals, literal_of(work, history, claim)) {
        return Ok(true);
    }
    match way {
        Way::Goal => Ok(false),
        Way::Number => Ok(is_number(work, history, claim.test)),
        Way::Sum => is_sum_kept(work, history, literals, claim),
    }
}

/// Is a guard met? No line is added.
fn is_met(
    work: &mut Work,
    history: &History,
    literals: &[TermId],
    guard: Guard,
    at: Operands,
) -> Result<bool, Stop>
    requires stands { WorkStands history.now work.old }
    requires literals { All (IsTermIn history.now work.old) literals.now }
    requires at { AreOperandsIn history.now work.old at }
    ensures grows { WorkGrows history.now work.old work.new }
    ensures out { result ≡ Err Stop.OutOfSteps → work.new.counter.used ≡ work.new.counter.limit }
{
    let claim = claim_at(work, history, guard.pattern, at)?;
    is_claim_met(work, history, literals, guard.way, claim)
}

/// Is a guard met, where those before it are?
fn is_met_too(
    work: &mut Work,
    history: &History,
    literals: &[TermId],
    guard: Guard,
    at: Operands,
    before: bool,
) -> Result<bool, Stop>
    requires stands { WorkStands history.now work.old }
    requires literals { All (IsTermIn history.now work.old) literals.now }
    requires at { AreOperandsIn history.now work.old at }
    ensures grows { WorkGrows history.now work.old work.new }
    ensures out { result ≡ Err Stop.OutOfSteps → work.new.counter.used ≡ work.new.counter.limit }
{
    if before {
        is_met(work, history, literals, guard, at)
    } else {
        Ok(false)
    }
}

/// Are all guards met? No line is added.
pub fn are_met(
    work: &mut Work,
    history: &History,
    literals: &[TermId],
    guards: &[Guard],
    at: Operands,
) -> Result<bool, Stop>
    requires stands { WorkStands history.now work.old }
    requires literals { All (IsTermIn history.now work.old) literals.now }
    requires at { AreOperandsIn history.now work.old at }
    ensures grows { WorkGrows history.now work.old work.new }
    ensures out { result ≡ Err Stop.OutOfSteps → work.new.counter.used ≡ work.new.counter.limit }
{
    let mut met = true;
    for guard in guards {
        met = is_met_too(work, history, literals, *guard, at, met)?;
    }
    Ok(met)
}

/// Adds the line that the term of which a NUMBERP speaks is a number.
fn number_shown(work: &mut Work, history: &History, test: TermId) -> Result<Option<u64>, Stop>
    requires stands { WorkStands history.now work.old }
    requires test { IsTermIn history.now work.old test }
    ensures line { IfOk result (λ found. IfSome found (λ n. LineStands work.new n)) }
    ensures grows { WorkGrows history.now work.old work.new }
    ensures out { result ≡ Err Stop.OutOfSteps → work.new.counter.used ≡ work.new.counter.limit }
{
    match operands_of(work, history, test) {
        Some(at) => number_line(work, history, at.first),
        None => Ok(None),
    }
}

/// Adds the line of the opposite of a claim, refuted together with these literals.
fn sum_shown(
    work: &mut Work,
    history: &History,
    literals: &[TermId],
    claim: Claim,
) -> Result<Option<u64>, Stop>
    requires stands { WorkStands history.now work.old }
    requires literals { All (IsTermIn history.now work.old) literals.now }
    requires claim { IsClaimIn history.now work.old claim }
    ensures line { IfOk result (λ found. IfSome found (λ n. LineStands work.new n)) }
    ensures grows { WorkGrows history.now work.old work.new }
    ensures out { result ≡ Err Stop.OutOfSteps → work.new.counter.used ≡ work.new.counter.limit }
{
    let opposite = opposite_of(work, history, claim);
    let all = with_literal(work, history, literals, opposite)?;
    refuted(work, history, all.as_slice())
}

/// Adds the line that meets a guard, with the opposite of its literal.
fn shown(
    work: &mut Work,
    history: &History,
    literals: &[TermId],
    way: Way,
    claim: Claim,
) -> Result<Option<u64>, Stop>
    requires stands { WorkStands history.now work.old }
    requires literals { All (IsTermIn history.now work.old) literals.now }
    requires claim { IsClaimIn history.now work.old claim }
    ensures line { IfOk result (λ found. IfSome found (λ n. LineStands work.new n)) }
    ensures grows { WorkGrows history.now work.old work.new }
    ensures out { result ≡ Err Stop.OutOfSteps → work.new.counter.used ≡ work.new.counter.limit }
{
    match way {
        Way::Goal => Ok(None),
        Way::Number => number_shown(work, history, claim.test),
        Way::Sum => sum_shown(work, history, literals, claim),
    }
}

/// Adds a line without the literal of a guard, where a line shows the opposite.
fn without_claim(
    work: &mut Work,
    history: &History,
    literals: &[TermId],
    way: Way,
    claim: Claim,
    line: u64,
) -> Result<u64, Stop>
    requires stands { WorkStands history.now work.old }
    requires literals { All (IsTermIn history.now work.old) literals.now }
    requires claim { IsClaimIn history.now work.old claim }
    requires line { LineStands work.old line }
    ensures line { IfOk result (λ n. LineStands work.new n) }
    ensures grows { WorkGrows history.now work.old work.new }
    ensures out { result ≡ Err Stop.OutOfSteps → work.new.counter.used ≡ work.new.counter.limit }
{
    match shown(work, history, literals, way, claim)? {
        Some(other) => join(work, history, claim, line, other),
        None => Ok(line),
    }
}

/// Adds a line without the literal of a claim, where that is not among these literals.
pub fn without_literal(
    work: &mut Work,
    history: &History,
    literals: &[TermId],
    way: Way,
    claim: Claim,
    line: u64,
) -> Result<u64, Stop>
    requires stands { WorkStands history.now work.old }
    requires literals { All (IsTermIn history.now work.old) literals.now }
    requires claim { IsClaimIn history.now work.old claim }
    requires line { LineStands work.old line }
    ensures line { IfOk result (λ n. LineStands work.new n) }
    ensures grows { WorkGrows history.now work.old work.new }
    ensures out { result ≡ Err Stop.OutOfSteps → work.new.counter.used ≡ work.new.counter.limit }
{
    if has_id(literals, literal_of(work, history, claim)) {
        Ok(line)
    } else {
        without_claim(work, history, literals, way, claim, line)
    }
}

/// Adds a line without the literal of a guard that is not among these literals.
fn without_guard(
    work: &mut Work,
    history: &History,
    literals: &[TermId],
    guard: Guard,
    at: Operands,
    line: u64,
) -> Result<u64, Stop>
    requires stands { WorkStands history.now work.old }
    requires literals { All (IsTermIn history.now work.old) literals.now }
    requires at { AreOperandsIn history.now work.old at }
    requires line { LineStands work.old line }
    ensures line { IfOk result (λ n. LineStands work.new n) }
    ensures grows { WorkGrows history.now work.old work.new }
    ensures out { result ≡ Err Stop.OutOfSteps → work.new.counter.used ≡ work.new.counter.limit }
{
    let claim = claim_at(work, history, guard.pattern, at)?;
    without_literal(work, history, literals, guard.way, claim, line)
}

/// Adds the line of a fact, with those of its guards that are among these literals.
pub fn fact_line(
    work: &mut Work,
    history: &History,
    literals: &[TermId],
    template: Template,
    at: Operands,
) -> Result<u64, Stop>
    requires stands { WorkStands history.now work.old }
    requires literals { All (IsTermIn history.now work.old) literals.now }
    requires at { AreOperandsIn history.now work.old at }
    ensures line { IfOk result (λ n. LineStands work.new n) }
    ensures grows { WorkGrows history.now work.old work.new }
    ensures out { result ≡ Err Stop.OutOfSteps → work.new.counter.used ≡ work.new.counter.limit }
{
    let shown = law_at(work, history, template.law, at)?;
    let mut line = shown;
    for guard in template.guards {
        line = without_guard(work, history, literals, *guard, at, line)?;
    }
    Ok(line)
}
