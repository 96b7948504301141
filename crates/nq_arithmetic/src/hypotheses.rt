//! Instances of lemmas: what they rest on, and their lines.
ghost use Rattle.std.specs.Prelude.{◌≡◌, All, IfOk, IfSome, Err};
ghost use Rattle.nq_bank.specs.Content.{Stands};
ghost use Rattle.nq_kernel.specs.Growing.{LineStands, WorkGrows, WorkStands};
ghost use Rattle.nq_lines.specs.Lines.{IsTermIn};
ghost use Rattle.nq_instances.specs.Parts.{IsLine};
ghost use Rattle.nq_arithmetic.specs.Claims.{AreOperandsIn, IsClaimIn};

use crate::claims::{Claim, claim_of, turned};
use crate::guards::{is_claim_met, without_literal};
use crate::lines::law_at;
use crate::reading::{Operands, is_call_of, operands_of, parts_in};
use crate::template::{ArithmeticLaw, Way};
use nq_bank::{Bank, TermId, ground};
use nq_history::History;
use nq_kernel::{Stop, Work};
use nq_lines::{Fact, cut, undeny};

/// The hypothesis and the conclusion of an implication.
pub fn implication_in(work: &Work, history: &History, t: TermId) -> Option<Operands>
    requires stands { WorkStands history.now work.now }
    requires term { IsTermIn history.now work.now t }
    ensures { IfSome result (AreOperandsIn history.now work.now) }
{
    if is_call_of(&work.bank, t, ground::IMPLIES) {
        operands_of(work, history, t)
    } else {
        None
    }
}

/// What an implication leads to, or any other term itself.
pub fn conclusion_in(work: &Work, history: &History, t: TermId) -> TermId
    requires stands { WorkStands history.now work.now }
    requires term { IsTermIn history.now work.now t }
    ensures { IsTermIn history.now work.now result }
{
    match implication_in(work, history, t) {
        Some(sides) => sides.second,
        None => t,
    }
}

/// How a literal is met that is not at hand.
fn way_of(bank: &Bank, claim: Claim) -> Way
    requires { Stands bank.now claim.test }
{
    if claim.denied && is_call_of(bank, claim.test, ground::NUMBERP) {
        Way::Number
    } else {
        Way::Sum
    }
}

/// Is a part of a hypothesis met? Of an AND its own parts are asked for. No line is added.
fn is_part_met(
    work: &mut Work,
    history: &History,
    literals: &[TermId],
    part: TermId,
) -> Result<bool, Stop>
    requires stands { WorkStands history.now work.old }
    requires literals { All (IsTermIn history.now work.old) literals.now }
    requires part { IsTermIn history.now work.old part }
    ensures grows { WorkGrows history.now work.old work.new }
    ensures out { result ≡ Err Stop.OutOfSteps → work.new.counter.used ≡ work.new.counter.limit }
{
    if is_call_of(&work.bank, part, ground::AND) {
        return Ok(true);
    }
    let shown = claim_of(work, history, part)?;
    let claim = turned(work, history, shown);
    let way = way_of(&work.bank, claim);
    is_claim_met(work, history, literals, way, claim)
}

/// The same, where those before it are.
fn is_part_met_too(
    work: &mut Work,
    history: &History,
    literals: &[TermId],
    part: TermId,
    before: bool,
) -> Result<bool, Stop>
    requires stands { WorkStands history.now work.old }
    requires literals { All (IsTermIn history.now work.old) literals.now }
    requires part { IsTermIn history.now work.old part }
    ensures grows { WorkGrows history.now work.old work.new }
    ensures out { result ≡ Err Stop.OutOfSteps → work.new.counter.used ≡ work.new.counter.limit }
{
    if before {
        is_part_met(work, history, literals, part)
    } else {
        Ok(false)
    }
}

/// Are these parts met? No line is added.
fn are_parts_met(
    work: &mut Work,
    history: &History,
    literals: &[TermId],
    parts: &[TermId],
) -> Result<bool, Stop>
    requires stands { WorkStands history.now work.old }
    requires literals { All (IsTermIn history.now work.old) literals.now }
    requires parts { All (IsTermIn history.now work.old) parts.now }
    ensures grows { WorkGrows history.now work.old work.new }
    ensures out { result ≡ Err Stop.OutOfSteps → work.new.counter.used ≡ work.new.counter.limit }
{
    let mut met = true;
    for part in parts {
        met = is_part_met_too(work, history, literals, *part, met)?;
    }
    Ok(met)
}

/// Is a hypothesis met? No line is added.
fn is_hypothesis_met(
    work: &mut Work,
    history: &History,
    literals: &[TermId],
    t: TermId,
) -> Result<bool, Stop>
    requires stands { WorkStands history.now work.old }
    requires literals { All (IsTermIn history.now work.old) literals.now }
    requires term { IsTermIn history.now work.old t }
    ensures grows { WorkGrows history.now work.old work.new }
    ensures out { result ≡ Err Stop.OutOfSteps → work.new.counter.used ≡ work.new.counter.limit }
{
    let parts = parts_in(work, history, t)?;
    are_parts_met(work, history, literals, parts.as_slice())
}

/// Is the hypothesis of an instance met? No line is added.
pub fn is_instance_met(
    work: &mut Work,
    history: &History,
    literals: &[TermId],
    fact: Fact,
) -> Result<bool, Stop>
    requires stands { WorkStands history.now work.old }
    requires literals { All (IsTermIn history.now work.old) literals.now }
    requires fact { IsLine history.now work.old fact }
    ensures grows { WorkGrows history.now work.old work.new }
    ensures out { result ≡ Err Stop.OutOfSteps → work.new.counter.used ≡ work.new.counter.limit }
{
    match implication_in(work, history, fact.term) {
        Some(sides) => is_hypothesis_met(work, history, literals, sides.first),
        None => Ok(true),
    }
}

/// Adds a line with the NOTs of the two sides of an AND in the place of its NOT.
fn without_pair(work: &mut Work, history: &History, pair: TermId, line: u64) -> Result<u64, Stop>
    requires stands { WorkStands history.now work.old }
    requires pair { IsTermIn history.now work.old pair }
    requires line { LineStands work.old line }
    ensures line { IfOk result (λ n. LineStands work.new n) }
    ensures grows { WorkGrows history.now work.old work.new }
    ensures out { result ≡ Err Stop.OutOfSteps → work.new.counter.used ≡ work.new.counter.limit }
{
    match operands_of(work, history, pair) {
        Some(at) => cut_by_law(work, history, ArithmeticLaw::PairHolds, at, pair, line),
        None => Ok(line),
    }
}

/// Adds the line of a law, without a term, joined with a line without its NOT.
fn cut_by_law(
    work: &mut Work,
    history: &History,
    law: ArithmeticLaw,
    at: Operands,
    t: TermId,
    line: u64,
) -> Result<u64, Stop>
    requires stands { WorkStands history.now work.old }
    requires at { AreOperandsIn history.now work.old at }
    requires term { IsTermIn history.now work.old t }
    requires line { LineStands work.old line }
    ensures line { IfOk result (λ n. LineStands work.new n) }
    ensures grows { WorkGrows history.now work.old work.new }
    ensures out { result ≡ Err Stop.OutOfSteps → work.new.counter.used ≡ work.new.counter.limit }
{
    let other = law_at(work, history, law, at)?;
    cut(work, history, other, line, t)
}

/// Adds a line with p in the place of `(NOT (NOT p))`, where a claim is of p.
fn undenied(work: &mut Work, history: &History, claim: Claim, line: u64) -> Result<u64, Stop>
    requires stands { WorkStands history.now work.old }
    requires claim { IsClaimIn history.now work.old claim }
    requires line { LineStands work.old line }
    ensures line { IfOk result (λ n. LineStands work.new n) }
    ensures grows { WorkGrows history.now work.old work.new }
    ensures out { result ≡ Err Stop.OutOfSteps → work.new.counter.used ≡ work.new.counter.limit }
{
    if claim.denied {
        Ok(line)
    } else {
        undeny(work, history, claim.test, line)
    }
}

/// Adds a line without the NOT of a hypothesis that a claim is the opposite of.
fn without_hypothesis(
    work: &mut Work,
    history: &History,
    literals: &[TermId],
    claim: Claim,
    line: u64,
) -> Result<u64, Stop>
    requires stands { WorkStands history.now work.old }
    requires literals { All (IsTermIn history.now work.old) literals.now }
    requires claim { IsClaimIn history.now work.old claim }
    requires line { LineStands work.old line }
    ensures line { IfOk result (λ n. LineStands work.new n) }
    ensures grows { WorkGrows history.now work.old work.new }
    ensures out { result ≡ Err Stop.OutOfSteps → work.new.counter.used ≡ work.new.counter.limit }
{
    let way = way_of(&work.bank, claim);
    let plain = undenied(work, history, claim, line)?;
    without_literal(work, history, literals, way, claim, plain)
}

/// Adds a line without the NOT of a part of a hypothesis, or with those of the sides of an AND.
fn without_part(
    work: &mut Work,
    history: &History,
    literals: &[TermId],
    part: TermId,
    line: u64,
) -> Result<u64, Stop>
    requires stands { WorkStands history.now work.old }
    requires literals { All (IsTermIn history.now work.old) literals.now }
    requires part { IsTermIn history.now work.old part }
    requires line { LineStands work.old line }
    ensures line { IfOk result (λ n. LineStands work.new n) }
    ensures grows { WorkGrows history.now work.old work.new }
    ensures out { result ≡ Err Stop.OutOfSteps → work.new.counter.used ≡ work.new.counter.limit }
{
    if is_call_of(&work.bank, part, ground::AND) {
        return without_pair(work, history, part, line);
    }
    let shown = claim_of(work, history, part)?;
    let claim = turned(work, history, shown);
    without_hypothesis(work, history, literals, claim, line)
}

/// Adds a line without the NOTs of the parts of a hypothesis, the outer ones first.
fn without_parts(
    work: &mut Work,
    history: &History,
    literals: &[TermId],
    parts: &[TermId],
    line: u64,
) -> Result<u64, Stop>
    requires stands { WorkStands history.now work.old }
    requires literals { All (IsTermIn history.now work.old) literals.now }
    requires parts { All (IsTermIn history.now work.old) parts.now }
    requires line { LineStands work.old line }
    ensures line { IfOk result (λ n. LineStands work.new n) }
    ensures grows { WorkGrows history.now work.old work.new }
    ensures out { result ≡ Err Stop.OutOfSteps → work.new.counter.used ≡ work.new.counter.limit }
{
    let mut last = line;
    for part in parts {
        last = without_part(work, history, literals, *part, last)?;
    }
    Ok(last)
}

/// Adds the line of what an implication leads to, with those NOTs of its hypotheses that are among these literals.
fn implied_line(
    work: &mut Work,
    history: &History,
    literals: &[TermId],
    fact: Fact,
    sides: Operands,
) -> Result<u64, Stop>
    requires stands { WorkStands history.now work.old }
    requires literals { All (IsTermIn history.now work.old) literals.now }
    requires fact { IsLine history.now work.old fact }
    requires sides { AreOperandsIn history.now work.old sides }
    ensures line { IfOk result (λ n. LineStands work.new n) }
    ensures grows { WorkGrows history.now work.old work.new }
    ensures out { result ≡ Err Stop.OutOfSteps → work.new.counter.used ≡ work.new.counter.limit }
{
    let parts = parts_in(work, history, sides.first)?;
    let law = law_at(work, history, ArithmeticLaw::ImplicationOpens, sides)?;
    let line = cut(work, history, fact.line, law, fact.term)?;
    without_parts(work, history, literals, parts.as_slice(), line)
}

/// Adds the line of the conclusion of an instance, with those NOTs of its hypotheses that are among these literals.
pub fn instance_line(
    work: &mut Work,
    history: &History,
    literals: &[TermId],
    fact: Fact,
) -> Result<u64, Stop>
    requires stands { WorkStands history.now work.old }
    requires literals { All (IsTermIn history.now work.old) literals.now }
    requires fact { IsLine history.now work.old fact }
    ensures line { IfOk result (λ n. LineStands work.new n) }
    ensures grows { WorkGrows history.now work.old work.new }
    ensures out { result ≡ Err Stop.OutOfSteps → work.new.counter.used ≡ work.new.counter.limit }
{
    match implication_in(work, history, fact.term) {
        Some(sides) => implied_line(work, history, literals, fact, sides),
        None => Ok(fact.line),
    }
}
