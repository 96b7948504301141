//! Which inductions the lines of a log show.
ghost use Rattle.std.specs.Prelude.{◌≡◌, ◌&&◌, ◌++◌, ◌∷◌, [], All, IfOk};
ghost use Rattle.nq_logic.specs.Words.{call1};
ghost use Rattle.nq_bank.specs.Content.{Stands, term_at};
ghost use Rattle.nq_clause.specs.Substitution.{substitution_at};
ghost use Rattle.nq_proof.specs.Rules.{has_only, case_tests, is_substitution, are_falls, are_steps};
ghost use Rattle.nq_rule.specs.Inductions.{hypotheses_at, cases_at, case_literals, fall_literals, HypothesisStands, CaseStands};
ghost use Rattle.nq_kernel.specs.Meaning.{clause_at, IsOver};

use crate::log::Log;
use nq_bank::{Bank, TermId};
use nq_rule::{
    CaseOfInduction, InductionStep, are_distinct_variables, is_base_line, is_case_line,
    is_fall_line, is_ordinal_line,
};
use std::alloc::AllocError;

/// Does a line say that the measure is an ordinal?
pub fn shows_ordinal(log: &Log, bank: &Bank, measure: TermId, line: u64) -> bool
    requires log { IsOver bank.now log.now }
    requires measure { Stands bank.now measure }
    ensures { result ≡ has_only (clause_at bank.now log.now line) (call1 "ORDINALP" (term_at bank.now measure) ∷ []) }
{
    if !log.stands(line) {
        return false;
    }
    is_ordinal_line(bank, measure, log.clause_over(bank, line))
}

/// Does a line show the base case?
pub fn shows_base(
    log: &Log,
    bank: &Bank,
    claim: TermId,
    cases: &[CaseOfInduction],
    line: u64,
) -> bool
    requires log { IsOver bank.now log.now }
    requires claim { Stands bank.now claim }
    requires cases { All (CaseStands bank.now) cases.now }
    ensures { result ≡ has_only (clause_at bank.now log.now line) (case_tests (cases_at bank.now cases.now) ++ (term_at bank.now claim ∷ [])) }
{
    if !log.stands(line) {
        return false;
    }
    is_base_line(bank, claim, cases, log.clause_over(bank, line))
}

/// Does the line of a case show it?
fn shows_case(
    log: &Log,
    bank: &Bank,
    claim: TermId,
    case: &CaseOfInduction,
) -> Result<bool, AllocError>
    requires log { IsOver bank.now log.now }
    requires claim { Stands bank.now claim }
    requires case { CaseStands bank.now case.now }
    ensures { IfOk result (λ b. b ≡ has_only (clause_at bank.now log.now case.now.line) (case_literals bank.now claim case.now)) }
{
    if !log.stands(case.line) {
        return Ok(false);
    }
    is_case_line(bank, claim, case, log.clause_over(bank, case.line))
}

/// Are the variables of an instance distinct, and does its line show that the measure falls there?
fn falls_at(
    log: &Log,
    bank: &Bank,
    measure: TermId,
    test: TermId,
    step: &InductionStep,
) -> Result<bool, AllocError>
    requires log { IsOver bank.now log.now }
    requires measure { Stands bank.now measure }
    requires test { Stands bank.now test }
    requires step { HypothesisStands bank.now step.now }
    ensures { IfOk result (λ b. b ≡ (is_substitution (substitution_at bank.now step.now.pairs.items) && has_only (clause_at bank.now log.now step.now.line) (fall_literals bank.now measure test step.now.pairs.items))) }
{
    if !are_distinct_variables(bank, step.pairs.as_slice()) {
        return Ok(false);
    }
    if !log.stands(step.line) {
        return Ok(false);
    }
    let clause = log.clause_over(bank, step.line);
    is_fall_line(bank, measure, test, step.pairs.as_slice(), clause)
}

/// Does the measure fall at each instance of a case?
fn measure_falls(
    log: &Log,
    bank: &Bank,
    measure: TermId,
    test: TermId,
    steps: &[InductionStep],
) -> Result<bool, AllocError>
    requires log { IsOver bank.now log.now }
    requires measure { Stands bank.now measure }
    requires test { Stands bank.now test }
    requires steps { All (HypothesisStands bank.now) steps.now }
    ensures { IfOk result (λ b. b ≡ are_falls (clause_at bank.now log.now) (term_at bank.now measure) (term_at bank.now test) (hypotheses_at bank.now steps.now)) }
{
    for step in steps {
        if !falls_at(log, bank, measure, test, step)? {
            return Ok(false);
        }
    }
    Ok(true)
}

/// Is a case shown, and does the measure fall in it?
fn case_holds(
    log: &Log,
    bank: &Bank,
    claim: TermId,
    measure: TermId,
    case: &CaseOfInduction,
) -> Result<bool, AllocError>
    requires log { IsOver bank.now log.now }
    requires claim { Stands bank.now claim }
    requires measure { Stands bank.now measure }
    requires case { CaseStands bank.now case.now }
    ensures { IfOk result (λ b. b ≡ (has_only (clause_at bank.now log.now case.now.line) (case_literals bank.now claim case.now) && are_falls (clause_at bank.now log.now) (term_at bank.now measure) (term_at bank.now case.now.test) (hypotheses_at bank.now case.now.steps.items))) }
{
    if !shows_case(log, bank, claim, case)? {
        return Ok(false);
    }
    measure_falls(log, bank, measure, case.test, case.steps.as_slice())
}

/// Is each case shown, and does the measure fall in it?
pub fn cases_hold(
    log: &Log,
    bank: &Bank,
    claim: TermId,
    measure: TermId,
    cases: &[CaseOfInduction],
) -> Result<bool, AllocError>
    requires log { IsOver bank.now log.now }
    requires claim { Stands bank.now claim }
    requires measure { Stands bank.now measure }
    requires cases { All (CaseStands bank.now) cases.now }
    ensures { IfOk result (λ b. b ≡ are_steps (clause_at bank.now log.now) (term_at bank.now claim) (term_at bank.now measure) (cases_at bank.now cases.now)) }
{
    for case in cases {
        if !case_holds(log, bank, claim, measure, case)? {
            return Ok(false);
        }
    }
    Ok(true)
}
