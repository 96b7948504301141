//! The rule INDUCT: which lines show what an induction needs.
ghost use Rattle.std.specs.Prelude.{◌≡◌, ◌<◌, ◌++◌, ◌∷◌, [], List, None, All, IfOk, IfSome, IsSome};
ghost use Rattle.nq_logic.specs.Terms.{Term, substituted, call};
ghost use Rattle.nq_logic.specs.Numerals.{number_of};
ghost use Rattle.nq_logic.specs.Words.{not_term, call1, call2};
ghost use Rattle.nq_logic.specs.Laws.{denied};
ghost use Rattle.nq_bank.specs.GroundNames.{ground_count};
ghost use Rattle.nq_bank.specs.Soundness.{ground_text};
ghost use Rattle.nq_bank.specs.Content.{Stands, term_at, terms_at};
ghost use Rattle.nq_clause.specs.Substitution.{substitution_at, PairStands};
ghost use Rattle.nq_proof.specs.Clauses.{same_term, has_term, is_within};
ghost use Rattle.nq_proof.specs.Rules.{case_tests};
ghost use Rattle.nq_rule.specs.Inductions.{substitutions_at, cases_at, case_literals, fall_literals, IsCallOf, HypothesisStands, CaseStands};

use crate::literals::{is_either, is_not_of, is_same, under_one_not};
use nq_bank::{Bank, Node, Sym, TermId, ground};
use nq_clause::{Pair, is_instance};
use std::alloc::AllocError;

/// An instance at which a case of an induction uses its claim, and the line that shows that the measure falls there.
#[derive(Drop)]
pub struct InductionStep {
    pub line: u64,
    pub pairs: Vec<Pair>,
}

/// A case of an induction: its test, the line that proves it, and the instances at which it uses the claim.
#[derive(Drop)]
pub struct CaseOfInduction {
    pub test: TermId,
    pub line: u64,
    pub steps: Vec<InductionStep>,
}

/// Is a term the pattern with the terms of the pairs in place of their variables?
fn is_instance_of(
    bank: &Bank,
    pattern: TermId,
    pairs: &[Pair],
    t: TermId,
) -> Result<bool, AllocError>
    requires pattern { Stands bank.now pattern }
    requires pairs { All (PairStands bank.now) pairs.now }
    requires term { Stands bank.now t }
    ensures { IfOk result (λ b. b ≡ same_term (term_at bank.now t) (substituted (substitution_at bank.now pairs.now) (term_at bank.now pattern))) }
{
    is_instance(bank, pattern, pairs, t)
}

/// Is a literal the NOT of the claim at an instance?
fn is_denied_at(
    bank: &Bank,
    claim: TermId,
    pairs: &[Pair],
    literal: TermId,
) -> Result<bool, AllocError>
    requires claim { Stands bank.now claim }
    requires pairs { All (PairStands bank.now) pairs.now }
    requires literal { Stands bank.now literal }
    ensures { IfOk result (λ b. b ≡ same_term (term_at bank.now literal) (not_term (substituted (substitution_at bank.now pairs.now) (term_at bank.now claim)))) }
{
    match under_one_not(bank, literal) {
        Some(u) => is_instance_of(bank, claim, pairs, u),
        None => Ok(false),
    }
}

/// Is a literal the NOT of the claim at one of the instances?
fn is_denied(
    bank: &Bank,
    claim: TermId,
    steps: &[InductionStep],
    literal: TermId,
) -> Result<bool, AllocError>
    requires claim { Stands bank.now claim }
    requires steps { All (HypothesisStands bank.now) steps.now }
    requires literal { Stands bank.now literal }
    ensures { IfOk result (λ b. b ≡ has_term (term_at bank.now literal) (denied (term_at bank.now claim) (substitutions_at bank.now steps.now))) }
{
    let mut found = false;
    for s in steps {
        let here = is_denied_at(bank, claim, s.pairs.as_slice(), literal)?;
        found = is_either(found, here);
    }
    Ok(found)
}

/// May a literal stand in the line of a case?
fn is_case_literal(
    bank: &Bank,
    claim: TermId,
    case: &CaseOfInduction,
    literal: TermId,
) -> Result<bool, AllocError>
    requires claim { Stands bank.now claim }
    requires case { CaseStands bank.now case.now }
    requires literal { Stands bank.now literal }
    ensures { IfOk result (λ b. b ≡ has_term (term_at bank.now literal) (case_literals bank.now claim case.now)) }
{
    let denied = is_denied(bank, claim, case.steps.as_slice(), literal)?;
    let test = is_not_of(bank, case.test, literal);
    let last = is_same(bank, literal, claim);
    Ok(is_either(test, is_either(denied, last)))
}

/// Has a clause only the NOT of the test, the NOTs of the claim at the instances of the case, and the claim?
pub fn is_case_line(
    bank: &Bank,
    claim: TermId,
    case: &CaseOfInduction,
    clause: &[TermId],
) -> Result<bool, AllocError>
    requires claim { Stands bank.now claim }
    requires case { CaseStands bank.now case.now }
    requires clause { All (Stands bank.now) clause.now }
    ensures { IfOk result (λ b. b ≡ is_within (terms_at bank.now clause.now) (case_literals bank.now claim case.now)) }
{
    for literal in clause {
        if !is_case_literal(bank, claim, case, *literal)? {
            return Ok(false);
        }
    }
    Ok(true)
}

/// The arguments of a call of a ground function.
fn arguments_of<'a>(bank: &'a Bank, known: Sym, t: TermId) -> Option<&'a [TermId]>
    requires known { known.0 < ground_count }
    requires stands { Stands bank.now t }
    ensures call { IfSome result (λ ids. IsCallOf bank.now (ground_text known) ids.now (term_at bank.now t)) }
    ensures none { (ts : List Term) → number_of (call (ground_text known) ts) ≡ None → term_at bank.now t ≡ call (ground_text known) ts → IsSome result }
{
    match bank.node(t) {
        Node::App(f, _) => {
            if bank.is_ground(f, known) {
                Some(bank.args(t))
            } else {
                None
            }
        }
        Node::Num(_) => None,
        Node::Var(_) => None,
    }
}

/// Is a literal `(ORD-LESSP s m)`, where s is the measure m at an instance?
fn is_fall(
    bank: &Bank,
    measure: TermId,
    pairs: &[Pair],
    literal: TermId,
) -> Result<bool, AllocError>
    requires measure { Stands bank.now measure }
    requires pairs { All (PairStands bank.now) pairs.now }
    requires literal { Stands bank.now literal }
    ensures { IfOk result (λ b. b ≡ same_term (term_at bank.now literal) (call2 "ORD-LESSP" (substituted (substitution_at bank.now pairs.now) (term_at bank.now measure)) (term_at bank.now measure))) }
{
    match arguments_of(bank, ground::ORD_LESSP, literal) {
        Some(parts) => {
            if parts.len() != 2 || !is_same(bank, parts[1], measure) {
                return Ok(false);
            }
            is_instance_of(bank, measure, pairs, parts[0])
        }
        None => Ok(false),
    }
}

/// May a literal stand in the line that shows that the measure falls at an instance?
fn is_fall_literal(
    bank: &Bank,
    measure: TermId,
    test: TermId,
    pairs: &[Pair],
    literal: TermId,
) -> Result<bool, AllocError>
    requires measure { Stands bank.now measure }
    requires test { Stands bank.now test }
    requires pairs { All (PairStands bank.now) pairs.now }
    requires literal { Stands bank.now literal }
    ensures { IfOk result (λ b. b ≡ has_term (term_at bank.now literal) (fall_literals bank.now measure test pairs.now)) }
{
    let falls = is_fall(bank, measure, pairs, literal)?;
    let denied = is_not_of(bank, test, literal);
    Ok(is_either(denied, falls))
}

/// Has a clause only the NOT of the test, and that the measure falls at an instance?
pub fn is_fall_line(
    bank: &Bank,
    measure: TermId,
    test: TermId,
    pairs: &[Pair],
    clause: &[TermId],
) -> Result<bool, AllocError>
    requires measure { Stands bank.now measure }
    requires test { Stands bank.now test }
    requires pairs { All (PairStands bank.now) pairs.now }
    requires clause { All (Stands bank.now) clause.now }
    ensures { IfOk result (λ b. b ≡ is_within (terms_at bank.now clause.now) (fall_literals bank.now measure test pairs.now)) }
{
    for literal in clause {
        if !is_fall_literal(bank, measure, test, pairs, *literal)? {
            return Ok(false);
        }
    }
    Ok(true)
}

/// Is a literal `(ORDINALP m)`?
fn is_ordinal(bank: &Bank, measure: TermId, literal: TermId) -> bool
    requires measure { Stands bank.now measure }
    requires literal { Stands bank.now literal }
    ensures { result ≡ has_term (term_at bank.now literal) (call1 "ORDINALP" (term_at bank.now measure) ∷ []) }
{
    match arguments_of(bank, ground::ORDINALP, literal) {
        Some(parts) => parts.len() == 1 && is_same(bank, parts[0], measure),
        None => false,
    }
}

/// Has a clause only that the measure is an ordinal?
pub fn is_ordinal_line(bank: &Bank, measure: TermId, clause: &[TermId]) -> bool
    requires measure { Stands bank.now measure }
    requires clause { All (Stands bank.now) clause.now }
    ensures { result ≡ is_within (terms_at bank.now clause.now) (call1 "ORDINALP" (term_at bank.now measure) ∷ []) }
{
    for literal in clause {
        if !is_ordinal(bank, measure, *literal) {
            return false;
        }
    }
    true
}

/// Is a literal the test of one of the cases?
fn is_tested(bank: &Bank, cases: &[CaseOfInduction], literal: TermId) -> bool
    requires cases { All (CaseStands bank.now) cases.now }
    requires literal { Stands bank.now literal }
    ensures { result ≡ has_term (term_at bank.now literal) (case_tests (cases_at bank.now cases.now)) }
{
    let mut found = false;
    for c in cases {
        let same = is_same(bank, literal, c.test);
        found = is_either(found, same);
    }
    found
}

/// May a literal stand in the line of the base case?
fn is_base_literal(bank: &Bank, claim: TermId, cases: &[CaseOfInduction], literal: TermId) -> bool
    requires claim { Stands bank.now claim }
    requires cases { All (CaseStands bank.now) cases.now }
    requires literal { Stands bank.now literal }
    ensures { result ≡ has_term (term_at bank.now literal) (case_tests (cases_at bank.now cases.now) ++ (term_at bank.now claim ∷ [])) }
{
    let tested = is_tested(bank, cases, literal);
    let last = is_same(bank, literal, claim);
    is_either(tested, last)
}

/// Has a clause only the tests of all cases, and the claim?
pub fn is_base_line(
    bank: &Bank,
    claim: TermId,
    cases: &[CaseOfInduction],
    clause: &[TermId],
) -> bool
    requires claim { Stands bank.now claim }
    requires cases { All (CaseStands bank.now) cases.now }
    requires clause { All (Stands bank.now) clause.now }
    ensures { result ≡ is_within (terms_at bank.now clause.now) (case_tests (cases_at bank.now cases.now) ++ (term_at bank.now claim ∷ [])) }
{
    for literal in clause {
        if !is_base_literal(bank, claim, cases, *literal) {
            return false;
        }
    }
    true
}
