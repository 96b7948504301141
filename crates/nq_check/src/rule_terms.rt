//! Whether a rule names a term that a function stands in.
ghost use Rattle.std.specs.Prelude.{◌≡◌, ◌∷◌, [], All, IfOk, map};
ghost use Rattle.nq_bank.specs.Content.{IsNamed, Stands, term_at, text_at};
ghost use Rattle.nq_calls.specs.Mentions.{is_mentioned};
ghost use Rattle.nq_clause.specs.Substitution.{substitution_at, PairStands};
ghost use Rattle.nq_kernel.specs.Meaning.{rule_at, RuleStands};
ghost use Rattle.nq_linear_rule.specs.Sums.{summands_at, LiteralsStand};
ghost use Rattle.nq_proof.specs.Rules.{case_terms, hypothesis_terms, pair_terms, rule_terms};
ghost use Rattle.nq_rule.specs.Branches.{BranchesStand};
ghost use Rattle.nq_rule.specs.Inductions.{cases_at, hypotheses_at, CaseStands, HypothesisStands};

use nq_bank::{Bank, Sym, TermId};
use nq_calls::{are_mentioned, mentions_at};
use nq_clause::Pair;
use nq_kernel::Rule;
use nq_linear_rule::Summand;
use nq_rule::{Branches, CaseOfInduction, InductionStep};
use std::alloc::AllocError;

/// Does it stand in a term of these pairs?
fn is_in_pairs(bank: &Bank, f: Sym, pairs: &[Pair]) -> Result<bool, AllocError>
    requires function { IsNamed bank.now f }
    requires pairs { All (PairStands bank.now) pairs.now }
    ensures { IfOk result (λ b. b ≡ is_mentioned (text_at bank.now f) (pair_terms (substitution_at bank.now pairs.now))) }
{
    for pair in pairs {
        if mentions_at(bank, f, pair.term)? {
            return Ok(true);
        }
    }
    Ok(false)
}

/// Does it stand in a literal of these summands?
fn is_in_summands(bank: &Bank, f: Sym, summands: &[Summand]) -> Result<bool, AllocError>
    requires function { IsNamed bank.now f }
    requires summands { LiteralsStand bank.now summands.now }
    ensures { IfOk result (λ b. b ≡ is_mentioned (text_at bank.now f) (map (λ s. s.literal) (summands_at bank.now summands.now))) }
{
    for summand in summands {
        if mentions_at(bank, f, summand.literal)? {
            return Ok(true);
        }
    }
    Ok(false)
}

/// Does it stand in a term of these instances?
fn is_in_steps(bank: &Bank, f: Sym, steps: &[InductionStep]) -> Result<bool, AllocError>
    requires function { IsNamed bank.now f }
    requires steps { All (HypothesisStands bank.now) steps.now }
    ensures { IfOk result (λ b. b ≡ is_mentioned (text_at bank.now f) (hypothesis_terms (hypotheses_at bank.now steps.now))) }
{
    for step in steps {
        if is_in_pairs(bank, f, step.pairs.as_slice())? {
            return Ok(true);
        }
    }
    Ok(false)
}

/// Does it stand in a term of a case?
fn is_in_case(bank: &Bank, f: Sym, case: &CaseOfInduction) -> Result<bool, AllocError>
    requires function { IsNamed bank.now f }
    requires case { CaseStands bank.now case.now }
    ensures { IfOk result (λ b. b ≡ is_mentioned (text_at bank.now f) (case_terms (cases_at bank.now (case.now ∷ [])))) }
{
    if mentions_at(bank, f, case.test)? {
        return Ok(true);
    }
    is_in_steps(bank, f, case.steps.as_slice())
}

/// Does it stand in a term of these cases?
fn is_in_cases(bank: &Bank, f: Sym, cases: &[CaseOfInduction]) -> Result<bool, AllocError>
    requires function { IsNamed bank.now f }
    requires cases { All (CaseStands bank.now) cases.now }
    ensures { IfOk result (λ b. b ≡ is_mentioned (text_at bank.now f) (case_terms (cases_at bank.now cases.now))) }
{
    for case in cases {
        if is_in_case(bank, f, case)? {
            return Ok(true);
        }
    }
    Ok(false)
}

/// Does it stand in this one term?
fn is_in_one(bank: &Bank, f: Sym, t: TermId) -> Result<bool, AllocError>
    requires function { IsNamed bank.now f }
    requires term { Stands bank.now t }
    ensures { IfOk result (λ b. b ≡ is_mentioned (text_at bank.now f) (term_at bank.now t ∷ [])) }
{
    let terms = [t];
    are_mentioned(bank, f, &terms)
}

/// Does it stand in a part of an IF?
fn is_in_branches(bank: &Bank, f: Sym, parts: Branches) -> Result<bool, AllocError>
    requires function { IsNamed bank.now f }
    requires parts { BranchesStand bank.now parts }
    ensures { IfOk result (λ b. b ≡ is_mentioned (text_at bank.now f) (term_at bank.now parts.test ∷ term_at bank.now parts.first ∷ term_at bank.now parts.second ∷ [])) }
{
    if is_in_one(bank, f, parts.test)? {
        return Ok(true);
    }
    if is_in_one(bank, f, parts.first)? {
        return Ok(true);
    }
    is_in_one(bank, f, parts.second)
}

/// Does it stand in a term of an induction?
fn is_in_induction(
    bank: &Bank,
    f: Sym,
    claim: TermId,
    measure: TermId,
    cases: &[CaseOfInduction],
) -> Result<bool, AllocError>
    requires function { IsNamed bank.now f }
    requires claim { Stands bank.now claim }
    requires measure { Stands bank.now measure }
    requires cases { All (CaseStands bank.now) cases.now }
    ensures { IfOk result (λ b. b ≡ is_mentioned (text_at bank.now f) (term_at bank.now claim ∷ term_at bank.now measure ∷ case_terms (cases_at bank.now cases.now))) }
{
    if mentions_at(bank, f, claim)? {
        return Ok(true);
    }
    if mentions_at(bank, f, measure)? {
        return Ok(true);
    }
    is_in_cases(bank, f, cases)
}

/// Does it stand in a term that a rule names?
pub fn is_in_rule(bank: &Bank, f: Sym, rule: &Rule) -> Result<bool, AllocError>
    requires function { IsNamed bank.now f }
    requires rule { RuleStands bank.now rule.now }
    ensures { IfOk result (λ b. b ≡ is_mentioned (text_at bank.now f) (rule_terms (rule_at bank.now rule.now))) }
{
    match rule {
        Rule::Taut(terms) => are_mentioned(bank, f, terms.as_slice()),
        Rule::AxiomRow(_, _, _) => Ok(false),
        Rule::EventTerm(_) => Ok(false),
        Rule::Weaken(_, terms) => are_mentioned(bank, f, terms.as_slice()),
        Rule::Cut(_, _, t) => is_in_one(bank, f, *t),
        Rule::Instance(_, pairs) => is_in_pairs(bank, f, pairs.as_slice()),
        Rule::Reflexive(t) => is_in_one(bank, f, *t),
        Rule::Replace(_, _, _, t, _) => is_in_one(bank, f, *t),
        Rule::Join(_, _, parts) => is_in_branches(bank, f, *parts),
        Rule::SplitFirst(_, _) => Ok(false),
        Rule::SplitSecond(_, _) => Ok(false),
        Rule::NotNot(_, _) => Ok(false),
        Rule::Value(t) => is_in_one(bank, f, *t),
        Rule::Linear(summands) => is_in_summands(bank, f, summands.as_slice()),
        Rule::Induct(claim, measure, _, _, cases) => {
            is_in_induction(bank, f, *claim, *measure, cases.as_slice())
        }
    }
}
