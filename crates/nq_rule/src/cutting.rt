//! The rules that join clauses: TAUT, WEAKEN, CUT and JOIN.
ghost use Rattle.std.specs.Prelude.{◌≡◌, ◌++◌, ◌∷◌, [], All, IfOk, Err, Some};
ghost use Rattle.nq_logic.specs.Words.{not_term};
ghost use Rattle.nq_bank.specs.Content.{Stands, Grows, term_at, terms_at};
ghost use Rattle.nq_proof.specs.Clauses.{without, distinct};
ghost use Rattle.nq_rule.specs.Branches.{BranchesStand};
ghost use Rattle.nq_rule.specs.Conclusions.{Concludes, IsDeep};
ghost use Rattle.nq_rule.specs.Results.{weaker_of, cut_of, join_of};

use crate::branching::Branches;
use crate::clauses::{clause_without, clause_without_not, distinct_clause};
use crate::making::ground_call;
use crate::memory::or_memory;
use nq_bank::{Bank, BankFault, TermId, ground};
use std::alloc::{AllocError, Global};

fn both(alloc: Global, first: &[TermId], second: &[TermId]) -> Result<Vec<TermId>, AllocError>
    ensures { IfOk result (λ c. c.items ≡ first.now ++ second.now) }
{
    let mut c = Vec::from_slice(alloc, first)?;
    c.extend_from_slice(second)?;
    Ok(c)
}

/// The terms of the first and then of the second, without later copies.
fn joined_terms(bank: &Bank, first: &[TermId], second: &[TermId]) -> Result<Vec<TermId>, AllocError>
    requires first { All (Stands bank.now) first.now }
    requires second { All (Stands bank.now) second.now }
    ensures clause { IfOk result (λ c. terms_at bank.now c.items ≡ distinct (terms_at bank.now first.now ++ terms_at bank.now second.now)) }
    ensures stand { IfOk result (λ c. All (Stands bank.now) c.items) }
{
    let all = both(bank.alloc(), first, second)?;
    distinct_clause(bank, all.as_slice())
}

fn cut_terms(
    bank: &Bank,
    first: &[TermId],
    second: &[TermId],
    t: TermId,
) -> Result<Vec<TermId>, AllocError>
    requires first { All (Stands bank.now) first.now }
    requires second { All (Stands bank.now) second.now }
    requires term { Stands bank.now t }
    ensures clause { IfOk result (λ c. terms_at bank.now c.items ≡ cut_of (term_at bank.now t) (terms_at bank.now first.now) (terms_at bank.now second.now)) }
    ensures stand { IfOk result (λ c. All (Stands bank.now) c.items) }
{
    let left = clause_without(bank, t, first)?;
    let right = clause_without_not(bank, t, second)?;
    joined_terms(bank, left.as_slice(), right.as_slice())
}

/// The clause of these terms.
pub fn clause_of(bank: &Bank, terms: &[TermId]) -> Result<Vec<TermId>, BankFault>
    requires { All (Stands bank.now) terms.now }
    ensures ok { IfOk result (λ c. Concludes bank.now c.items (Some (distinct (terms_at bank.now terms.now)))) }
    ensures not_deep { result ≡ Err BankFault.Deep → ⊥ }
{
    or_memory(distinct_clause(bank, terms))
}

/// The clause, and then the terms.
pub fn weaker_clause(
    bank: &Bank,
    clause: &[TermId],
    terms: &[TermId],
) -> Result<Vec<TermId>, BankFault>
    requires clause { All (Stands bank.now) clause.now }
    requires terms { All (Stands bank.now) terms.now }
    ensures ok { IfOk result (λ c. Concludes bank.now c.items (Some (weaker_of (terms_at bank.now terms.now) (terms_at bank.now clause.now)))) }
    ensures not_deep { result ≡ Err BankFault.Deep → ⊥ }
{
    or_memory(joined_terms(bank, clause, terms))
}

/// The first without t, and then the second without the NOT of t.
pub fn cut_clause(
    bank: &Bank,
    first: &[TermId],
    second: &[TermId],
    t: TermId,
) -> Result<Vec<TermId>, BankFault>
    requires first { All (Stands bank.now) first.now }
    requires second { All (Stands bank.now) second.now }
    requires term { Stands bank.now t }
    ensures ok { IfOk result (λ c. Concludes bank.now c.items (Some (cut_of (term_at bank.now t) (terms_at bank.now first.now) (terms_at bank.now second.now)))) }
    ensures not_deep { result ≡ Err BankFault.Deep → ⊥ }
{
    or_memory(cut_terms(bank, first, second, t))
}

/// The two clauses without the parts of an IF, and then a term.
fn joined_branches(
    bank: &Bank,
    first: &[TermId],
    second: &[TermId],
    parts: Branches,
    whole: TermId,
) -> Result<Vec<TermId>, AllocError>
    requires first { All (Stands bank.now) first.now }
    requires second { All (Stands bank.now) second.now }
    requires parts { BranchesStand bank.now parts }
    requires whole { Stands bank.now whole }
    ensures clause { IfOk result (λ c. terms_at bank.now c.items ≡ distinct (without (not_term (term_at bank.now parts.test)) (without (term_at bank.now parts.first) (terms_at bank.now first.now)) ++ (without (term_at bank.now parts.test) (without (term_at bank.now parts.second) (terms_at bank.now second.now)) ++ (term_at bank.now whole ∷ [])))) }
    ensures stand { IfOk result (λ c. All (Stands bank.now) c.items) }
{
    let left = clause_without(bank, parts.first, first)?;
    let left = clause_without_not(bank, parts.test, left.as_slice())?;
    let right = clause_without(bank, parts.second, second)?;
    let right = clause_without(bank, parts.test, right.as_slice())?;
    let right = with_last(bank, right, whole)?;
    joined_terms(bank, left.as_slice(), right.as_slice())
}

/// The literals, and then a term.
pub fn with_last(bank: &Bank, literals: Vec<TermId>, t: TermId) -> Result<Vec<TermId>, AllocError>
    requires literals { All (Stands bank.now) literals.items }
    requires term { Stands bank.now t }
    ensures clause { IfOk result (λ c. terms_at bank.now c.items ≡ terms_at bank.now literals.items ++ term_at bank.now t ∷ []) }
    ensures stand { IfOk result (λ c. All (Stands bank.now) c.items) }
{
    let mut longer = literals;
    longer.push(t)?;
    Ok(longer)
}

/// The first without the NOT of the test and the first branch, the second without the test and the second branch, and
/// then the IF of these parts.
pub fn join_clause(
    bank: &mut Bank,
    first: &[TermId],
    second: &[TermId],
    parts: Branches,
) -> Result<Vec<TermId>, BankFault>
    requires first { All (Stands bank.old) first.now }
    requires second { All (Stands bank.old) second.now }
    requires parts { BranchesStand bank.old parts }
    ensures ok { IfOk result (λ c. Concludes bank.new c.items (Some (join_of (term_at bank.old parts.test) (term_at bank.old parts.first) (term_at bank.old parts.second) (terms_at bank.old first.now) (terms_at bank.old second.now)))) }
    ensures grows { Grows bank.old bank.new }
    ensures names { bank.new.names ≡ bank.old.names }
    ensures deep { result ≡ Err BankFault.Deep → IsDeep (Some (join_of (term_at bank.old parts.test) (term_at bank.old parts.first) (term_at bank.old parts.second) (terms_at bank.old first.now) (terms_at bank.old second.now))) }
{
    let whole = ground_call(bank, ground::IF, &[parts.test, parts.first, parts.second])?;
    or_memory(joined_branches(bank, first, second, parts, whole))
}
