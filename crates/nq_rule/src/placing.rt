//! The rules that put terms in the place of a literal: SPLIT and NOTNOT.
ghost use Rattle.std.specs.Prelude.{◌≡◌, ◌≤◌, ◌-◌, ◌++◌, ◌∷◌, [], length, take, drop, slice_get, All, IfOk, IfSome, IsSome, Err, Some};
ghost use Rattle.std.specs.Option.{option_map};
ghost use Rattle.nq_logic.specs.Words.{not_term};
ghost use Rattle.nq_bank.specs.Content.{Stands, Grows, term_at, terms_at};
ghost use Rattle.nq_proof.specs.Clauses.{literal_at, in_place};
ghost use Rattle.nq_proof.specs.Paths.{under_two_nots, if_parts};
ghost use Rattle.nq_proof.specs.Linear.{and_then};
ghost use Rattle.nq_rule.specs.Branches.{branches_at, BranchesStand};
ghost use Rattle.nq_rule.specs.Conclusions.{Concludes, IsDeep};
ghost use Rattle.nq_rule.specs.Results.{placed_of};

use crate::branching::{Branches, branches_in};
use crate::clauses::distinct_clause;
use crate::literals::under_one_not;
use crate::making::ground_call;
use crate::memory::or_memory;
use nq_bank::{Bank, BankFault, TermId, ground};
use std::alloc::{AllocError, Global};

fn term_at_index(terms: &[TermId], index: usize) -> Option<TermId>
    ensures { result ≡ slice_get terms.now index }
{
    terms.get(index).copied()
}

/// The literal at a place, counted from 1.
pub fn literal(bank: &Bank, terms: &[TermId], place: u64) -> Option<TermId>
    requires { All (Stands bank.now) terms.now }
    ensures literal { option_map (term_at bank.now) result ≡ literal_at place (terms_at bank.now terms.now) }
    ensures stands { IfSome result (λ t. Stands bank.now t) }
{
    if place == 0 {
        return None;
    }
    term_at_index(terms, (place - 1) as usize)
}

/// The ids with these in the place of the one there, counted from 1.
fn spliced(
    alloc: Global,
    terms: &[TermId],
    place: u64,
    these: &[TermId],
) -> Result<Vec<TermId>, AllocError>
    requires first { 1 ≤ place }
    requires last { place ≤ length terms.now }
    ensures { IfOk result (λ c. c.items ≡ take (place - 1) terms.now ++ (these.now ++ drop place terms.now)) }
{
    let mut c = Vec::from_slice(alloc, &terms[..(place - 1) as usize])?;
    c.extend_from_slice(these)?;
    c.extend_from_slice(&terms[place as usize..])?;
    Ok(c)
}

/// The terms with these in the place of the literal there, counted from 1.
pub fn terms_in_place(
    bank: &Bank,
    terms: &[TermId],
    place: u64,
    these: &[TermId],
) -> Result<Vec<TermId>, AllocError>
    requires terms { All (Stands bank.now) terms.now }
    requires these { All (Stands bank.now) these.now }
    requires place { IsSome (literal_at place (terms_at bank.now terms.now)) }
    ensures clause { IfOk result (λ c. terms_at bank.now c.items ≡ in_place place (terms_at bank.now these.now) (terms_at bank.now terms.now)) }
    ensures stand { IfOk result (λ c. All (Stands bank.now) c.items) }
{
    spliced(bank.alloc(), terms, place, these)
}

fn distinct_in_place(
    bank: &Bank,
    terms: &[TermId],
    place: u64,
    these: &[TermId],
) -> Result<Vec<TermId>, AllocError>
    requires terms { All (Stands bank.now) terms.now }
    requires these { All (Stands bank.now) these.now }
    requires place { IsSome (literal_at place (terms_at bank.now terms.now)) }
    ensures clause { IfOk result (λ c. terms_at bank.now c.items ≡ placed_of place (terms_at bank.now these.now) (terms_at bank.now terms.now)) }
    ensures stand { IfOk result (λ c. All (Stands bank.now) c.items) }
{
    let c = terms_in_place(bank, terms, place, these)?;
    distinct_clause(bank, c.as_slice())
}

/// The clause with these in the place of the literal there, counted from 1.
pub fn clause_in_place(
    bank: &Bank,
    terms: &[TermId],
    place: u64,
    these: &[TermId],
) -> Result<Vec<TermId>, BankFault>
    requires terms { All (Stands bank.now) terms.now }
    requires these { All (Stands bank.now) these.now }
    requires place { IsSome (literal_at place (terms_at bank.now terms.now)) }
    ensures ok { IfOk result (λ c. Concludes bank.now c.items (Some (placed_of place (terms_at bank.now these.now) (terms_at bank.now terms.now)))) }
    ensures not_deep { result ≡ Err BankFault.Deep → ⊥ }
{
    or_memory(distinct_in_place(bank, terms, place, these))
}

/// The branches of a literal that is an IF.
pub fn branches_at_literal(bank: &Bank, terms: &[TermId], place: u64) -> Option<Branches>
    requires { All (Stands bank.now) terms.now }
    ensures parts { option_map (branches_at bank.now) result ≡ and_then (literal_at place (terms_at bank.now terms.now)) if_parts }
    ensures stand { IfSome result (λ b. BranchesStand bank.now b) }
{
    match literal(bank, terms, place) {
        Some(t) => branches_in(bank, t),
        None => None,
    }
}

/// The clause with the NOT of the test and the first branch in the place of the literal there.
pub fn first_branch_clause(
    bank: &mut Bank,
    terms: &[TermId],
    place: u64,
    parts: Branches,
) -> Result<Vec<TermId>, BankFault>
    requires terms { All (Stands bank.old) terms.now }
    requires parts { BranchesStand bank.old parts }
    requires place { IsSome (literal_at place (terms_at bank.old terms.now)) }
    ensures ok { IfOk result (λ c. Concludes bank.new c.items (Some (placed_of place (not_term (term_at bank.old parts.test) ∷ term_at bank.old parts.first ∷ []) (terms_at bank.old terms.now)))) }
    ensures grows { Grows bank.old bank.new }
    ensures names { bank.new.names ≡ bank.old.names }
    ensures deep { result ≡ Err BankFault.Deep → IsDeep (Some (placed_of place (not_term (term_at bank.old parts.test) ∷ term_at bank.old parts.first ∷ []) (terms_at bank.old terms.now))) }
{
    let denial = ground_call(bank, ground::NOT, &[parts.test])?;
    clause_in_place(bank, terms, place, &[denial, parts.first])
}

/// The clause with the test and the second branch in the place of the literal there.
pub fn second_branch_clause(
    bank: &Bank,
    terms: &[TermId],
    place: u64,
    parts: Branches,
) -> Result<Vec<TermId>, BankFault>
    requires terms { All (Stands bank.now) terms.now }
    requires parts { BranchesStand bank.now parts }
    requires place { IsSome (literal_at place (terms_at bank.now terms.now)) }
    ensures ok { IfOk result (λ c. Concludes bank.now c.items (Some (placed_of place (term_at bank.now parts.test ∷ term_at bank.now parts.second ∷ []) (terms_at bank.now terms.now)))) }
    ensures not_deep { result ≡ Err BankFault.Deep → ⊥ }
{
    clause_in_place(bank, terms, place, &[parts.test, parts.second])
}

/// What stands under the two NOTs of a term.
fn under_nots(bank: &Bank, t: TermId) -> Option<TermId>
    requires { Stands bank.now t }
    ensures argument { option_map (term_at bank.now) result ≡ under_two_nots (term_at bank.now t) }
    ensures stands { IfSome result (λ u. Stands bank.now u) }
{
    match under_one_not(bank, t) {
        Some(u) => under_one_not(bank, u),
        None => None,
    }
}

/// What stands under the two NOTs of a literal.
pub fn under_nots_at(bank: &Bank, terms: &[TermId], place: u64) -> Option<TermId>
    requires { All (Stands bank.now) terms.now }
    ensures term { option_map (term_at bank.now) result ≡ and_then (literal_at place (terms_at bank.now terms.now)) under_two_nots }
    ensures stands { IfSome result (λ t. Stands bank.now t) }
{
    match literal(bank, terms, place) {
        Some(t) => under_nots(bank, t),
        None => None,
    }
}
