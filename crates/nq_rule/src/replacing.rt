//! The rule REPLACE: a term in the place of another, at a path within a literal.
ghost use Rattle.std.specs.Prelude.{◌≡◌, ◌<◌, ◌≤◌, ◌-◌, ◌++◌, ◌∷◌, [], All, IfOk, OnOk, IfSome, IsSome, is_some, length, slice_set, Err, Some};
ghost use Rattle.std.specs.Option.{option_map};
ghost use Rattle.nq_bank.specs.Content.{Stands, IsNamed, IsIdOf, Grows, text_at, term_at, terms_at};
ghost use Rattle.nq_logic.specs.Sizes.{depth_of, depth_limit};
ghost use Rattle.nq_bank.specs.Parts.{parts_of};
ghost use Rattle.nq_proof.specs.Clauses.{literal_at, in_place, distinct};
ghost use Rattle.nq_proof.specs.Rules.{used_equation};
ghost use Rattle.nq_logic.specs.Terms.{Term};
ghost use Rattle.nq_logic.specs.Words.{not_term, equal_term};
ghost use Rattle.nq_proof.specs.Linear.{and_then};
ghost use Rattle.nq_rule.specs.Places.{part_at};
ghost use Rattle.nq_rule.specs.Conclusions.{Concludes, IsDeep};
ghost use Rattle.nq_rule.specs.Results.{with_argument, with_part, replacement_of};
ghost use Rattle.nq_rule.specs.Sides.{side_of};

use crate::clauses::distinct_clause;
use crate::cutting::with_last;
use crate::making::ground_call;
use crate::memory::or_memory;
use crate::placing::{literal, terms_in_place};
use nq_bank::{Bank, BankFault, Node, TermId, ground};
use std::alloc::AllocError;

/// In which order the equation of a replacement is read.
#[derive(Clone, Copy, Debug, PartialEq, Eq)]
pub enum Side {
    /// What stood there, and then what stands there now.
    Forwards,
    /// What stands there now, and then what stood there.
    Backwards,
}

/// The argument of a call at a place, counted from 1.
fn argument(bank: &Bank, t: TermId, place: u64) -> Option<TermId>
    requires { Stands bank.now t }
    ensures argument { option_map (term_at bank.now) result ≡ literal_at place (parts_of (term_at bank.now t)) }
    ensures stands { IfSome result (λ u. Stands bank.now u) }

    // the call is too deep with an argument there that is too deep
    ensures deep { IfSome result (λ u. (v : Term) → depth_limit < depth_of v → depth_limit < depth_of (with_argument place v (term_at bank.now t))) }
{
    match bank.node(t) {
        Node::App(_, _) => literal(bank, bank.args(t), place),
        Node::Num(_) => None,
        Node::Var(_) => None,
    }
}

/// What stands in a term at a path of argument places.
pub fn at_path(bank: &Bank, t: TermId, path: &[u64]) -> Option<TermId>
    requires { Stands bank.now t }
    ensures part { option_map (term_at bank.now) result ≡ part_at path.now (term_at bank.now t) }
    ensures stands { IfSome result (λ u. Stands bank.now u) }
{
    let mut part = t;
    for place in path {
        match argument(bank, part, *place) {
            Some(u) => {
                part = u;
            }
            None => return None,
        }
    }
    Some(part)
}

/// A copy of the arguments of a term.
fn copied_arguments(bank: &Bank, t: TermId) -> Result<Vec<TermId>, BankFault>
    requires { Stands bank.now t }
    ensures parts { IfOk result (λ v. terms_at bank.now v.items ≡ parts_of (term_at bank.now t)) }
    ensures stand { IfOk result (λ v. All (Stands bank.now) v.items) }
    ensures not_deep { result ≡ Err BankFault.Deep → ⊥ }
{
    match Vec::from_slice(bank.alloc(), bank.args(t)) {
        Ok(v) => Ok(v),
        Err(_) => Err(BankFault::Memory),
    }
}

/// Puts an argument at a place, counted from 1.
fn set_argument(arguments: &mut Vec<TermId>, place: u64, part: TermId)
    requires first { 1 ≤ place }
    requires last { place ≤ length arguments.old.items }
    ensures { arguments.new.items ≡ slice_set arguments.old.items (place - 1) part }
{
    arguments[(place - 1) as usize] = part;
}

/// The call with another argument at a place, counted from 1.
fn with_argument_at(
    bank: &mut Bank,
    whole: TermId,
    place: u64,
    part: TermId,
) -> Result<TermId, BankFault>
    requires whole { Stands bank.old whole }
    requires part { Stands bank.old part }
    requires place { IsSome (literal_at place (parts_of (term_at bank.old whole))) }
    ensures ok { IfOk result (λ r. IsIdOf bank.new r (with_argument place (term_at bank.old part) (term_at bank.old whole))) }
    ensures grows { Grows bank.old bank.new }
    ensures names { bank.new.names ≡ bank.old.names }
    ensures deep { result ≡ Err BankFault.Deep → depth_limit < depth_of (with_argument place (term_at bank.old part) (term_at bank.old whole)) }
{
    match bank.node(whole) {
        Node::App(f, _) => {
            let mut arguments = copied_arguments(bank, whole)?;
            set_argument(&mut arguments, place, part);
            bank.app(f, arguments.as_slice())
        }
        Node::Num(_) => Ok(whole),
        Node::Var(_) => Ok(whole),
    }
}

/// The term with another at a path of argument places.
pub fn with_part_at(
    bank: &mut Bank,
    whole: TermId,
    path: &[u64],
    t: TermId,
) -> Result<TermId, BankFault>
    requires whole { Stands bank.old whole }
    requires term { Stands bank.old t }
    requires path { IsSome (part_at path.now (term_at bank.old whole)) }
    ensures ok { IfOk result (λ r. IsIdOf bank.new r (with_part path.now (term_at bank.old t) (term_at bank.old whole))) }
    ensures grows { Grows bank.old bank.new }
    ensures names { bank.new.names ≡ bank.old.names }
    ensures deep { result ≡ Err BankFault.Deep → depth_limit < depth_of (with_part path.now (term_at bank.old t) (term_at bank.old whole)) }
{
    match path {
        [] => Ok(t),
        [place, rest @ ..] => {
            let inner = argument(bank, whole, *place).unwrap();
            let part = with_part_at(bank, inner, rest, t)?;
            with_argument_at(bank, whole, *place, part)
        }
    }
}

/// The equation of two terms, as a hypothesis.
fn used_equation_of(
    bank: &mut Bank,
    side: Side,
    was: TermId,
    now: TermId,
) -> Result<TermId, BankFault>
    requires was { Stands bank.old was }
    requires now { Stands bank.old now }
    ensures ok { IfOk result (λ t. IsIdOf bank.new t (used_equation (side_of side) (term_at bank.old was) (term_at bank.old now))) }
    ensures grows { Grows bank.old bank.new }
    ensures names { bank.new.names ≡ bank.old.names }
    ensures deep { result ≡ Err BankFault.Deep → depth_limit < depth_of (used_equation (side_of side) (term_at bank.old was) (term_at bank.old now)) }
{
    match side {
        Side::Forwards => denied_equation(bank, was, now),
        Side::Backwards => denied_equation(bank, now, was),
    }
}

fn denied_equation(bank: &mut Bank, left: TermId, right: TermId) -> Result<TermId, BankFault>
    requires left { Stands bank.old left }
    requires right { Stands bank.old right }
    ensures ok { IfOk result (λ t. IsIdOf bank.new t (not_term (equal_term (term_at bank.old left) (term_at bank.old right)))) }
    ensures grows { Grows bank.old bank.new }
    ensures names { bank.new.names ≡ bank.old.names }
    ensures deep { result ≡ Err BankFault.Deep → depth_limit < depth_of (not_term (equal_term (term_at bank.old left) (term_at bank.old right))) }
{
    let equation = ground_call(bank, ground::EQUAL, &[left, right])?;
    ground_call(bank, ground::NOT, &[equation])
}

fn replaced_terms(
    bank: &Bank,
    terms: &[TermId],
    place: u64,
    literal: TermId,
    equation: TermId,
) -> Result<Vec<TermId>, AllocError>
    requires terms { All (Stands bank.now) terms.now }
    requires place { IsSome (literal_at place (terms_at bank.now terms.now)) }
    requires literal { Stands bank.now literal }
    requires equation { Stands bank.now equation }
    ensures clause { IfOk result (λ c. terms_at bank.now c.items ≡ distinct (in_place place (term_at bank.now literal ∷ []) (terms_at bank.now terms.now) ++ (term_at bank.now equation ∷ []))) }
    ensures stand { IfOk result (λ c. All (Stands bank.now) c.items) }
{
    let c = terms_in_place(bank, terms, place, &[literal])?;
    let c = with_last(bank, c, equation)?;
    distinct_clause(bank, c.as_slice())
}

/// Has a clause a place at a path within a literal, counted from 1?
pub fn can_replace_at(bank: &Bank, terms: &[TermId], place: u64, path: &[u64]) -> bool
    requires { All (Stands bank.now) terms.now }
    ensures { result ≡ is_some (and_then (literal_at place (terms_at bank.now terms.now)) (λ a. part_at path.now a)) }
{
    match literal(bank, terms, place) {
        Some(a) => at_path(bank, a, path).is_some(),
        None => false,
    }
}

/// The clause with t at a path within a literal, counted from 1, and then the equation of what stood there and t, as a
/// hypothesis.
pub fn replace_clause(
    bank: &mut Bank,
    terms: &[TermId],
    place: u64,
    path: &[u64],
    t: TermId,
    side: Side,
) -> Result<Vec<TermId>, BankFault>
    requires terms { All (Stands bank.old) terms.now }
    requires term { Stands bank.old t }
    requires place { IsSome (and_then (literal_at place (terms_at bank.old terms.now)) (λ a. part_at path.now a)) }
    ensures ok { IfOk result (λ c. Concludes bank.new c.items (replacement_of place path.now (term_at bank.old t) (side_of side) (terms_at bank.old terms.now))) }
    ensures grows { Grows bank.old bank.new }
    ensures names { bank.new.names ≡ bank.old.names }
    ensures deep { result ≡ Err BankFault.Deep → IsDeep (replacement_of place path.now (term_at bank.old t) (side_of side) (terms_at bank.old terms.now)) }
{
    let a = literal(bank, terms, place).unwrap();
    let was = at_path(bank, a, path).unwrap();
    let changed = with_part_at(bank, a, path, t)?;
    let equation = used_equation_of(bank, side, was, t)?;
    or_memory(replaced_terms(bank, terms, place, changed, equation))
}
