//! An IF of a term that stands in no branch of another one, and the terms with one of its branches in its place.
ghost use Rattle.std.specs.Prelude.{◌≡◌, ◌≤◌, ◌-◌, ◌++◌, ◌∷◌, [], All, IfOk, OnOk, MatchOption, Err, IsSome, length, slice_set};
ghost use Rattle.nq_logic.specs.Sizes.{depth_of, depth_limit};
ghost use Rattle.nq_bank.specs.Content.{Stands, Grows, IsIdOf, term_at, terms_at};
ghost use Rattle.nq_bank.specs.Parts.{parts_of};
ghost use Rattle.nq_proof.specs.Clauses.{literal_at};
ghost use Rattle.nq_rule.specs.Results.{with_argument};
ghost use Rattle.nq_cases.specs.Paths.{IsIfFree};
ghost use Rattle.nq_cases.specs.Counts.{HasCounts};
ghost use Rattle.nq_cases.specs.Choices.{IsNext, IsHere, IsInside, IsOpen, ChoiceIn, ChoiceOf};

use crate::finding::{Inside, Next, look};
use nq_bank::{Bank, BankFault, Node, TermId};
use nq_rule::Branches;
use std::collections::HashMap;

/// An IF in a term, and the terms with one of its branches in its place.
#[derive(Drop)]
pub struct Choice {
    /// Where the IF stands.
    pub path: Vec<u64>,
    /// The IF.
    pub whole: TermId,
    /// Its test.
    pub test: TermId,
    /// Its first branch.
    pub first_branch: TermId,
    /// Its second branch.
    pub second_branch: TermId,
    /// The term with the first branch in the place of the IF.
    pub first: TermId,
    /// The term with the second.
    pub second: TermId,
}

/// Where to look for an IF; the only fault is want of memory.
fn looked(
    bank: &Bank,
    known: &mut HashMap<u64, u128>,
    t: TermId,
    cap: u128,
) -> Result<Next, BankFault>
    requires stands { Stands bank.now t }
    requires cap { 2 ≤ cap }
    requires counts { HasCounts bank.now cap known.old }
    ensures ok { IfOk result (λ next. IsNext bank.now t next) }
    ensures counts { OnOk result (HasCounts bank.now cap known.new) }
    ensures not_deep { result ≡ Err BankFault.Deep → ⊥ }
{
    match look(bank, known, t, cap) {
        Ok(next) => Ok(next),
        Err(_) => Err(BankFault::Memory),
    }
}

/// A copy of the arguments of a term.
fn arguments_of(bank: &Bank, t: TermId) -> Result<Vec<TermId>, BankFault>
    requires { Stands bank.now t }
    ensures parts { IfOk result (λ v. terms_at bank.now v.items ≡ parts_of (term_at bank.now t)) }
    ensures stand { IfOk result (λ v. All (Stands bank.now) v.items) }
    ensures not_deep { result ≡ Err BankFault.Deep → ⊥ }
{
    match Vec::from_slice(bank.alloc(), bank.args(t)) {
        Ok(v) => Ok(v),
        Err(_) => Err(BankFault::Memory),
    }
}

/// Puts an argument at a place, counted from 1.
fn set_argument(arguments: &mut Vec<TermId>, place: u64, argument: TermId)
    requires first { 1 ≤ place }
    requires last { place ≤ length arguments.old.items }
    ensures { arguments.new.items ≡ slice_set arguments.old.items (place - 1) argument }
{
    arguments[(place - 1) as usize] = argument;
}

/// The call with another argument at a place, counted from 1, where it is not too deep.
fn with_argument_at(
    bank: &mut Bank,
    whole: TermId,
    place: u64,
    argument: TermId,
) -> Result<TermId, BankFault>
    requires whole { Stands bank.old whole }
    requires argument { Stands bank.old argument }
    requires place { IsSome (literal_at place (parts_of (term_at bank.old whole))) }
    requires shallow { depth_of (with_argument place (term_at bank.old argument) (term_at bank.old whole)) ≤ depth_limit }
    ensures ok { IfOk result (λ r. IsIdOf bank.new r (with_argument place (term_at bank.old argument) (term_at bank.old whole))) }
    ensures grows { Grows bank.old bank.new }
    ensures names { bank.new.names ≡ bank.old.names }
    ensures not_deep { result ≡ Err BankFault.Deep → ⊥ }
{
    match bank.node(whole) {
        Node::App(f, _) => {
            let mut arguments = arguments_of(bank, whole)?;
            set_argument(&mut arguments, place, argument);
            bank.app(f, arguments.as_slice())
        }
        Node::Num(_) => Ok(whole),
        Node::Var(_) => Ok(whole),
    }
}

/// The choice of an IF in itself.
fn choice_here(bank: &Bank, whole: TermId, branches: Branches) -> Choice
    requires stands { Stands bank.now whole }
    requires is { IsHere bank.now (term_at bank.now whole) branches }
    ensures { ChoiceIn bank.now (term_at bank.now whole) result }
{
    Choice {
        path: Vec::new(bank.alloc()),
        whole,
        test: branches.test,
        first_branch: branches.first,
        second_branch: branches.second,
        first: branches.first,
        second: branches.second,
    }
}

/// Puts a place before a path.
fn put_before(path: &mut Vec<u64>, place: u64) -> Result<(), BankFault>
    ensures ok { OnOk result (path.new.items ≡ place ∷ path.old.items) }
    ensures not_deep { result ≡ Err BankFault.Deep → ⊥ }
{
    match path.insert(0, place) {
        Ok(()) => Ok(()),
        Err(_) => Err(BankFault::Memory),
    }
}

/// The choice of an IF in an argument, told for the call.
fn choice_around(
    bank: &mut Bank,
    t: TermId,
    inside: Inside,
    choice: Choice,
) -> Result<Choice, BankFault>
    requires stands { Stands bank.old t }
    requires inside { IsInside bank.old t inside }
    requires place { IsOpen (term_at bank.old t) inside.place }
    requires choice { ChoiceIn bank.old (term_at bank.old inside.argument) choice }
    ensures ok { IfOk result (λ c. ChoiceIn bank.new (term_at bank.old t) c) }
    ensures grows { Grows bank.old bank.new }
    ensures names { bank.new.names ≡ bank.old.names }
    ensures not_deep { result ≡ Err BankFault.Deep → ⊥ }
{
    let _depth = bank.depth(t);
    let first = with_argument_at(bank, t, inside.place, choice.first)?;
    let second = with_argument_at(bank, t, inside.place, choice.second)?;
    let mut path = choice.path;
    put_before(&mut path, inside.place)?;
    Ok(Choice {
        path,
        whole: choice.whole,
        test: choice.test,
        first_branch: choice.first_branch,
        second_branch: choice.second_branch,
        first,
        second,
    })
}

/// The choice of the IF in a term that stands in no branch of another one, and whose test has none. As in
/// `(PLUS (IF (IF P Q R) X Y) Z)`, where it is `(IF P Q R)`: a split inside a branch would double the other branch.
fn choice_in(
    bank: &mut Bank,
    known: &mut HashMap<u64, u128>,
    t: TermId,
    cap: u128,
) -> Result<Option<Choice>, BankFault>
    requires stands { Stands bank.old t }
    requires cap { 2 ≤ cap }
    requires counts { HasCounts bank.old cap known.old }
    ensures ok { IfOk result (λ o. MatchOption o (IsIfFree (term_at bank.old t)) (λ c. ChoiceIn bank.new (term_at bank.old t) c)) }
    ensures counts { OnOk result (HasCounts bank.new cap known.new) }
    ensures grows { Grows bank.old bank.new }
    ensures names { bank.new.names ≡ bank.old.names }
    ensures not_deep { result ≡ Err BankFault.Deep → ⊥ }
{
    match looked(bank, known, t, cap)? {
        Next::Free => Ok(None),
        Next::Here(branches) => Ok(Some(choice_here(bank, t, branches))),
        Next::Within(inside) => match choice_in(bank, known, inside.argument, cap)? {
            Some(choice) => {
                let wider = choice_around(bank, t, inside, choice)?;
                Ok(Some(wider))
            }
            None => Ok(None),
        },
    }
}

/// An IF of a term that stands in no branch of another one, and the terms with its branches in its place; none where the
/// term has no IF. The counts of paths of some terms are known. The terms are no deeper, so Deep never comes.
pub fn choose(
    bank: &mut Bank,
    known: &mut HashMap<u64, u128>,
    t: TermId,
    cap: u128,
) -> Result<Option<Choice>, BankFault>
    requires stands { Stands bank.old t }
    requires cap { 2 ≤ cap }
    requires counts { HasCounts bank.old cap known.old }
    ensures ok { IfOk result (λ o. MatchOption o (IsIfFree (term_at bank.old t)) (λ c. ChoiceOf bank.new (term_at bank.old t) c)) }
    ensures counts { OnOk result (HasCounts bank.new cap known.new) }
    ensures grows { Grows bank.old bank.new }
    ensures names { bank.new.names ≡ bank.old.names }
    ensures not_deep { result ≡ Err BankFault.Deep → ⊥ }
{
    let _depth = bank.depth(t);
    choice_in(bank, known, t, cap)
}
