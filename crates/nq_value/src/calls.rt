//! The values of calls as they stand in a bank.
ghost use Rattle.std.specs.Prelude.{◌≡◌, ◌↔◌, true, All, IfOk, IfSome, is_some};
ghost use Rattle.std.specs.Option.{option_map};
ghost use Rattle.nq_logic.specs.Values.{is_value};
ghost use Rattle.nq_bank.specs.Content.{Stands, Grows, term_at};
ghost use Rattle.nq_proof.specs.Values.{value_of};
ghost use Rattle.nq_value.specs.Objects.{DenotesValue};
ghost use Rattle.nq_value.specs.Answers.{FoundStands, found_value};

use crate::found::Found;
use crate::making::{ValueAnswer, answer_of};
use crate::table::found_for;
use nq_bank::{Bank, Node, TermId};
use std::alloc::AllocError;

/// Are all these terms values?
fn are_values(bank: &Bank, terms: &[TermId]) -> bool
    requires { All (Stands bank.now) terms.now }
    ensures { (result ≡ true) ↔ All (λ t. is_value (term_at bank.now t) ≡ true) terms.now }
{
    for t in terms {
        if !bank.is_value(*t) {
            return false;
        }
    }
    true
}

/// What the table gives for a term; nothing where it is no call on values.
fn found_in(bank: &Bank, t: TermId) -> Found
    requires { Stands bank.now t }
    ensures value { value_of (term_at bank.now t) ≡ found_value bank.now result }
    ensures stands { FoundStands bank.now result }
{
    match bank.node(t) {
        Node::App(f, _) => {
            let arguments = bank.args(t);
            if are_values(bank, arguments) {
                found_for(bank, f, arguments)
            } else {
                Found::NotBuiltIn
            }
        }
        Node::Num(_) => Found::NotBuiltIn,
        Node::Var(_) => Found::NotBuiltIn,
    }
}

/// Is a term a call on values that has a value by the table? It takes no memory.
pub fn has_value(bank: &Bank, t: TermId) -> bool
    requires { Stands bank.now t }
    ensures { result ≡ is_some (value_of (term_at bank.now t)) }
{
    match found_in(bank, t) {
        Found::Truth(_) => true,
        Found::Number(_) => true,
        Found::Known(_) => true,
        Found::MinusZero => true,
        Found::Passes => false,
        Found::NotBuiltIn => false,
    }
}

/// The value of a term that is a call on values, by the table; none where it has none there. It fails only for want of
/// memory; the bank may then have grown.
pub fn value_of(bank: &mut Bank, t: TermId) -> Result<Option<TermId>, AllocError>
    requires { Stands bank.old t }
    ensures value { IfOk result (λ v. option_map (term_at bank.new) v ≡ value_of (term_at bank.old t)) }
    ensures stands { IfOk result (λ v. IfSome v (λ u. DenotesValue bank.new u)) }
    ensures grows { Grows bank.old bank.new }
    ensures names { bank.new.names ≡ bank.old.names }
{
    let found = found_in(bank, t);
    match answer_of(bank, found)? {
        ValueAnswer::Value(v) => Ok(Some(v)),
        ValueAnswer::Passes => Ok(None),
        ValueAnswer::NotBuiltIn => Ok(None),
    }
}
