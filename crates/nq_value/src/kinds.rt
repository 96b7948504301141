//! The kinds that a value is tested for, and its number.
ghost use Rattle.std.specs.Prelude.{◌≡◌, true};
ghost use Rattle.nq_logic.specs.Words.{true_term, false_term};
ghost use Rattle.nq_logic.specs.Numerals.{number_of};
ghost use Rattle.nq_logic.specs.Values.{is_value};
ghost use Rattle.nq_bank.specs.Content.{Stands, term_at};
ghost use Rattle.nq_proof.specs.Clauses.{same_term};
ghost use Rattle.nq_proof.specs.Values.{is_pair, is_call_of, is_true, number_or_zero};

use crate::object::{Object, object_of};
use nq_bank::{Bank, Node, TermId};

/// Is a value T?
pub fn is_truth(bank: &Bank, t: TermId) -> bool
    requires stands { Stands bank.now t }
    requires value { is_value (term_at bank.now t) ≡ true }
    ensures { result ≡ same_term (term_at bank.now t) true_term }
{
    match object_of(bank, t) {
        Object::True => true,
        Object::False => false,
        Object::Number(_) => false,
        Object::Pair(_, _) => false,
        Object::Atom(_) => false,
        Object::Negative(_) => false,
    }
}

/// Is a value other than F?
pub fn is_true(bank: &Bank, t: TermId) -> bool
    requires stands { Stands bank.now t }
    requires value { is_value (term_at bank.now t) ≡ true }
    ensures { result ≡ is_true (term_at bank.now t) }
{
    match object_of(bank, t) {
        Object::True => true,
        Object::False => false,
        Object::Number(_) => true,
        Object::Pair(_, _) => true,
        Object::Atom(_) => true,
        Object::Negative(_) => true,
    }
}

/// Is a value a CONS?
pub fn is_pair(bank: &Bank, t: TermId) -> bool
    requires stands { Stands bank.now t }
    requires value { is_value (term_at bank.now t) ≡ true }
    ensures { result ≡ is_pair (term_at bank.now t) }
{
    match object_of(bank, t) {
        Object::True => false,
        Object::False => false,
        Object::Number(_) => false,
        Object::Pair(_, _) => true,
        Object::Atom(_) => false,
        Object::Negative(_) => false,
    }
}

/// Is a value a PACK?
pub fn is_atom(bank: &Bank, t: TermId) -> bool
    requires stands { Stands bank.now t }
    requires value { is_value (term_at bank.now t) ≡ true }
    ensures { result ≡ is_call_of "PACK" (term_at bank.now t) }
{
    match object_of(bank, t) {
        Object::True => false,
        Object::False => false,
        Object::Number(_) => false,
        Object::Pair(_, _) => false,
        Object::Atom(_) => true,
        Object::Negative(_) => false,
    }
}

/// Is a value a MINUS?
pub fn is_negative(bank: &Bank, t: TermId) -> bool
    requires stands { Stands bank.now t }
    requires value { is_value (term_at bank.now t) ≡ true }
    ensures { result ≡ is_call_of "MINUS" (term_at bank.now t) }
{
    match object_of(bank, t) {
        Object::True => false,
        Object::False => false,
        Object::Number(_) => false,
        Object::Pair(_, _) => false,
        Object::Atom(_) => false,
        Object::Negative(_) => true,
    }
}

/// The number of a numeral.
pub fn numeral(bank: &Bank, t: TermId) -> Option<u128>
    requires { Stands bank.now t }
    ensures { result ≡ number_of (term_at bank.now t) }
{
    match bank.node(t) {
        Node::Num(n) => Some(n),
        Node::App(_, _) => None,
        Node::Var(_) => None,
    }
}

/// The number of a value; another value than a numeral counts as 0.
pub fn number(bank: &Bank, t: TermId) -> u128
    requires { Stands bank.now t }
    ensures { result ≡ number_or_zero (term_at bank.now t) }
{
    match numeral(bank, t) {
        Some(n) => n,
        None => 0,
    }
}
