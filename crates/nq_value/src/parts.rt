//! Rows that give a part of a value.
ghost use Rattle.std.specs.Prelude.{◌≡◌, ◌∷◌, [], true, Some, IfSome};
ghost use Rattle.nq_logic.specs.Terms.{call};
ghost use Rattle.nq_logic.specs.Values.{is_value};
ghost use Rattle.nq_bank.specs.Content.{Stands, term_at};
ghost use Rattle.nq_proof.specs.Values.{value_of, first_of_pair, rest_of_pair, part_of};
ghost use Rattle.nq_value.specs.RowNames.{accessor_name};
ghost use Rattle.nq_value.specs.Objects.{DenotesValue};
ghost use Rattle.nq_value.specs.Answers.{part_or_zero};

use crate::object::{Object, object_of};
use crate::row::Accessor;
use nq_bank::{Bank, TermId};

/// The first part of a CONS.
fn first_of_pair(bank: &Bank, t: TermId) -> Option<TermId>
    requires stands { Stands bank.now t }
    requires value { is_value (term_at bank.now t) ≡ true }
    ensures part { part_or_zero bank.now result ≡ first_of_pair (term_at bank.now t) }
    ensures stands { IfSome result (λ u. DenotesValue bank.now u) }
{
    match object_of(bank, t) {
        Object::Pair(first, _) => Some(first),
        Object::True => None,
        Object::False => None,
        Object::Number(_) => None,
        Object::Atom(_) => None,
        Object::Negative(_) => None,
    }
}

/// The second part of a CONS.
fn rest_of_pair(bank: &Bank, t: TermId) -> Option<TermId>
    requires stands { Stands bank.now t }
    requires value { is_value (term_at bank.now t) ≡ true }
    ensures part { part_or_zero bank.now result ≡ rest_of_pair (term_at bank.now t) }
    ensures stands { IfSome result (λ u. DenotesValue bank.now u) }
{
    match object_of(bank, t) {
        Object::Pair(_, rest) => Some(rest),
        Object::True => None,
        Object::False => None,
        Object::Number(_) => None,
        Object::Atom(_) => None,
        Object::Negative(_) => None,
    }
}

/// The part of a PACK.
fn characters_of_atom(bank: &Bank, t: TermId) -> Option<TermId>
    requires stands { Stands bank.now t }
    requires value { is_value (term_at bank.now t) ≡ true }
    ensures part { part_or_zero bank.now result ≡ part_of "PACK" (term_at bank.now t) }
    ensures stands { IfSome result (λ u. DenotesValue bank.now u) }
{
    match object_of(bank, t) {
        Object::Atom(characters) => Some(characters),
        Object::True => None,
        Object::False => None,
        Object::Number(_) => None,
        Object::Pair(_, _) => None,
        Object::Negative(_) => None,
    }
}

/// The part of a MINUS.
fn numeral_of_negative(bank: &Bank, t: TermId) -> Option<TermId>
    requires stands { Stands bank.now t }
    requires value { is_value (term_at bank.now t) ≡ true }
    ensures part { part_or_zero bank.now result ≡ part_of "MINUS" (term_at bank.now t) }
    ensures stands { IfSome result (λ u. DenotesValue bank.now u) }
{
    match object_of(bank, t) {
        Object::Negative(numeral) => Some(numeral),
        Object::True => None,
        Object::False => None,
        Object::Number(_) => None,
        Object::Pair(_, _) => None,
        Object::Atom(_) => None,
    }
}

/// The part of a value that an accessor gives; none where it gives 0, as the value is of another kind.
pub fn part_of(bank: &Bank, accessor: Accessor, t: TermId) -> Option<TermId>
    requires stands { Stands bank.now t }
    requires value { is_value (term_at bank.now t) ≡ true }
    ensures value { value_of (call (accessor_name accessor) (term_at bank.now t ∷ [])) ≡ Some (part_or_zero bank.now result) }
    ensures stands { IfSome result (λ u. DenotesValue bank.now u) }
{
    match accessor {
        Accessor::Car => first_of_pair(bank, t),
        Accessor::Cdr => rest_of_pair(bank, t),
        Accessor::Unpack => characters_of_atom(bank, t),
        Accessor::NegativeGuts => numeral_of_negative(bank, t),
    }
}
