//! Which terms are printed as quoted objects, decided once for each term.
ghost use Rattle.std.specs.Prelude.{◌≡◌, ◌&&◌, nat_eq, Some, None, is_some, IfOk, OnOk};
ghost use Rattle.std.specs.HashMap.{get, Updates};
ghost use Rattle.nq_logic.specs.Terms.{Function, Applied};
ghost use Rattle.nq_logic.specs.Numerals.{number_of};
ghost use Rattle.nq_language.specs.Quotations.{single_object, negative_object};
ghost use Rattle.nq_bank.specs.Content.{Stands, IsNamed, term_at, text_at};
ghost use Rattle.nq_language.specs.Abbreviations.{is_word};
ghost use Rattle.nq_print.specs.Pieces.{is_object, is_nil_form};
ghost use Rattle.nq_print.specs.Known.{HasAnswers};

use crate::atoms::{atom_name, number_at};
use crate::shape::{Shape, shape_of};
use nq_bank::{Bank, Sym, TermId, ground};
use std::alloc::AllocError;
use std::collections::HashMap;

/// Which of the terms met so far are objects.
pub type Known = HashMap<u64, bool>;

fn known_answer(known: &Known, t: TermId) -> Option<bool>
    ensures { result ≡ get nat_eq known.now t.0 }
{
    known.get(&t.0).copied()
}

fn keep_answer(known: &mut Known, t: TermId, answer: bool) -> Result<(), AllocError>
    ensures { OnOk result (Updates nat_eq known.old known.new t.0 (Some answer)) }
{
    known.insert(t.0, answer)?;
    Ok(())
}

/// Is a call of one argument, which is no numeral, an object?
fn is_single_object(bank: &Bank, f: Sym, argument: TermId) -> Result<bool, AllocError>
    requires function { IsNamed bank.now f }
    requires argument { Stands bank.now argument }
    requires other { number_of (Applied (Function (text_at bank.now f)) (term_at bank.now argument)) ≡ None }
    ensures { IfOk result (λ answer. answer ≡ is_some (single_object (Function (text_at bank.now f)) (term_at bank.now argument))) }
{
    if bank.is_ground(f, ground::MINUS) {
        Ok(is_above_zero(number_at(bank, argument)))
    } else if bank.is_ground(f, ground::PACK) {
        Ok(atom_name(bank, argument)?.is_some())
    } else {
        Ok(false)
    }
}

fn is_above_zero(number: Option<u128>) -> bool
    ensures { result ≡ is_some (negative_object number) }
{
    match number {
        Some(n) => n > 0,
        None => false,
    }
}

fn are_both(left: bool, right: bool) -> bool
    ensures { result ≡ (left && right) }
{
    left && right
}

/// Is a term printed as a quoted object?
pub fn is_object(bank: &Bank, known: &mut Known, t: TermId) -> Result<bool, AllocError>
    requires stands { Stands bank.now t }
    requires answers { HasAnswers bank.now known.old }
    ensures ok { IfOk result (λ answer. answer ≡ is_object (term_at bank.now t)) }
    ensures answers { OnOk result (HasAnswers bank.now known.new) }
{
    match shape_of(bank, t) {
        Shape::Number(_) => Ok(true),
        Shape::Single(f, argument) => is_single_object(bank, f, argument),
        Shape::Pair(f, first, rest) => {
            if !bank.is_ground(f, ground::CONS) {
                return Ok(false);
            }
            if let Some(answer) = known_answer(known, t) {
                return Ok(answer);
            }
            let front = is_object(bank, known, first)?;
            let behind = is_object(bank, known, rest)?;
            let answer = are_both(front, behind);
            keep_answer(known, t, answer)?;
            Ok(answer)
        }
        Shape::Variable(_) => Ok(false),
        Shape::Constant(_) => Ok(false),
        Shape::Longer(_) => Ok(false),
    }
}

/// Is a call of one argument the literal atom NIL?
pub fn is_nil_call(bank: &Bank, f: Sym, argument: TermId) -> Result<bool, AllocError>
    requires function { IsNamed bank.now f }
    requires argument { Stands bank.now argument }
    ensures { IfOk result (λ answer. answer ≡ is_nil_form (single_object (Function (text_at bank.now f)) (term_at bank.now argument))) }
{
    if bank.is_ground(f, ground::PACK) {
        match atom_name(bank, argument)? {
            Some(name) => Ok(is_nil_name(&name)),
            None => Ok(false),
        }
    } else {
        Ok(false)
    }
}

fn is_nil_name(name: &[u8]) -> bool
    ensures { result ≡ is_word "NIL" name.now }
{
    name == b"NIL".as_slice()
}
