//! The rows of one argument.
ghost use Rattle.std.specs.Prelude.{◌≡◌, ◌∷◌, [], true};
ghost use Rattle.nq_logic.specs.Terms.{call};
ghost use Rattle.nq_logic.specs.Values.{is_value};
ghost use Rattle.nq_bank.specs.Content.{Stands, term_at};
ghost use Rattle.nq_value.specs.RowNames.{name_of_one, accessor_name};
ghost use Rattle.nq_value.specs.Answers.{IsFound};

use crate::found::Found;
use crate::kinds::{number, numeral};
use crate::parts::part_of;
use crate::predicates::test_holds;
use crate::row::{Accessor, RowOfOne};
use nq_bank::{Bank, TermId};

/// The part of a value, or 0.
fn part_or_zero(bank: &Bank, accessor: Accessor, t: TermId) -> Found
    requires stands { Stands bank.now t }
    requires value { is_value (term_at bank.now t) ≡ true }
    ensures { IsFound bank.now result (call (accessor_name accessor) (term_at bank.now t ∷ [])) }
{
    match part_of(bank, accessor, t) {
        Some(part) => Found::Known(part),
        None => Found::Number(0),
    }
}

/// ADD1 of a value that is no numeral is 1. Of a numeral it is a numeral itself, and so has no row, unless it passes.
fn one_more(bank: &Bank, t: TermId) -> Found
    requires stands { Stands bank.now t }
    requires value { is_value (term_at bank.now t) ≡ true }
    ensures { IsFound bank.now result (call (name_of_one RowOfOne.Add1) (term_at bank.now t ∷ [])) }
{
    match numeral(bank, t) {
        Some(n) => {
            if n == u128::MAX {
                Found::Passes
            } else {
                Found::NotBuiltIn
            }
        }
        None => Found::Number(1),
    }
}

/// MINUS of a value that is no numeral is `(MINUS 0)`. Of a numeral it is a value itself, and has no row.
fn negative(bank: &Bank, t: TermId) -> Found
    requires stands { Stands bank.now t }
    requires value { is_value (term_at bank.now t) ≡ true }
    ensures { IsFound bank.now result (call (name_of_one RowOfOne.Minus) (term_at bank.now t ∷ [])) }
{
    match numeral(bank, t) {
        Some(_) => Found::NotBuiltIn,
        None => Found::MinusZero,
    }
}

/// COUNT of a numeral is that numeral. Of another value it has no row.
fn size(bank: &Bank, t: TermId) -> Found
    requires stands { Stands bank.now t }
    requires value { is_value (term_at bank.now t) ≡ true }
    ensures { IsFound bank.now result (call (name_of_one RowOfOne.Count) (term_at bank.now t ∷ [])) }
{
    match numeral(bank, t) {
        Some(_) => Found::Known(t),
        None => Found::NotBuiltIn,
    }
}

/// What a row of one argument gives.
pub fn found_of_one(bank: &Bank, row: RowOfOne, t: TermId) -> Found
    requires stands { Stands bank.now t }
    requires value { is_value (term_at bank.now t) ≡ true }
    ensures { IsFound bank.now result (call (name_of_one row) (term_at bank.now t ∷ [])) }
{
    match row {
        RowOfOne::Test(test) => Found::Truth(test_holds(bank, test, t)),
        RowOfOne::Accessor(accessor) => part_or_zero(bank, accessor, t),
        RowOfOne::Sub1 => Found::Number(number(bank, t).saturating_sub(1)),
        RowOfOne::Fix => Found::Number(number(bank, t)),
        RowOfOne::Add1 => one_more(bank, t),
        RowOfOne::Minus => negative(bank, t),
        RowOfOne::Identity => Found::Known(t),
        RowOfOne::Count => size(bank, t),
    }
}
