//! The rows of two arguments.
ghost use Rattle.std.specs.Prelude.{◌≡◌, ◌∷◌, [], true};
ghost use Rattle.nq_logic.specs.Terms.{call};
ghost use Rattle.nq_logic.specs.Values.{is_value};
ghost use Rattle.nq_bank.specs.Content.{Stands, term_at};
ghost use Rattle.nq_value.specs.RowNames.{name_of_two, arithmetic_name};
ghost use Rattle.nq_value.specs.Answers.{IsFound};

use crate::arithmetic::number_of_two;
use crate::found::Found;
use crate::kinds::number;
use crate::relations::{comparison_holds, connective_holds, is_same};
use crate::row::{Arithmetic, RowOfTwo};
use nq_bank::{Bank, TermId};

/// A numeral, unless its number would reach 2^128.
fn numeral_or_passes(bank: &Bank, arithmetic: Arithmetic, a: TermId, b: TermId) -> Found
    requires first { Stands bank.now a }
    requires second { Stands bank.now b }
    requires first_value { is_value (term_at bank.now a) ≡ true }
    requires second_value { is_value (term_at bank.now b) ≡ true }
    ensures { IsFound bank.now result (call (arithmetic_name arithmetic) (term_at bank.now a ∷ term_at bank.now b ∷ [])) }
{
    match number_of_two(bank, arithmetic, a, b) {
        Some(n) => Found::Number(n),
        None => Found::Passes,
    }
}

/// MAX is the second value where the number of the first is below its number, else the number of the first.
fn greater(bank: &Bank, a: TermId, b: TermId) -> Found
    requires first { Stands bank.now a }
    requires second { Stands bank.now b }
    requires first_value { is_value (term_at bank.now a) ≡ true }
    requires second_value { is_value (term_at bank.now b) ≡ true }
    ensures { IsFound bank.now result (call (name_of_two RowOfTwo.Max) (term_at bank.now a ∷ term_at bank.now b ∷ [])) }
{
    let first = number(bank, a);
    if first < number(bank, b) {
        Found::Known(b)
    } else {
        Found::Number(first)
    }
}

/// What a row of two arguments gives.
pub fn found_of_two(bank: &Bank, row: RowOfTwo, a: TermId, b: TermId) -> Found
    requires first { Stands bank.now a }
    requires second { Stands bank.now b }
    requires first_value { is_value (term_at bank.now a) ≡ true }
    requires second_value { is_value (term_at bank.now b) ≡ true }
    ensures { IsFound bank.now result (call (name_of_two row) (term_at bank.now a ∷ term_at bank.now b ∷ [])) }
{
    match row {
        RowOfTwo::Equal => Found::Truth(is_same(bank, a, b)),
        RowOfTwo::Connective(connective) => {
            Found::Truth(connective_holds(bank, connective, a, b))
        }
        RowOfTwo::Comparison(comparison) => {
            Found::Truth(comparison_holds(bank, comparison, a, b))
        }
        RowOfTwo::Arithmetic(arithmetic) => numeral_or_passes(bank, arithmetic, a, b),
        RowOfTwo::Max => greater(bank, a, b),
    }
}
