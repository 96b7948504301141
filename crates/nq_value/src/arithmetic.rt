//! Rows that make a number of two.
ghost use Rattle.std.specs.Prelude.{◌≡◌, ◌∷◌, [], ◌==◌, ◌/◌, ◌%◌, true, if◌then◌else◌};
ghost use Rattle.nq_logic.specs.Terms.{call};
ghost use Rattle.nq_logic.specs.Values.{is_value};
ghost use Rattle.nq_bank.specs.Content.{Stands, term_at};
ghost use Rattle.nq_proof.specs.Values.{value_of};
ghost use Rattle.nq_value.specs.RowNames.{arithmetic_name};
ghost use Rattle.nq_value.specs.Passing.{passes};
ghost use Rattle.nq_value.specs.Answers.{numeral_if, is_none};

use crate::kinds::number;
use crate::row::Arithmetic;
use nq_bank::{Bank, TermId};

/// A quotient; that by 0 is 0.
fn quotient(m: u128, n: u128) -> u128
    ensures { result ≡ (if n == 0 then 0 else m / n) }
{
    if n == 0 { 0 } else { m / n }
}

/// A remainder; that by 0 is the number.
fn remainder(m: u128, n: u128) -> u128
    ensures { result ≡ (if n == 0 then m else m % n) }
{
    if n == 0 { m } else { m % n }
}

/// The number that arithmetic makes of those of two values; none where it would reach 2^128.
pub fn number_of_two(bank: &Bank, arithmetic: Arithmetic, a: TermId, b: TermId) -> Option<u128>
    requires first { Stands bank.now a }
    requires second { Stands bank.now b }
    requires first_value { is_value (term_at bank.now a) ≡ true }
    requires second_value { is_value (term_at bank.now b) ≡ true }
    ensures value { value_of (call (arithmetic_name arithmetic) (term_at bank.now a ∷ term_at bank.now b ∷ [])) ≡ numeral_if result }
    ensures passes { passes (call (arithmetic_name arithmetic) (term_at bank.now a ∷ term_at bank.now b ∷ [])) ≡ is_none result }
{
    let m = number(bank, a);
    let n = number(bank, b);
    match arithmetic {
        Arithmetic::Plus => m.checked_add(n),
        Arithmetic::Times => m.checked_mul(n),
        Arithmetic::Difference => Some(m.saturating_sub(n)),
        Arithmetic::Quotient => Some(quotient(m, n)),
        Arithmetic::Remainder => Some(remainder(m, n)),
    }
}
