//! The whole table.
ghost use Rattle.std.specs.Prelude.{◌≡◌, ◌∷◌, [], true, All, IfOk, codes};
ghost use Rattle.nq_logic.specs.Terms.{call};
ghost use Rattle.nq_logic.specs.Values.{is_value};
ghost use Rattle.nq_bank.specs.Content.{Stands, IsNamed, Grows, term_at, terms_at, text_at};
ghost use Rattle.nq_value.specs.RowNames.{row_name, name_of_one, name_of_two};
ghost use Rattle.nq_value.specs.Answers.{IsAnswer, IsFound};

use crate::branching::found_at_if;
use crate::found::Found;
use crate::lookup::row_of;
use crate::making::{ValueAnswer, answer_of};
use crate::row::{Row, RowOfOne, RowOfTwo};
use crate::rows_of_one::found_of_one;
use crate::rows_of_two::found_of_two;
use nq_bank::{Bank, Sym, TermId};
use std::alloc::AllocError;

/// What a function of one argument gives; of another count of arguments it has no row.
fn found_at_one(bank: &Bank, row: RowOfOne, arguments: &[TermId]) -> Found
    requires stand { All (Stands bank.now) arguments.now }
    requires values { All (λ a. is_value (term_at bank.now a) ≡ true) arguments.now }
    ensures { IsFound bank.now result (call (name_of_one row) (terms_at bank.now arguments.now)) }
{
    match arguments {
        [a] => found_of_one(bank, row, *a),
        [] => Found::NotBuiltIn,
        _ => Found::NotBuiltIn,
    }
}

/// What a function of two arguments gives; of another count of arguments it has no row.
fn found_at_two(bank: &Bank, row: RowOfTwo, arguments: &[TermId]) -> Found
    requires stand { All (Stands bank.now) arguments.now }
    requires values { All (λ a. is_value (term_at bank.now a) ≡ true) arguments.now }
    ensures { IsFound bank.now result (call (name_of_two row) (terms_at bank.now arguments.now)) }
{
    match arguments {
        [a, b] => found_of_two(bank, row, *a, *b),
        [] => Found::NotBuiltIn,
        [_] => Found::NotBuiltIn,
        _ => Found::NotBuiltIn,
    }
}

/// What a row gives.
fn found_in_row(bank: &Bank, row: Row, arguments: &[TermId]) -> Found
    requires stand { All (Stands bank.now) arguments.now }
    requires values { All (λ a. is_value (term_at bank.now a) ≡ true) arguments.now }
    ensures { IsFound bank.now result (call (row_name row) (terms_at bank.now arguments.now)) }
{
    match row {
        Row::One(row) => found_at_one(bank, row, arguments),
        Row::Two(row) => found_at_two(bank, row, arguments),
        Row::If => found_at_if(bank, arguments),
    }
}

/// What the table gives.
pub fn found_for(bank: &Bank, f: Sym, arguments: &[TermId]) -> Found
    requires function { IsNamed bank.now f }
    requires stand { All (Stands bank.now) arguments.now }
    requires values { All (λ a. is_value (term_at bank.now a) ≡ true) arguments.now }
    ensures { IsFound bank.now result (call (text_at bank.now f) (terms_at bank.now arguments.now)) }
{
    match row_of(bank, f) {
        Some(row) => found_in_row(bank, row, arguments),
        None => Found::NotBuiltIn,
    }
}

/// The value of a call of f on values, by the table of values. It is `Passes` exactly where a number of the table would reach
/// 2^128, and `NotBuiltIn` exactly where the table has no row: so for a call that is a value itself. Numbers of any size take
/// one step. It fails only for want of memory; the bank may then have grown.
pub fn apply(bank: &mut Bank, f: Sym, arguments: &[TermId]) -> Result<ValueAnswer, AllocError>
    requires function { IsNamed bank.old f }
    requires stand { All (Stands bank.old) arguments.now }
    requires values { All (λ a. is_value (term_at bank.old a) ≡ true) arguments.now }
    ensures ok { IfOk result (λ answer. IsAnswer bank.new answer (call (text_at bank.old f) (terms_at bank.old arguments.now))) }
    ensures grows { Grows bank.old bank.new }
    ensures names { bank.new.names ≡ bank.old.names }
{
    let found = found_for(bank, f, arguments);
    answer_of(bank, found)
}
