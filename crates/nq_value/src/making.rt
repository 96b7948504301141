//! The value as a term of the bank.
ghost use Rattle.std.specs.Prelude.{◌≡◌, ◌<◌, ◌≤◌, ◌∷◌, [], All, IfOk};
ghost use Rattle.nq_logic.specs.Terms.{call};
ghost use Rattle.nq_logic.specs.Words.{call1, zero_term};
ghost use Rattle.nq_logic.specs.Sizes.{depth_of, depth_limit};
ghost use Rattle.nq_bank.specs.GroundNames.{ground_count};
ghost use Rattle.nq_bank.specs.Soundness.{ground_text};
ghost use Rattle.nq_bank.specs.Content.{Stands, IsIdOf, Grows, terms_at};
ghost use Rattle.nq_proof.specs.Values.{truth};
ghost use Rattle.nq_value.specs.Answers.{AnswerStands, FoundStands, value_in, is_passes, found_value, finds_passes};

use crate::found::Found;
use nq_bank::{Bank, BankFault, Sym, TermId, ground, ground_name};
use std::alloc::AllocError;

/// What the table of values gives for a call on values.
#[derive(Clone, Copy, Debug, PartialEq, Eq)]
pub enum ValueAnswer {
    /// The value.
    Value(TermId),
    /// A number of the table would reach 2^128.
    Passes,
    /// The table has no row.
    NotBuiltIn,
}

/// The call of a ground function that is not too deep.
fn ground_call(bank: &mut Bank, known: Sym, arguments: &[TermId]) -> Result<TermId, AllocError>
    requires known { known.0 < ground_count }
    requires arguments { All (Stands bank.old) arguments.now }
    requires shallow { depth_of (call (ground_text known) (terms_at bank.old arguments.now)) ≤ depth_limit }
    ensures ok { IfOk result (λ t. IsIdOf bank.new t (call (ground_text known) (terms_at bank.old arguments.now))) }
    ensures grows { Grows bank.old bank.new }
    ensures names { bank.new.names ≡ bank.old.names }
{
    let f = ground_name(bank, known);
    match bank.app(f, arguments) {
        Ok(t) => Ok(t),
        Err(BankFault::Memory) => Err(AllocError),
        Err(BankFault::Deep) => unreachable!(),
    }
}

/// T or F.
fn truth_value(bank: &mut Bank, holds: bool) -> Result<TermId, AllocError>
    ensures ok { IfOk result (λ t. IsIdOf bank.new t (truth holds)) }
    ensures grows { Grows bank.old bank.new }
    ensures names { bank.new.names ≡ bank.old.names }
{
    if holds {
        ground_call(bank, ground::TRUE, &[])
    } else {
        ground_call(bank, ground::FALSE, &[])
    }
}

/// `(MINUS 0)`.
fn minus_zero(bank: &mut Bank) -> Result<TermId, AllocError>
    ensures ok { IfOk result (λ t. IsIdOf bank.new t (call1 "MINUS" zero_term)) }
    ensures grows { Grows bank.old bank.new }
    ensures names { bank.new.names ≡ bank.old.names }
{
    let zero = bank.num(0)?;
    ground_call(bank, ground::MINUS, &[zero])
}

/// The answer with its value as a term of the bank. It fails only for want of memory.
pub fn answer_of(bank: &mut Bank, found: Found) -> Result<ValueAnswer, AllocError>
    requires { FoundStands bank.old found }
    ensures value { IfOk result (λ a. value_in bank.new a ≡ found_value bank.old found) }
    ensures passes { IfOk result (λ a. is_passes a ≡ finds_passes found) }
    ensures stands { IfOk result (λ a. AnswerStands bank.new a) }
    ensures grows { Grows bank.old bank.new }
    ensures names { bank.new.names ≡ bank.old.names }
{
    match found {
        Found::Truth(holds) => Ok(ValueAnswer::Value(truth_value(bank, holds)?)),
        Found::Number(n) => Ok(ValueAnswer::Value(bank.num(n)?)),
        Found::Known(t) => Ok(ValueAnswer::Value(t)),
        Found::MinusZero => Ok(ValueAnswer::Value(minus_zero(bank)?)),
        Found::Passes => Ok(ValueAnswer::Passes),
        Found::NotBuiltIn => Ok(ValueAnswer::NotBuiltIn),
    }
}
