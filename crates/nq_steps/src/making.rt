//! Takes steps over a bank.
ghost use Rattle.std.specs.Prelude.{◌≡◌, IsTrue, ◌≤◌, ◌-◌, ◌++◌, [], ◌∷◌, ℕ, reverse, length, take, drop, All, IfOk, OnOk, Err};
ghost use Rattle.nq_logic.specs.Terms.{Variable};
ghost use Rattle.nq_logic.specs.Words.{numeral};
ghost use Rattle.nq_logic.specs.Shells.{digits_of, part_variable};
ghost use Rattle.nq_logtext.specs.Symbols.{is_symbol};
ghost use Rattle.nq_bank.specs.Content.{Grows, IsIdOf, IsNamed, Stands, terms_at, text_at};
ghost use Rattle.nq_steps.specs.NewNames.{AddsSymbols};
ghost use Rattle.nq_steps.specs.Steps.{leaf_term, stack_of, step_taken, HasDeep, LeafStands, StepStands};

use crate::steps::{Leaf, Step};
use nq_bank::{Bank, BankFault, Sym, TermId};
use std::alloc::{AllocError, Global};

/// Writes the decimal digits of a number.
fn put_digits(text: &mut Vec<u8>, n: u128) -> Result<(), AllocError>
    ensures { OnOk result ((places : ℕ) → 1 ≤ places → n ≤ places → text.new.items ≡ text.old.items ++ digits_of places n) }
{
    if n < 10 {
        text.push(48 + n as u8)?;
        return Ok(());
    }
    put_digits(text, n / 10)?;
    text.push(48 + (n % 10) as u8)?;
    Ok(())
}

/// The id of the variable with this text.
fn variable(bank: &mut Bank, text: &[u8]) -> Result<TermId, BankFault>
    requires { IsTrue (is_symbol text.now) }
    ensures ok { IfOk result (λ t. IsIdOf bank.new t (Variable text.now)) }
    ensures grows { Grows bank.old bank.new }
    ensures names { AddsSymbols bank.old bank.new }
    ensures not_deep { result ≡ Err BankFault.Deep → ⊥ }
{
    let Ok(s) = bank.name(text) else {
        return Err(BankFault::Memory);
    };
    match bank.var(s) {
        Ok(t) => Ok(t),
        Err(_) => Err(BankFault::Memory),
    }
}

/// The text of the variable of a part.
fn part_text(alloc: Global, place: u64) -> Result<Vec<u8>, AllocError>
    ensures text { IfOk result (λ text. Variable text.items ≡ part_variable place) }
    ensures symbol { IfOk result (λ text. IsTrue (is_symbol text.items)) }
{
    let mut text = Vec::new(alloc);
    text.push(b'X')?;
    put_digits(&mut text, u128::from(place) + 1)?;
    Ok(text)
}

/// The id of the variable of a part.
fn variable_of_part(bank: &mut Bank, place: u64) -> Result<TermId, BankFault>
    ensures ok { IfOk result (λ t. IsIdOf bank.new t (part_variable place)) }
    ensures grows { Grows bank.old bank.new }
    ensures names { AddsSymbols bank.old bank.new }
    ensures not_deep { result ≡ Err BankFault.Deep → ⊥ }
{
    let alloc = bank.alloc();
    match part_text(alloc, place) {
        Ok(text) => variable(bank, text.as_slice()),
        Err(_) => Err(BankFault::Memory),
    }
}

/// The id of the variable with this name.
fn named_variable(bank: &mut Bank, name: Sym) -> Result<TermId, BankFault>
    requires name { IsNamed bank.old name }
    ensures ok { IfOk result (λ t. IsIdOf bank.new t (Variable (text_at bank.old name))) }
    ensures grows { Grows bank.old bank.new }
    ensures names { AddsSymbols bank.old bank.new }
    ensures not_deep { result ≡ Err BankFault.Deep → ⊥ }
{
    match bank.var(name) {
        Ok(t) => Ok(t),
        Err(_) => Err(BankFault::Memory),
    }
}

/// The id of a numeral.
fn numeral_id(bank: &mut Bank, number: u128) -> Result<TermId, BankFault>
    ensures ok { IfOk result (λ t. IsIdOf bank.new t (numeral number)) }
    ensures grows { Grows bank.old bank.new }
    ensures names { AddsSymbols bank.old bank.new }
    ensures not_deep { result ≡ Err BankFault.Deep → ⊥ }
{
    match bank.num(number) {
        Ok(t) => Ok(t),
        Err(_) => Err(BankFault::Memory),
    }
}

/// The id of a term that is made of no others.
fn leaf_id(bank: &mut Bank, leaf: Leaf) -> Result<TermId, BankFault>
    requires leaf { LeafStands bank.old leaf }
    ensures ok { IfOk result (λ t. IsIdOf bank.new t (leaf_term bank.old leaf)) }
    ensures grows { Grows bank.old bank.new }
    ensures names { AddsSymbols bank.old bank.new }
    ensures not_deep { result ≡ Err BankFault.Deep → ⊥ }
{
    match leaf {
        Leaf::Letter(letter) => variable(bank, &[letter]),
        Leaf::Name(name) => named_variable(bank, name),
        Leaf::Part(place) => variable_of_part(bank, place),
        Leaf::Number(number) => numeral_id(bank, number),
        Leaf::Known(t) => Ok(t),
    }
}

/// One more id.
fn add_id(ids: &mut Vec<TermId>, id: TermId) -> Result<(), BankFault>
    ensures ok { OnOk result (ids.new.items ≡ ids.old.items ++ id ∷ []) }
    ensures not_deep { result ≡ Err BankFault.Deep → ⊥ }
{
    match ids.push(id) {
        Ok(()) => Ok(()),
        Err(_) => Err(BankFault::Memory),
    }
}

/// The last ids, so many of them, or all where they are fewer.
fn take_last(ids: &mut Vec<TermId>, count: u64) -> Result<Vec<TermId>, BankFault>
    ensures first { OnOk result (ids.new.items ≡ take (length ids.old.items - count) ids.old.items) }
    ensures last { IfOk result (λ last. last.items ≡ drop (length ids.old.items - count) ids.old.items) }
    ensures not_deep { result ≡ Err BankFault.Deep → ⊥ }
{
    let kept = (ids.len() as u64).saturating_sub(count);
    match ids.split_off(kept as usize) {
        Ok(last) => Ok(last),
        Err(_) => Err(BankFault::Memory),
    }
}

/// Takes one step.
fn take_step(bank: &mut Bank, ids: &mut Vec<TermId>, step: Step) -> Result<(), BankFault>
    requires step { StepStands bank.old step }
    requires ids { All (Stands bank.old) ids.old.items }
    ensures stand { OnOk result (All (Stands bank.new) ids.new.items) }
    ensures makes { OnOk result (reverse (terms_at bank.new ids.new.items) ≡ step_taken bank.old step (reverse (terms_at bank.old ids.old.items))) }
    ensures grows { Grows bank.old bank.new }
    ensures names { AddsSymbols bank.old bank.new }
    ensures deep { result ≡ Err BankFault.Deep → HasDeep (step_taken bank.old step (reverse (terms_at bank.old ids.old.items))) }
{
    match step {
        Step::Leaf(leaf) => {
            let id = leaf_id(bank, leaf)?;
            add_id(ids, id)
        }
        Step::Call(f, count) => {
            let last = take_last(ids, count)?;
            let id = bank.app(f, last.as_slice())?;
            add_id(ids, id)
        }
    }
}

/// The terms that the steps make, the first first. The names that the bank gets are symbols in upper case. An error may leave
/// more terms and names in the bank.
pub fn take_steps(bank: &mut Bank, steps: &[Step]) -> Result<Vec<TermId>, BankFault>
    requires steps { All (StepStands bank.old) steps.now }
    ensures stand { IfOk result (λ ids. All (Stands bank.new) ids.items) }
    ensures makes { IfOk result (λ ids. terms_at bank.new ids.items ≡ reverse (stack_of bank.old steps.now)) }
    ensures grows { Grows bank.old bank.new }
    ensures names { AddsSymbols bank.old bank.new }

    // A term that is too deep is refused as such, unless memory is wanting first; no other is.
    ensures deep { result ≡ Err BankFault.Deep → HasDeep (stack_of bank.old steps.now) }
    ensures shallow { OnOk result (HasDeep (stack_of bank.old steps.now) → ⊥) }
{
    let mut ids = Vec::new(bank.alloc());
    for step in steps {
        take_step(bank, &mut ids, *step)?;
    }
    bank.is_sound();
    Ok(ids)
}
