//! Numbered variables that are new to literals.
ghost use Rattle.std.specs.Prelude.{◌≡◌, ◌≤◌, ◌<◌, ◌^◌, ◌++◌, ℕ, suc, true, All, IfOk, OnOk, MatchOption, Err};
ghost use Rattle.nq_logic.specs.Shells.{digits_of};
ghost use Rattle.nq_bank.specs.Content.{NamesText, terms_at};
ghost use Rattle.nq_kernel.specs.Growing.{WorkStands, WorkGrows};
ghost use Rattle.nq_lines.specs.Lines.{IsTermIn};
ghost use Rattle.nq_goals.specs.NewVariables.{numbered};
ghost use Rattle.nq_moves.specs.Naming.{occurs_in_one};
ghost use Rattle.nq_moves.specs.Numbering.{IsNewAt, IsNext};
ghost use Rattle.nq_moves.specs.UsedNames.{AreNamesOf};

use crate::used_names::is_used;
use nq_bank::{Sym, TermId};
use nq_history::History;
use nq_kernel::{Stop, Work};
use nq_lines::symbol;
use std::alloc::{AllocError, Global};
use std::collections::HashMap;

/// Writes the decimal digits of a number.
fn put_digits(text: &mut Vec<u8>, n: u64) -> Result<(), AllocError>
    ensures { OnOk result ((places : ℕ) → 1 ≤ places → n ≤ places → text.new.items ≡ text.old.items ++ digits_of places n) }
{
    if n < 10 {
        text.push(48 + n as u8)?;
        return Ok(());
    }
    put_digits(text, n / 10)?;
    text.push(48 + (n % 10) as u8)?;
    Ok(())
}

/// The text of the variable of a number.
fn variable_text(alloc: Global, number: u64) -> Result<Vec<u8>, AllocError>
    requires { 1 ≤ number }
    ensures { IfOk result (λ text. text.items ≡ numbered number) }
{
    let mut text = Vec::new(alloc);
    text.push(b'V')?;
    put_digits(&mut text, number)?;
    Ok(text)
}

/// The name of the variable of a number.
fn numbered_name(work: &mut Work, history: &History, number: u64) -> Result<Sym, Stop>
    requires stands { WorkStands history.now work.old }
    requires number { 1 ≤ number }
    ensures name { IfOk result (λ s. NamesText work.new.bank s (numbered number)) }
    ensures grows { WorkGrows history.now work.old work.new }
    ensures memory { result ≡ Err Stop.OutOfSteps → ⊥ }
{
    match variable_text(work.bank.alloc(), number) {
        Ok(text) => symbol(work, history, text.as_slice()),
        Err(_) => Err(Stop::Memory),
    }
}

/// The name of a variable, and its number.
#[derive(Clone, Copy, Debug, PartialEq, Eq)]
pub struct Numbered {
    /// The name.
    pub name: Sym,
    /// The number.
    pub number: u64,
}

/// The name of the variable of a number. It is none where it stands in one of the literals, whose variables have these names.
fn new_name(
    work: &mut Work,
    history: &History,
    literals: &[TermId],
    names: &HashMap<u64, bool>,
    number: u64,
) -> Result<Option<Sym>, Stop>
    requires stands { WorkStands history.now work.old }
    requires literals { All (IsTermIn history.now work.old) literals.now }
    requires names { AreNamesOf work.old.bank names.now (terms_at work.old.bank literals.now) }
    requires number { 1 ≤ number }
    ensures name { IfOk result (λ found. MatchOption found (occurs_in_one (numbered number) (terms_at work.new.bank literals.now) ≡ true) (IsNewAt work.new literals.now number)) }
    ensures grows { WorkGrows history.now work.old work.new }
    ensures memory { result ≡ Err Stop.OutOfSteps → ⊥ }
{
    let name = numbered_name(work, history, number)?;
    if is_used(&work.bank, names, name) {
        Ok(None)
    } else {
        Ok(Some(name))
    }
}

/// The first number from one on whose variable stands in none of the literals, whose variables have these names. No memory holds names
/// for all numbers.
pub fn next_name(
    work: &mut Work,
    history: &History,
    literals: &[TermId],
    names: &HashMap<u64, bool>,
    first: u64,
) -> Result<Numbered, Stop>
    requires stands { WorkStands history.now work.old }
    requires literals { All (IsTermIn history.now work.old) literals.now }
    requires names { AreNamesOf work.old.bank names.now (terms_at work.old.bank literals.now) }
    requires first { 1 ≤ first }
    ensures name { IfOk result (IsNext work.new literals.now first) }
    ensures fits { IfOk result (λ n. suc n.number < 2 ^ 64) }
    ensures grows { WorkGrows history.now work.old work.new }
    ensures memory { result ≡ Err Stop.OutOfSteps → ⊥ }
{
    for number in first..u64::MAX {
        match new_name(work, history, literals, names, number)? {
            Some(name) => return Ok(Numbered { name, number }),
            None => {}
        }
    }
    Err(Stop::Memory)
}
