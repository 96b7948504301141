//! Pairs of the variables of a shell's parts and terms.
ghost use Rattle.std.specs.Prelude.{◌≡◌, ◌++◌, ◌∷◌, ◌≤◌, [], ℕ, All, IfOk, OnOk, IsTrue, Err};
ghost use Rattle.nq_logic.specs.Shells.{digits_of};
ghost use Rattle.nq_logtext.specs.Symbols.{is_symbol};
ghost use Rattle.nq_bank.specs.Content.{NamesText, terms_at};
ghost use Rattle.nq_clause.specs.Substitution.{substitution_at};
ghost use Rattle.nq_kernel.specs.Growing.{WorkGrows, WorkStands};
ghost use Rattle.nq_lines.specs.Lines.{IsTermIn};
ghost use Rattle.nq_lines.specs.Instances.{ArePairsIn};
ghost use Rattle.nq_types.specs.Parts.{part_bindings, part_name as name_of_part};

use nq_bank::{Sym, TermId};
use nq_clause::Pair;
use nq_history::History;
use nq_kernel::{Stop, Work};
use nq_lines::symbol;
use std::alloc::{AllocError, Global};

/// Writes the decimal digits of a number.
fn put_digits(text: &mut Vec<u8>, n: u128) -> Result<(), AllocError>
    ensures { OnOk result ((places : ℕ) → 1 ≤ places → n ≤ places → text.new.items ≡ text.old.items ++ digits_of places n) }
{
    if n < 10 {
        text.push(48 + n as u8)?;
        return Ok(());
    }
    put_digits(text, n / 10)?;
    text.push(48 + (n % 10) as u8)?;
    Ok(())
}

/// The text of the variable of a part.
fn part_text(alloc: Global, place: u64) -> Result<Vec<u8>, AllocError>
    ensures text { IfOk result (λ text. text.items ≡ name_of_part place) }
    ensures symbol { IfOk result (λ text. IsTrue (is_symbol text.items)) }
{
    let mut text = Vec::new(alloc);
    text.push(b'X')?;
    put_digits(&mut text, u128::from(place) + 1)?;
    Ok(text)
}

/// The variable of a part.
fn part_name(work: &mut Work, history: &History, place: u64) -> Result<Sym, Stop>
    requires stands { WorkStands history.now work.old }
    ensures name { IfOk result (λ s. NamesText work.new.bank s (name_of_part place)) }
    ensures grows { WorkGrows history.now work.old work.new }
    ensures memory { result ≡ Err Stop.OutOfSteps → ⊥ }
{
    match part_text(work.bank.alloc(), place) {
        Ok(text) => symbol(work, history, text.as_slice()),
        Err(_) => Err(Stop::Memory),
    }
}

/// One more pair.
fn add_pair(pairs: &mut Vec<Pair>, pair: Pair) -> Result<(), Stop>
    ensures ok { OnOk result (pairs.new.items ≡ pairs.old.items ++ pair ∷ []) }
    ensures memory { result ≡ Err Stop.OutOfSteps → ⊥ }
{
    match pairs.push(pair) {
        Ok(()) => Ok(()),
        Err(_) => Err(Stop::Memory),
    }
}

/// The pairs of the variables of parts and terms.
pub fn part_pairs(
    work: &mut Work,
    history: &History,
    arguments: &[TermId],
) -> Result<Vec<Pair>, Stop>
    requires stands { WorkStands history.now work.old }
    requires arguments { All (IsTermIn history.now work.old) arguments.now }
    ensures pairs { IfOk result (λ ps. substitution_at work.new.bank ps.items ≡ part_bindings 0 (terms_at work.old.bank arguments.now)) }
    ensures over { IfOk result (λ ps. ArePairsIn history.now work.new ps.items) }
    ensures grows { WorkGrows history.now work.old work.new }
    ensures memory { result ≡ Err Stop.OutOfSteps → ⊥ }
{
    let mut pairs = Vec::new(work.bank.alloc());
    let mut place = 0u64;
    for t in arguments {
        let variable = part_name(work, history, place)?;
        add_pair(&mut pairs, Pair { variable, term: *t })?;
        place += 1;
    }
    Ok(pairs)
}
