//! Whether T, or F, is of a kind, with the line of that.
ghost use Rattle.std.specs.Prelude.{◌≡◌, ◌∷◌, [], All, IfOk, MatchOption, bytes_eq, false, not, true};
ghost use Rattle.nq_logic.specs.Names.{has_name};
ghost use Rattle.nq_logic.specs.ShellPrinciple.{recognizers, shells_of};
ghost use Rattle.nq_logic.specs.Words.{not_term};
ghost use Rattle.nq_bank.specs.Content.{IsIdOf, IsNamed, text_at};
ghost use Rattle.nq_bank.specs.Shells.{ShellStands, shells_at};
ghost use Rattle.nq_history.specs.Events.{events_at};
ghost use Rattle.nq_kernel.specs.Growing.{WorkStands, LineHolds};
ghost use Rattle.nq_lines.specs.Lines.{LineHasOnly};
ghost use Rattle.nq_replay.specs.Uncounted.{GrowsUncounted};
ghost use Rattle.nq_part_lines.specs.Decisions.{HasThisKind, IsDecided, is_of, told};
ghost use Rattle.nq_part_lines.specs.Defaults.{IsKind, truth_kind, truth_name, truth_term};
ghost use Rattle.nq_part_lines.specs.Known.{HasKnownRows};
ghost use Rattle.nq_part_lines.specs.Small.{IsSmallIn};

use crate::objects::call_on;
use crate::own::base_term;
use crate::rows::row_line;
use nq_bank::{Bank, Shell, Sym, TermId, ground, ground_name, is_same_name};
use nq_history::History;
use nq_kernel::Work;
use nq_shell_parts::{
    falsity_is_falsity, falsity_is_no_truth, truth_is_no_falsity, truth_is_truth,
};
use std::alloc::AllocError;

const TRUTH_IS_NONE: u64 = 11;

const FALSITY_IS_NONE: u64 = 12;

/// A term with the line that it holds, or that it does not.
#[derive(Clone, Copy, Debug, PartialEq, Eq)]
pub struct Decided {
    /// The term.
    pub term: TermId,
    /// Whether it holds.
    pub holds: bool,
    /// The line.
    pub line: u64,
}

/// The name of the constant T, or F.
fn truth_symbol(bank: &Bank, value: bool) -> Sym
    ensures named { IsNamed bank.now result }
    ensures reads { text_at bank.now result ≡ truth_name value }
{
    if value {
        ground_name(bank, ground::TRUE)
    } else {
        ground_name(bank, ground::FALSE)
    }
}

/// The name of the recognizer that holds of T, or F, alone.
fn kind_symbol(bank: &Bank, value: bool) -> Sym
    ensures named { IsNamed bank.now result }
    ensures reads { text_at bank.now result ≡ truth_kind value }
{
    if value {
        ground_name(bank, ground::TRUEP)
    } else {
        ground_name(bank, ground::FALSEP)
    }
}

/// Makes T, or F.
fn truth(work: &mut Work, history: &History, value: bool) -> Result<TermId, AllocError>
    requires stands { WorkStands history.now work.old }
    ensures truth { IfOk result (λ t. IsIdOf work.new.bank t (truth_term value)) }
    ensures small { IfOk result (λ t. IsSmallIn history.now work.new t) }
    ensures grows { GrowsUncounted history.now work.old work.new }
{
    let name = truth_symbol(&work.bank, value);
    base_term(work, history, name)
}

/// Makes that T, or F, is of a kind.
fn kind_term(work: &mut Work, history: &History, r: Sym, value: bool) -> Result<TermId, AllocError>
    requires stands { WorkStands history.now work.old }
    requires rows { HasKnownRows (events_at work.old.bank history.now) }
    requires named { IsNamed work.old.bank r }
    requires kind { IsKind (events_at work.old.bank history.now) (text_at work.old.bank r) }
    ensures term { IfOk result (λ t. IsIdOf work.new.bank t (is_of (text_at work.old.bank r) value)) }
    ensures small { IfOk result (λ t. IsSmallIn history.now work.new t) }
    ensures grows { GrowsUncounted history.now work.old work.new }
{
    let t = truth(work, history, value)?;
    call_on(work, history, r, t)
}

/// Adds the line that T, or F, is of its own kind.
fn own_line(work: &mut Work, history: &History, value: bool) -> Result<u64, AllocError>
    requires stands { WorkStands history.now work.old }
    ensures line { IfOk result (λ n. LineHolds work.new n (is_of (truth_kind value) value ∷ [])) }
    ensures grows { GrowsUncounted history.now work.old work.new }
{
    if value {
        truth_is_truth(work, history)
    } else {
        falsity_is_falsity(work, history)
    }
}

/// Adds the line that T, or F, is not of the other's kind.
fn opposite_line(work: &mut Work, history: &History, value: bool) -> Result<u64, AllocError>
    requires stands { WorkStands history.now work.old }
    ensures line { IfOk result (λ n. LineHolds work.new n (not_term (is_of (truth_kind (not value)) value) ∷ [])) }
    ensures grows { GrowsUncounted history.now work.old work.new }
{
    if value {
        truth_is_no_falsity(work, history)
    } else {
        falsity_is_no_truth(work, history)
    }
}

/// The constructor of the shell that has a recognizer, among shells.
fn shell_of_kind(bank: &Bank, shells: &[Shell], r: Sym) -> Option<Sym>
    requires shells { All (ShellStands bank.now) shells.now }
    requires name { IsNamed bank.now r }
    ensures { MatchOption result (has_name (text_at bank.now r) (recognizers (shells_at bank.now shells.now)) ≡ false) (HasThisKind bank.now (shells_at bank.now shells.now) (text_at bank.now r)) }
{
    match shells {
        [] => None,
        [first, rest @ ..] => {
            if is_same_name(bank, r, first.recognizer) {
                Some(first.constructor)
            } else {
                shell_of_kind(bank, rest, r)
            }
        }
    }
}

/// The constructor of the history's shell that has a recognizer.
fn constructor_of_kind(work: &Work, history: &History, r: Sym) -> Sym
    requires stands { WorkStands history.now work.now }
    requires named { IsNamed work.now.bank r }
    requires kind { has_name (text_at work.now.bank r) (recognizers (shells_of (events_at work.now.bank history.now))) ≡ true }
    ensures { HasThisKind work.now.bank (shells_of (events_at work.now.bank history.now)) (text_at work.now.bank r) result }
{
    match shell_of_kind(&work.bank, history.shells(), r) {
        Some(constructor) => constructor,
        None => unreachable!(),
    }
}

/// Adds the line that T, or F, is no object of the shell that has a recognizer.
fn shell_line(work: &mut Work, history: &History, r: Sym, value: bool) -> Result<u64, AllocError>
    requires stands { WorkStands history.now work.old }
    requires rows { HasKnownRows (events_at work.old.bank history.now) }
    requires named { IsNamed work.old.bank r }
    requires kind { has_name (text_at work.old.bank r) (recognizers (shells_of (events_at work.old.bank history.now))) ≡ true }
    ensures line { IfOk result (λ n. LineHolds work.new n (not_term (is_of (text_at work.old.bank r) value) ∷ [])) }
    ensures grows { GrowsUncounted history.now work.old work.new }
{
    let constructor = constructor_of_kind(work, history, r);
    if value {
        row_line(work, history, constructor, TRUTH_IS_NONE, 0)
    } else {
        row_line(work, history, constructor, FALSITY_IS_NONE, 0)
    }
}

/// Adds the line that T, or F, is not of a kind that is not its own.
fn other_line(work: &mut Work, history: &History, r: Sym, value: bool) -> Result<u64, AllocError>
    requires stands { WorkStands history.now work.old }
    requires rows { HasKnownRows (events_at work.old.bank history.now) }
    requires named { IsNamed work.old.bank r }
    requires kind { IsKind (events_at work.old.bank history.now) (text_at work.old.bank r) }
    requires other { bytes_eq (truth_kind value) (text_at work.old.bank r) ≡ false }
    ensures line { IfOk result (λ n. LineHolds work.new n (not_term (is_of (text_at work.old.bank r) value) ∷ [])) }
    ensures grows { GrowsUncounted history.now work.old work.new }
{
    let opposite = kind_symbol(&work.bank, !value);
    if is_same_name(&work.bank, opposite, r) {
        opposite_line(work, history, value)
    } else {
        shell_line(work, history, r, value)
    }
}

/// Adds the line that T, or F, is of a kind, or that it is not.
fn kind_line(work: &mut Work, history: &History, r: Sym, value: bool) -> Result<u64, AllocError>
    requires stands { WorkStands history.now work.old }
    requires rows { HasKnownRows (events_at work.old.bank history.now) }
    requires named { IsNamed work.old.bank r }
    requires kind { IsKind (events_at work.old.bank history.now) (text_at work.old.bank r) }
    ensures line { IfOk result (λ n. LineHasOnly work.new n (told (bytes_eq (truth_kind value) (text_at work.old.bank r)) (is_of (text_at work.old.bank r) value) ∷ [])) }
    ensures grows { GrowsUncounted history.now work.old work.new }
{
    let own = kind_symbol(&work.bank, value);
    if is_same_name(&work.bank, own, r) {
        own_line(work, history, value)
    } else {
        other_line(work, history, r, value)
    }
}

/// Decides whether T, or F, is of a kind.
pub fn kind(work: &mut Work, history: &History, r: Sym, value: bool) -> Result<Decided, AllocError>
    requires stands { WorkStands history.now work.old }
    requires rows { HasKnownRows (events_at work.old.bank history.now) }
    requires named { IsNamed work.old.bank r }
    requires kind { IsKind (events_at work.old.bank history.now) (text_at work.old.bank r) }
    ensures decided { IfOk result (IsDecided history.now work.new (is_of (text_at work.old.bank r) value) (bytes_eq (truth_kind value) (text_at work.old.bank r))) }
    ensures grows { GrowsUncounted history.now work.old work.new }
{
    let own = kind_symbol(&work.bank, value);
    let holds = is_same_name(&work.bank, own, r);
    let term = kind_term(work, history, r, value)?;
    let line = kind_line(work, history, r, value)?;
    Ok(Decided { term, holds, line })
}
