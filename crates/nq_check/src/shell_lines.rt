//! The lines of a shell: its parts, and the shell.
ghost use Rattle.std.specs.Prelude.{◌≡◌, ◌&&◌, ◌++◌, ℕ, List, [], ◌∷◌, All, IfOk, is_none, is_some, length, nat_le};
ghost use Rattle.std.specs.List.{flat_map};
ghost use Rattle.nq_logtext.specs.Fields.{mode, name};
ghost use Rattle.nq_logtext.specs.Views.{one_name};
ghost use Rattle.nq_logic.specs.Names.{is_in_use, symbol_names};
ghost use Rattle.nq_logic.specs.Histories.{accessor_symbols, base_symbols};
ghost use Rattle.nq_logic.specs.ShellPrinciple.{first_used, shell_names, shell_refusal, shells_of};
ghost use Rattle.nq_bank.specs.Content.{Grows, IsNamed};
ghost use Rattle.nq_bank.specs.Shells.{restriction_of as restriction_at, part_at, parts_at, shell_at, text_if, texts_at, BaseStands, PartStands, ShellStands};
ghost use Rattle.nq_log.specs.States.{is_empty};
ghost use Rattle.nq_log.specs.Logs.{claimed, continued};
ghost use Rattle.nq_log.specs.ClosingLines.{added_shell, are_short, base_of, part_line, restriction_of, shell_claim};
ghost use Rattle.nq_check.specs.Contexts.{state_of, IsWhole};
ghost use Rattle.nq_check.specs.Judging.{Leads};
ghost use Rattle.nq_check.specs.Shells.{told_part, told_shell};

use crate::context::Context;
use crate::judged::Judged;
use crate::texts::named_line;
use nq_bank::{Bank, Part, Shell, Sym};
use nq_history::{Entry, EntryKind};
use nq_logtext::{Mode, Text};
use nq_shell::admit_shell;
use std::alloc::AllocError;
use std::mem;

/// The most parts of a shell.
const MOST_PARTS: usize = 20;

/// The most recognizers that a part names.
const MOST_RECOGNIZERS: usize = 100;

/// The symbols of names.
fn symbols_of(bank: &mut Bank, names: &[Text]) -> Result<Vec<Sym>, AllocError>
    ensures stand { IfOk result (λ found. All (IsNamed bank.new) found.items) }
    ensures texts { IfOk result (λ found. texts_at bank.new found.items ≡ names.now) }
    ensures grows { Grows bank.old bank.new }
{
    let mut found = Vec::new(bank.alloc());
    for name in names {
        let s = bank.name(name.as_slice())?;
        found.push(s)?;
    }
    Ok(found)
}

/// Must one of a part's recognizers hold?
fn is_one_of(kind: Mode) -> bool
    ensures { (names : List (List ℕ)) → restriction_at result names ≡ restriction_of kind names }
{
    match kind {
        Mode::OneOf => true,
        Mode::NoneOf => false,
    }
}

/// The part of these names.
fn part_of(
    bank: &mut Bank,
    accessor: &[u8],
    kind: Mode,
    default: &[u8],
    recognizers: &[Text],
) -> Result<Part, AllocError>
    ensures stands { IfOk result (λ part. PartStands bank.new part) }
    ensures part { IfOk result (λ part. part_at bank.new part ≡ told_part accessor.now kind default.now recognizers.now) }
    ensures grows { Grows bank.old bank.new }
{
    let accessor = bank.name(accessor)?;
    let default = bank.name(default)?;
    let recognizers = symbols_of(bank, recognizers)?;
    Ok(Part {
        accessor,
        one_of: is_one_of(kind),
        recognizers,
        default,
    })
}

/// The base of a shell; NIL stands for none.
fn base_of(bank: &mut Bank, base: &[u8]) -> Result<Option<Sym>, AllocError>
    ensures stands { IfOk result (λ b. BaseStands bank.new b) }
    ensures base { IfOk result (λ b. text_if bank.new b ≡ base_of base.now) }
    ensures grows { Grows bank.old bank.new }
{
    if base == b"NIL".as_slice() {
        return Ok(None);
    }
    Ok(Some(bank.name(base)?))
}

/// The shell of these names and parts.
fn shell_of(
    bank: &mut Bank,
    constructor: &[u8],
    base: &[u8],
    recognizer: &[u8],
    parts: Vec<Part>,
) -> Result<Shell, AllocError>
    requires parts { All (PartStands bank.old) parts.items }
    ensures stands { IfOk result (λ shell. ShellStands bank.new shell) }
    ensures shell { IfOk result (λ shell. shell_at bank.new shell ≡ told_shell constructor.now base.now recognizer.now (parts_at bank.old parts.items)) }
    ensures grows { Grows bank.old bank.new }
{
    let constructor = bank.name(constructor)?;
    let recognizer = bank.name(recognizer)?;
    let base = base_of(bank, base)?;
    Ok(Shell {
        constructor,
        base,
        recognizer,
        parts,
    })
}

impl Context {
    /// `PART`: it waits for its shell, which judges it.
    pub fn part_line(
        &mut self,
        accessor: &[u8],
        kind: Mode,
        default: &[u8],
        recognizers: &[Text],
    ) -> Result<Judged, AllocError>
        requires { IsWhole self.old }
        ensures { IfOk result (λ judged. Leads (state_of self.old) (continued (part_line (state_of self.old) (name accessor.now ∷ mode kind ∷ name default.now ∷ flat_map one_name recognizers.now))) judged self.new) }
    {
        let part = part_of(&mut self.bank, accessor, kind, default, recognizers)?;
        self.parts.push(part)?;
        Ok(Judged::Continues)
    }

    /// Does no part that waits name too many recognizers?
    fn are_short(&self) -> bool
        ensures { result ≡ are_short (state_of self.now).block.parts }
    {
        for part in &self.parts {
            if part.recognizers.len() > MOST_RECOGNIZERS {
                return false;
            }
        }
        true
    }

    /// May the block end in a shell, as far as its names do not tell?
    fn may_end_in_shell(&self) -> bool
        ensures { result ≡ (is_none (state_of self.now).block.introduced && is_empty (state_of self.now).block.cases && nat_le (length (state_of self.now).block.parts) 20 && are_short (state_of self.now).block.parts) }
    {
        self.introduced.is_none()
            && self.cases.is_empty()
            && self.parts.len() <= MOST_PARTS
            && self.are_short()
    }

    /// Is an accessor of these parts in use?
    fn uses_accessor(&self, parts: &[Part]) -> bool
        requires whole { IsWhole self.now }
        requires parts { All (PartStands self.now.bank) parts.now }
        ensures { result ≡ is_some (first_used (λ n. is_in_use n (state_of self.now).history) (symbol_names (accessor_symbols (parts_at self.now.bank parts.now)))) }
    {
        for part in parts {
            if self.history.in_use(&self.bank, part.accessor) {
                return true;
            }
        }
        false
    }

    /// Is the base of a shell in use?
    fn uses_base(&self, base: Option<Sym>) -> bool
        requires whole { IsWhole self.now }
        requires base { BaseStands self.now.bank base }
        ensures { result ≡ is_some (first_used (λ n. is_in_use n (state_of self.now).history) (symbol_names (base_symbols (text_if self.now.bank base)))) }
    {
        match base {
            Some(b) => self.history.in_use(&self.bank, b),
            None => false,
        }
    }

    /// Is a name of a shell in use?
    fn uses_name_of(&self, shell: &Shell) -> bool
        requires whole { IsWhole self.now }
        requires shell { ShellStands self.now.bank shell.now }
        ensures { result ≡ is_some (first_used (λ n. is_in_use n (state_of self.now).history) (shell_names (shell_at self.now.bank shell.now))) }
    {
        if self.history.in_use(&self.bank, shell.constructor) {
            return true;
        }
        if self.uses_base(shell.base) {
            return true;
        }
        if self.history.in_use(&self.bank, shell.recognizer) {
            return true;
        }
        self.uses_accessor(shell.parts.as_slice())
    }

    /// Does the Shell Principle accept a shell, and is there room for it?
    fn accepts(&self, shell: &Shell) -> bool
        requires whole { IsWhole self.now }
        requires shell { ShellStands self.now.bank shell.now }
        ensures { result ≡ is_none (shell_refusal (λ n. is_in_use n (state_of self.now).history) (shells_of (state_of self.now).history) (shell_at self.now.bank shell.now)) }
    {
        if self.uses_name_of(shell) {
            return false;
        }
        admit_shell(&self.bank, self.history.shells(), &[], shell).is_ok()
    }

    /// Takes the parts that wait, as those of a shell.
    fn take_shell(
        &mut self,
        constructor: &[u8],
        base: &[u8],
        recognizer: &[u8],
    ) -> Result<Shell, AllocError>
        requires { IsWhole self.old }
        ensures whole { IsWhole self.new }
        ensures stands { IfOk result (λ shell. ShellStands self.new.bank shell) }
        ensures shell { IfOk result (λ shell. shell_at self.new.bank shell ≡ added_shell (state_of self.old).block constructor.now base.now recognizer.now) }
        ensures history { self.new.history ≡ self.old.history }
        ensures grows { Grows self.old.bank self.new.bank }
    {
        let parts = mem::replace(&mut self.parts, Vec::new(self.bank.alloc()));
        shell_of(&mut self.bank, constructor, base, recognizer, parts)
    }

    /// `SHELL`
    pub fn shell_line(
        &mut self,
        constructor: &[u8],
        base: &[u8],
        recognizer: &[u8],
    ) -> Result<Judged, AllocError>
        requires { IsWhole self.old }
        ensures { IfOk result (λ judged. Leads (state_of self.old) (claimed (shell_claim (state_of self.old) (name constructor.now ∷ name base.now ∷ name recognizer.now ∷ []))) judged self.new) }
    {
        if !self.may_end_in_shell() {
            return Ok(Judged::NotAllowed);
        }
        let text = named_line(self.bank.alloc(), b"SHELL ", constructor)?;
        let mark = self.bank.mark();
        let shell = self.take_shell(constructor, base, recognizer)?;
        if !self.accepts(&shell) {
            return Ok(Judged::NotAllowed);
        }
        self.add_entry(
            Entry {
                name: shell.constructor,
                kind: EntryKind::Shell(shell),
                mark,
            },
            text,
        )
    }
}
