//! Shells over the names of a bank.
ghost use Rattle.std.specs.Prelude.{◌≡◌, All, IfOk, Some, map};
ghost use Rattle.nq_bank.specs.Content.{Grows};
ghost use Rattle.nq_bank.specs.Shells.{part_at as part_of, parts_at, shell_at as shell_of, text_if, BaseStands, PartStands, ShellStands};
ghost use Rattle.nq_events.specs.Parts.{part_in};
ghost use Rattle.nq_event.specs.Reads.{name_at, read_each};
ghost use Rattle.nq_event.specs.Shapes.{no_part, part_at, shell_at};

use crate::names::names_of;
use crate::shells::{PartOutline, ShellOutline, part_or_none};
use nq_bank::{Bank, Part, Shell, Sym};
use nq_sexp::Sexp;
use std::alloc::AllocError;

/// A part with its names.
fn part_with(bank: &mut Bank, outline: &PartOutline<'_>) -> Result<Part, AllocError>
    ensures stands { IfOk result (PartStands bank.new) }
    ensures is { IfOk result (λ part. part_of bank.new part ≡ part_at outline.now) }
    ensures grows { Grows bank.old bank.new }
{
    let accessor = bank.name(outline.accessor)?;
    let recognizers = names_of(bank, outline.restriction.recognizers)?;
    let default = bank.name(outline.default)?;
    Ok(Part {
        accessor,
        one_of: outline.restriction.one_of,
        recognizers,
        default,
    })
}

/// The parts of forms, in their order.
fn parts_of(bank: &mut Bank, forms: &[Sexp<'_>]) -> Result<Vec<Part>, AllocError>
    ensures stand { IfOk result (λ parts. All (PartStands bank.new) parts.items) }
    ensures are { IfOk result (λ parts. parts_at bank.new parts.items ≡ read_each part_in no_part forms.now) }
    ensures grows { Grows bank.old bank.new }
{
    let mut parts = Vec::new(bank.alloc());
    for form in forms {
        let outline = part_or_none(form);
        let part = part_with(bank, &outline)?;
        parts.push(part)?;
    }
    Ok(parts)
}

/// The name of a base, if there is one.
fn base_of(bank: &mut Bank, base: Option<&[u8]>) -> Result<Option<Sym>, AllocError>
    ensures stands { IfOk result (BaseStands bank.new) }
    ensures is { IfOk result (λ s. text_if bank.new s ≡ name_at base.entry) }
    ensures grows { Grows bank.old bank.new }
{
    match base {
        Some(name) => {
            let s = bank.name(name)?;
            Ok(Some(s))
        }
        None => Ok(None),
    }
}

/// A shell with its names.
pub fn shell_with(bank: &mut Bank, outline: &ShellOutline<'_>) -> Result<Shell, AllocError>
    ensures stands { IfOk result (ShellStands bank.new) }
    ensures is { IfOk result (λ shell. shell_of bank.new shell ≡ shell_at outline.now) }
    ensures grows { Grows bank.old bank.new }
{
    let constructor = bank.name(outline.constructor)?;
    let base = base_of(bank, outline.base)?;
    let recognizer = bank.name(outline.recognizer)?;
    let parts = parts_of(bank, outline.parts)?;
    Ok(Shell {
        constructor,
        base,
        recognizer,
        parts,
    })
}
