//! The entries of the ground history, made of its table.
ghost use Rattle.std.specs.Prelude.{◌≡◌, ◌<◌, IfOk, IfSome, All, map, true};
ghost use Rattle.nq_logic.specs.Ground.{ground_history};
ghost use Rattle.nq_logic.specs.Histories.{AddShell, Declaration};
ghost use Rattle.nq_bank.specs.GroundNames.{ground_count};
ghost use Rattle.nq_bank.specs.Soundness.{ground_text};
ghost use Rattle.std.specs.Option.{option_map};
ghost use Rattle.nq_bank.specs.Content.{Grows, IsNamed, Stands, term_at};
ghost use Rattle.nq_bank.specs.Shells.{part_at, parts_at, shell_at, texts_at, text_if, BaseStands, PartStands, ShellStands};
ghost use Rattle.nq_history.specs.Events.{event_at, all_events_at, EntryStands};
ghost use Rattle.nq_bank.specs.Marks.{IsMarkOf};
ghost use Rattle.nq_history.specs.Marking.{AreMarked};
ghost use Rattle.nq_history.specs.GroundTable.{any_part, are_rows, is_base, is_measure, is_part_row, letter, made_of, makes_one, measure_of, number_part, row_definition, row_event, row_part, row_shell, IsRow};

use crate::entry::{Entry, EntryKind};
use crate::ground_table::{EVENTS, PartRow, Row};
use nq_bank::{Bank, BankFault, Part, Shell, Sym, TermId, ground, ground_name};
use nq_steps::{Step, take_steps};
use std::alloc::AllocError;

/// A part that is a number.
fn number_part(bank: &Bank, accessor: Sym) -> Result<Part, AllocError>
    requires accessor { accessor.0 < ground_count }
    ensures stands { IfOk result (λ part. PartStands bank.now part) }
    ensures part { IfOk result (λ part. part_at bank.now part ≡ number_part accessor) }
{
    let recognizers = vec![in bank.alloc(); ground_name(bank, ground::NUMBERP)]?;
    Ok(Part {
        accessor: ground_name(bank, accessor),
        one_of: true,
        recognizers,
        default: ground_name(bank, ground::ZERO),
    })
}

/// A part that is any object.
fn any_part(bank: &Bank, accessor: Sym) -> Part
    requires accessor { accessor.0 < ground_count }
    ensures stands { PartStands bank.now result }
    ensures part { part_at bank.now result ≡ any_part accessor }
{
    Part {
        accessor: ground_name(bank, accessor),
        one_of: false,
        recognizers: Vec::new(bank.alloc()),
        default: ground_name(bank, ground::ZERO),
    }
}

/// The part of a row.
fn part_of(bank: &Bank, row: &PartRow) -> Result<Part, AllocError>
    requires row { is_part_row row.now ≡ true }
    ensures stands { IfOk result (λ part. PartStands bank.now part) }
    ensures part { IfOk result (λ part. part_at bank.now part ≡ row_part row.now) }
{
    match row {
        PartRow::Number(accessor) => number_part(bank, *accessor),
        PartRow::Any(accessor) => Ok(any_part(bank, *accessor)),
    }
}

/// The parts of rows.
fn parts_of(bank: &Bank, rows: &[PartRow]) -> Result<Vec<Part>, AllocError>
    requires rows { All (λ row. is_part_row row ≡ true) rows.now }
    ensures stand { IfOk result (λ parts. All (PartStands bank.now) parts.items) }
    ensures parts { IfOk result (λ parts. parts_at bank.now parts.items ≡ map row_part rows.now) }
{
    let mut parts = Vec::new(bank.alloc());
    for row in rows {
        let part = part_of(bank, row)?;
        parts.push(part)?;
    }
    Ok(parts)
}

/// The base of a row.
fn base_of(bank: &Bank, base: Option<Sym>) -> Option<Sym>
    requires base { is_base base ≡ true }
    ensures stands { BaseStands bank.now result }
    ensures base { text_if bank.now result ≡ option_map ground_text base }
{
    match base {
        Some(s) => Some(ground_name(bank, s)),
        None => None,
    }
}

/// The shell of a row.
fn shell_of(
    bank: &Bank,
    constructor: Sym,
    base: Option<Sym>,
    recognizer: Sym,
    parts: &[PartRow],
) -> Result<Shell, AllocError>
    requires constructor { constructor.0 < ground_count }
    requires base { is_base base ≡ true }
    requires recognizer { recognizer.0 < ground_count }
    requires parts { All (λ row. is_part_row row ≡ true) parts.now }
    ensures stands { IfOk result (λ shell. ShellStands bank.now shell) }
    ensures shell { IfOk result (λ shell. shell_at bank.now shell ≡ row_shell constructor base recognizer parts.now) }
{
    let parts = parts_of(bank, parts)?;
    Ok(Shell {
        constructor: ground_name(bank, constructor),
        base: base_of(bank, base),
        recognizer: ground_name(bank, recognizer),
        parts,
    })
}

/// The variables of these letters.
fn formals_of(bank: &mut Bank, letters: &[u8]) -> Result<Vec<Sym>, AllocError>
    ensures stand { IfOk result (λ formals. All (IsNamed bank.new) formals.items) }
    ensures formals { IfOk result (λ formals. texts_at bank.new formals.items ≡ map letter letters.now) }
    ensures grows { Grows bank.old bank.new }
{
    let mut formals = Vec::new(bank.alloc());
    for letter in letters {
        let s = bank.name(&[*letter])?;
        formals.push(s)?;
    }
    Ok(formals)
}

/// The term that the steps make.
fn term_of_steps(bank: &mut Bank, steps: &[Step]) -> Result<TermId, AllocError>
    requires steps { makes_one steps.now ≡ true }
    ensures stands { IfOk result (λ t. Stands bank.new t) }
    ensures term { IfOk result (λ t. term_at bank.new t ≡ made_of steps.now) }
    ensures grows { Grows bank.old bank.new }
{
    bank.is_sound();
    match take_steps(bank, steps) {
        Ok(ids) => Ok(ids[0]),
        Err(BankFault::Memory) => Err(AllocError),
        Err(BankFault::Deep) => unreachable!(),
    }
}

/// The measure that the steps make; no steps make none.
fn measure_of_steps(bank: &mut Bank, steps: &[Step]) -> Result<Option<TermId>, AllocError>
    requires steps { is_measure steps.now ≡ true }
    ensures stands { IfOk result (λ measure. IfSome measure (λ t. Stands bank.new t)) }
    ensures measure { IfOk result (λ measure. option_map (term_at bank.new) measure ≡ measure_of steps.now) }
    ensures grows { Grows bank.old bank.new }
{
    if steps.is_empty() {
        return Ok(None);
    }
    let t = term_of_steps(bank, steps)?;
    Ok(Some(t))
}

/// The entry of a function without a definition.
fn declared(bank: &Bank, f: Sym, arity: u32) -> Entry
    requires function { f.0 < ground_count }
    ensures stands { EntryStands bank.now result }
    ensures event { event_at bank.now result ≡ Declaration (ground_text f) arity }
    ensures mark { IsMarkOf bank.now result.mark }
{
    Entry {
        name: ground_name(bank, f),
        kind: EntryKind::Dcl(arity),
        mark: bank.mark(),
    }
}

/// The entry of a shell.
fn added(bank: &Bank, shell: Shell) -> Entry
    requires shell { ShellStands bank.now shell }
    ensures stands { EntryStands bank.now result }
    ensures event { event_at bank.now result ≡ AddShell (shell_at bank.now shell) }
    ensures mark { IsMarkOf bank.now result.mark }
{
    Entry {
        name: shell.constructor,
        kind: EntryKind::Shell(shell),
        mark: bank.mark(),
    }
}

/// The entry of a definition.
fn defined(
    bank: &mut Bank,
    f: Sym,
    letters: &[u8],
    body: &[Step],
    measure: &[Step],
) -> Result<Entry, AllocError>
    requires function { f.0 < ground_count }
    requires body { makes_one body.now ≡ true }
    requires measure { is_measure measure.now ≡ true }
    ensures stands { IfOk result (λ e. EntryStands bank.new e) }
    ensures event { IfOk result (λ e. event_at bank.new e ≡ row_definition f letters.now body.now measure.now) }
    ensures mark { IfOk result (λ e. IsMarkOf bank.old e.mark) }
    ensures grows { Grows bank.old bank.new }
{
    let mark = bank.mark();
    let formals = formals_of(bank, letters)?;
    let t = term_of_steps(bank, body)?;
    let size = measure_of_steps(bank, measure)?;
    Ok(Entry {
        name: ground_name(bank, f),
        kind: EntryKind::Defn(formals, t, size),
        mark,
    })
}

/// The entry of a row.
fn entry_of(bank: &mut Bank, row: &Row) -> Result<Entry, AllocError>
    requires row { IsRow row.now }
    ensures stands { IfOk result (λ e. EntryStands bank.new e) }
    ensures event { IfOk result (λ e. event_at bank.new e ≡ row_event row.now) }
    ensures mark { IfOk result (λ e. IsMarkOf bank.old e.mark) }
    ensures grows { Grows bank.old bank.new }
{
    match row {
        Row::Declared(f, arity) => Ok(declared(bank, *f, *arity)),
        Row::Shell(constructor, base, recognizer, parts) => {
            let shell = shell_of(bank, *constructor, *base, *recognizer, parts)?;
            Ok(added(bank, shell))
        }
        Row::Defined(f, letters, body, measure) => defined(bank, *f, letters, body, measure),
    }
}

/// The entries of rows.
fn entries_of(bank: &mut Bank, rows: &[Row]) -> Result<Vec<Entry>, AllocError>
    requires rows { are_rows rows.now ≡ true }
    ensures stand { IfOk result (λ entries. All (EntryStands bank.new) entries.items) }
    ensures events { IfOk result (λ entries. all_events_at bank.new entries.items ≡ map row_event rows.now) }
    ensures marked { IfOk result (λ entries. AreMarked bank.new entries.items) }
    ensures grows { Grows bank.old bank.new }
{
    let mut entries = Vec::new(bank.alloc());
    for row in rows {
        let entry = entry_of(bank, row)?;
        entries.push(entry)?;
    }
    Ok(entries)
}

/// The entries of the ground history.
pub fn ground_entries(bank: &mut Bank) -> Result<Vec<Entry>, AllocError>
    ensures stand { IfOk result (λ entries. All (EntryStands bank.new) entries.items) }
    ensures events { IfOk result (λ entries. all_events_at bank.new entries.items ≡ ground_history) }
    ensures marked { IfOk result (λ entries. AreMarked bank.new entries.items) }
    ensures grows { Grows bank.old bank.new }
{
    entries_of(bank, &EVENTS)
}
