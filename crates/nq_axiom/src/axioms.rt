//! All rows: those of the ground symbols, of the definitions and of the shells.
ghost use Rattle.std.specs.Prelude.{◌≡◌, ◌++◌, All, IfOk, IfSome};
ghost use Rattle.std.specs.Option.{option_map};
ghost use Rattle.nq_logic.specs.Histories.{History, events_definitions, events_shells};
ghost use Rattle.nq_logic.specs.Ground.{ground_definitions, ground_shells};
ghost use Rattle.nq_bank.specs.Content.{IsNamed, text_at};
ghost use Rattle.nq_bank.specs.Shells.{shells_at, ShellStands};
ghost use Rattle.nq_proof.specs.Rows.{axiom_clause, definition_found, opening};
ghost use Rattle.nq_axiom.specs.Drafts.{draft_at, DraftStands};
ghost use Rattle.nq_axiom.specs.Openings.{opened, opening_in, DefinitionStands};
ghost use Rattle.nq_axiom.specs.Axioms.{axiom_among, row_without_part};

use crate::ground_rows::ground_steps;
use crate::openings::{Definition, opening_steps};
use crate::shell_rows::shell_steps;
use nq_bank::{Bank, Shell, Sym};
use nq_steps::Step;
use std::alloc::AllocError;

/// The axiom that opens a definition; it stands in row 1.
fn definition_steps(
    bank: &Bank,
    definition: Option<Definition>,
    row: u64,
) -> Result<Option<Vec<Step>>, AllocError>
    requires { IfSome definition (DefinitionStands bank.now) }
    ensures stand { IfOk result (DraftStands bank.now) }
    ensures makes { IfOk result (λ draft. draft_at bank.now draft ≡ opening_in row (option_map (opened bank.now) definition.entry)) }
{
    match definition {
        None => Ok(None),
        Some(d) => {
            if row != 1 {
                return Ok(None);
            }
            let steps = opening_steps(bank, d)?;
            Ok(Some(steps))
        }
    }
}

/// The axiom of a ground symbol, or else of a definition.
fn steps_without_part(
    bank: &Bank,
    definition: Option<Definition>,
    name: Sym,
    row: u64,
) -> Result<Option<Vec<Step>>, AllocError>
    requires definition { IfSome definition (DefinitionStands bank.now) }
    requires name { IsNamed bank.now name }
    ensures stand { IfOk result (DraftStands bank.now) }
    ensures makes { IfOk result (λ draft. draft_at bank.now draft ≡ row_without_part (text_at bank.now name) row (option_map (opened bank.now) definition.entry)) }
{
    match ground_steps(bank, name, row)? {
        Some(steps) => Ok(Some(steps)),
        None => definition_steps(bank, definition, row),
    }
}

/// The axiom of a ground symbol, a definition or a shell.
fn steps_among(
    bank: &Bank,
    definition: Option<Definition>,
    shells: &[Shell],
    name: Sym,
    row: u64,
    part: u64,
) -> Result<Option<Vec<Step>>, AllocError>
    requires definition { IfSome definition (DefinitionStands bank.now) }
    requires shells { All (ShellStands bank.now) shells.now }
    requires name { IsNamed bank.now name }
    ensures stand { IfOk result (DraftStands bank.now) }
    ensures makes { IfOk result (λ draft. draft_at bank.now draft ≡ axiom_among (shells_at bank.now shells.now) (option_map (opened bank.now) definition.entry) (text_at bank.now name) row part) }
{
    if part != 0 {
        return shell_steps(bank, shells, name, row, part);
    }
    match steps_without_part(bank, definition, name, row)? {
        Some(steps) => Ok(Some(steps)),
        None => shell_steps(bank, shells, name, row, part),
    }
}

/// The steps that make the literals of the axiom of this name, in this row, for a part or an earlier shell of this number,
/// counted from 1, or for neither where it is 0; None exactly where there is no such axiom. The definition is that of the
/// name, if there is one; the shells begin with the ground shells. It fails only for want of memory.
pub fn axiom_steps(
    bank: &Bank,
    definition: Option<Definition>,
    shells: &[Shell],
    name: Sym,
    row: u64,
    part: u64,
) -> Result<Option<Vec<Step>>, AllocError>
    requires definition { IfSome definition (DefinitionStands bank.now) }
    requires shells { All (ShellStands bank.now) shells.now }
    requires name { IsNamed bank.now name }
    ensures stand { IfOk result (DraftStands bank.now) }

    // where the definition and the shells are those of a history, so is the axiom
    ensures axiom { (h : History) → option_map (opened bank.now) definition.entry ≡ option_map opening (definition_found (text_at bank.now name) (ground_definitions ++ events_definitions h)) → shells_at bank.now shells.now ≡ ground_shells ++ events_shells h → IfOk result (λ draft. draft_at bank.now draft ≡ axiom_clause h (text_at bank.now name) row part) }
{
    steps_among(bank, definition, shells, name, row, part)
}
