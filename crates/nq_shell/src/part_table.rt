//! The rows of the table of shell axioms that have a part's or an earlier shell's number, counted from 1: each function puts
//! the literals of its row where there is such a part or shell, and answers whether there is.
ghost use Rattle.std.specs.Prelude.{◌≡◌, [], All, IfOk, OnOk};
ghost use Rattle.nq_bank.specs.Shells.{part_at, shell_at, shells_at, PartStands, ShellStands};
ghost use Rattle.nq_proof.specs.Rows.{shell_clause};
ghost use Rattle.nq_proof.specs.Rows.{PartOfMade, WrongPartOfMade, PartOfOther, PartOfBase, WrongPart, KindsDiffer};
ghost use Rattle.nq_shell.specs.Rows.{base_part_row, drafted};
ghost use Rattle.nq_steps.specs.Steps.{stack_of, StepStands};

use crate::rows;
use nq_bank::{Bank, Part, Shell};
use nq_steps::Step;
use std::alloc::AllocError;

/// The row that a part of what the constructor made is the argument, where it meets the restriction.
pub fn part_of_made(
    bank: &Bank,
    steps: &mut Vec<Step>,
    earlier: &[Shell],
    shell: &Shell,
    i: u64,
) -> Result<bool, AllocError>
    requires steps { steps.old.items ≡ [] }
    requires earlier { All (ShellStands bank.now) earlier.now }
    requires shell { ShellStands bank.now shell.now }
    ensures stand { OnOk result (All (StepStands bank.now) steps.new.items) }
    ensures makes { IfOk result (λ there. drafted there (stack_of bank.now steps.new.items) ≡ shell_clause (shells_at bank.now earlier.now) (shell_at bank.now shell.now) i PartOfMade) }
{
    if i == 0 {
        return Ok(false);
    }
    let place = (i - 1) as usize;
    match shell.parts.get(place) {
        None => Ok(false),
        Some(part) => {
            rows::part_of_made(bank, steps, shell, part, place)?;
            Ok(true)
        }
    }
}

/// The row that it is the default, where the argument does not meet the restriction.
pub fn wrong_part_of_made(
    bank: &Bank,
    steps: &mut Vec<Step>,
    earlier: &[Shell],
    shell: &Shell,
    i: u64,
) -> Result<bool, AllocError>
    requires steps { steps.old.items ≡ [] }
    requires earlier { All (ShellStands bank.now) earlier.now }
    requires shell { ShellStands bank.now shell.now }
    ensures stand { OnOk result (All (StepStands bank.now) steps.new.items) }
    ensures makes { IfOk result (λ there. drafted there (stack_of bank.now steps.new.items) ≡ shell_clause (shells_at bank.now earlier.now) (shell_at bank.now shell.now) i WrongPartOfMade) }
{
    if i == 0 {
        return Ok(false);
    }
    let place = (i - 1) as usize;
    match shell.parts.get(place) {
        None => Ok(false),
        Some(part) => {
            rows::wrong_part_of_made(bank, steps, shell, part, place)?;
            Ok(true)
        }
    }
}

/// The row that the part of an object of another kind is the default.
pub fn part_of_other(
    bank: &Bank,
    steps: &mut Vec<Step>,
    earlier: &[Shell],
    shell: &Shell,
    i: u64,
) -> Result<bool, AllocError>
    requires steps { steps.old.items ≡ [] }
    requires earlier { All (ShellStands bank.now) earlier.now }
    requires shell { ShellStands bank.now shell.now }
    ensures stand { OnOk result (All (StepStands bank.now) steps.new.items) }
    ensures makes { IfOk result (λ there. drafted there (stack_of bank.now steps.new.items) ≡ shell_clause (shells_at bank.now earlier.now) (shell_at bank.now shell.now) i PartOfOther) }
{
    if i == 0 {
        return Ok(false);
    }
    let place = (i - 1) as usize;
    match shell.parts.get(place) {
        None => Ok(false),
        Some(part) => {
            rows::part_of_other(bank, steps, shell, part)?;
            Ok(true)
        }
    }
}

/// The row of a part of the base, where there is a base.
fn part_of_base_for(
    bank: &Bank,
    steps: &mut Vec<Step>,
    shell: &Shell,
    part: &Part,
) -> Result<bool, AllocError>
    requires steps { steps.old.items ≡ [] }
    requires shell { ShellStands bank.now shell.now }
    requires part { PartStands bank.now part.now }
    ensures stand { OnOk result (All (StepStands bank.now) steps.new.items) }
    ensures makes { IfOk result (λ there. drafted there (stack_of bank.now steps.new.items) ≡ base_part_row (shell_at bank.now shell.now) (part_at bank.now part.now)) }
{
    match shell.base {
        None => Ok(false),
        Some(base) => {
            rows::part_of_base(bank, steps, part, base)?;
            Ok(true)
        }
    }
}

/// The row that the part of the base is the default.
pub fn part_of_base(
    bank: &Bank,
    steps: &mut Vec<Step>,
    earlier: &[Shell],
    shell: &Shell,
    i: u64,
) -> Result<bool, AllocError>
    requires steps { steps.old.items ≡ [] }
    requires earlier { All (ShellStands bank.now) earlier.now }
    requires shell { ShellStands bank.now shell.now }
    ensures stand { OnOk result (All (StepStands bank.now) steps.new.items) }
    ensures makes { IfOk result (λ there. drafted there (stack_of bank.now steps.new.items) ≡ shell_clause (shells_at bank.now earlier.now) (shell_at bank.now shell.now) i PartOfBase) }
{
    if i == 0 {
        return Ok(false);
    }
    let place = (i - 1) as usize;
    match shell.parts.get(place) {
        None => Ok(false),
        Some(part) => part_of_base_for(bank, steps, shell, part),
    }
}

/// The row that the constructor takes an argument that does not meet its restriction as the default.
pub fn wrong_part(
    bank: &Bank,
    steps: &mut Vec<Step>,
    earlier: &[Shell],
    shell: &Shell,
    i: u64,
) -> Result<bool, AllocError>
    requires steps { steps.old.items ≡ [] }
    requires earlier { All (ShellStands bank.now) earlier.now }
    requires shell { ShellStands bank.now shell.now }
    ensures stand { OnOk result (All (StepStands bank.now) steps.new.items) }
    ensures makes { IfOk result (λ there. drafted there (stack_of bank.now steps.new.items) ≡ shell_clause (shells_at bank.now earlier.now) (shell_at bank.now shell.now) i WrongPart) }
{
    if i == 0 {
        return Ok(false);
    }
    let place = (i - 1) as usize;
    match shell.parts.get(place) {
        None => Ok(false),
        Some(part) => {
            rows::wrong_part(bank, steps, shell, part, place)?;
            Ok(true)
        }
    }
}

/// The row that no object is of this kind and of that of an earlier shell.
pub fn kinds_differ(
    bank: &Bank,
    steps: &mut Vec<Step>,
    earlier: &[Shell],
    shell: &Shell,
    i: u64,
) -> Result<bool, AllocError>
    requires steps { steps.old.items ≡ [] }
    requires earlier { All (ShellStands bank.now) earlier.now }
    requires shell { ShellStands bank.now shell.now }
    ensures stand { OnOk result (All (StepStands bank.now) steps.new.items) }
    ensures makes { IfOk result (λ there. drafted there (stack_of bank.now steps.new.items) ≡ shell_clause (shells_at bank.now earlier.now) (shell_at bank.now shell.now) i KindsDiffer) }
{
    if i == 0 {
        return Ok(false);
    }
    match earlier.get((i - 1) as usize) {
        None => Ok(false),
        Some(other) => {
            rows::kinds_differ(bank, steps, shell, other)?;
            Ok(true)
        }
    }
}
