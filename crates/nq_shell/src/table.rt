//! Whether a row of the table of shell axioms is there, and its literals: the rows without a part's number, which have the
//! number 0, and the choice among all rows.
ghost use Rattle.std.specs.Prelude.{◌≡◌, [], All, IfOk, OnOk};
ghost use Rattle.nq_bank.specs.Shells.{shell_at, shells_at, ShellStands};
ghost use Rattle.nq_proof.specs.Rows.{shell_clause, shell_clause_at, shell_row};
ghost use Rattle.nq_shell.specs.Rows.{drafted};
ghost use Rattle.nq_proof.specs.Rows.{RecognizerIsTruthValue, MadeIsRecognized, BaseIsRecognized, MadeIsNoBase, RemadeIsSame, TruthIsNone, FalsityIsNone, SizeOfMade, SizeOfBase};
ghost use Rattle.nq_steps.specs.Steps.{stack_of, StepStands};

use crate::{part_table, rows};
use nq_bank::{Bank, Shell};
use nq_steps::Step;
use std::alloc::AllocError;

fn recognizer_is_truth_value(
    bank: &Bank,
    steps: &mut Vec<Step>,
    earlier: &[Shell],
    shell: &Shell,
    i: u64,
) -> Result<bool, AllocError>
    requires steps { steps.old.items ≡ [] }
    requires earlier { All (ShellStands bank.now) earlier.now }
    requires shell { ShellStands bank.now shell.now }
    ensures stand { OnOk result (All (StepStands bank.now) steps.new.items) }
    ensures makes { IfOk result (λ there. drafted there (stack_of bank.now steps.new.items) ≡ shell_clause (shells_at bank.now earlier.now) (shell_at bank.now shell.now) i RecognizerIsTruthValue) }
{
    if i != 0 {
        return Ok(false);
    }
    rows::recognizer_is_truth_value(bank, steps, shell)?;
    Ok(true)
}

fn made_is_recognized(
    bank: &Bank,
    steps: &mut Vec<Step>,
    earlier: &[Shell],
    shell: &Shell,
    i: u64,
) -> Result<bool, AllocError>
    requires steps { steps.old.items ≡ [] }
    requires earlier { All (ShellStands bank.now) earlier.now }
    requires shell { ShellStands bank.now shell.now }
    ensures stand { OnOk result (All (StepStands bank.now) steps.new.items) }
    ensures makes { IfOk result (λ there. drafted there (stack_of bank.now steps.new.items) ≡ shell_clause (shells_at bank.now earlier.now) (shell_at bank.now shell.now) i MadeIsRecognized) }
{
    if i != 0 {
        return Ok(false);
    }
    rows::made_is_recognized(bank, steps, shell)?;
    Ok(true)
}

fn base_is_recognized(
    bank: &Bank,
    steps: &mut Vec<Step>,
    earlier: &[Shell],
    shell: &Shell,
    i: u64,
) -> Result<bool, AllocError>
    requires steps { steps.old.items ≡ [] }
    requires earlier { All (ShellStands bank.now) earlier.now }
    requires shell { ShellStands bank.now shell.now }
    ensures stand { OnOk result (All (StepStands bank.now) steps.new.items) }
    ensures makes { IfOk result (λ there. drafted there (stack_of bank.now steps.new.items) ≡ shell_clause (shells_at bank.now earlier.now) (shell_at bank.now shell.now) i BaseIsRecognized) }
{
    if i != 0 {
        return Ok(false);
    }
    match shell.base {
        None => Ok(false),
        Some(base) => {
            rows::base_is_recognized(bank, steps, shell, base)?;
            Ok(true)
        }
    }
}

fn made_is_no_base(
    bank: &Bank,
    steps: &mut Vec<Step>,
    earlier: &[Shell],
    shell: &Shell,
    i: u64,
) -> Result<bool, AllocError>
    requires steps { steps.old.items ≡ [] }
    requires earlier { All (ShellStands bank.now) earlier.now }
    requires shell { ShellStands bank.now shell.now }
    ensures stand { OnOk result (All (StepStands bank.now) steps.new.items) }
    ensures makes { IfOk result (λ there. drafted there (stack_of bank.now steps.new.items) ≡ shell_clause (shells_at bank.now earlier.now) (shell_at bank.now shell.now) i MadeIsNoBase) }
{
    if i != 0 {
        return Ok(false);
    }
    match shell.base {
        None => Ok(false),
        Some(base) => {
            rows::made_is_no_base(bank, steps, shell, base)?;
            Ok(true)
        }
    }
}

fn remade_is_same(
    bank: &Bank,
    steps: &mut Vec<Step>,
    earlier: &[Shell],
    shell: &Shell,
    i: u64,
) -> Result<bool, AllocError>
    requires steps { steps.old.items ≡ [] }
    requires earlier { All (ShellStands bank.now) earlier.now }
    requires shell { ShellStands bank.now shell.now }
    ensures stand { OnOk result (All (StepStands bank.now) steps.new.items) }
    ensures makes { IfOk result (λ there. drafted there (stack_of bank.now steps.new.items) ≡ shell_clause (shells_at bank.now earlier.now) (shell_at bank.now shell.now) i RemadeIsSame) }
{
    if i != 0 {
        return Ok(false);
    }
    rows::remade_is_same(bank, steps, shell)?;
    Ok(true)
}

fn truth_is_none(
    bank: &Bank,
    steps: &mut Vec<Step>,
    earlier: &[Shell],
    shell: &Shell,
    i: u64,
) -> Result<bool, AllocError>
    requires steps { steps.old.items ≡ [] }
    requires earlier { All (ShellStands bank.now) earlier.now }
    requires shell { ShellStands bank.now shell.now }
    ensures stand { OnOk result (All (StepStands bank.now) steps.new.items) }
    ensures makes { IfOk result (λ there. drafted there (stack_of bank.now steps.new.items) ≡ shell_clause (shells_at bank.now earlier.now) (shell_at bank.now shell.now) i TruthIsNone) }
{
    if i != 0 {
        return Ok(false);
    }
    rows::truth_is_none(bank, steps, shell)?;
    Ok(true)
}

fn falsity_is_none(
    bank: &Bank,
    steps: &mut Vec<Step>,
    earlier: &[Shell],
    shell: &Shell,
    i: u64,
) -> Result<bool, AllocError>
    requires steps { steps.old.items ≡ [] }
    requires earlier { All (ShellStands bank.now) earlier.now }
    requires shell { ShellStands bank.now shell.now }
    ensures stand { OnOk result (All (StepStands bank.now) steps.new.items) }
    ensures makes { IfOk result (λ there. drafted there (stack_of bank.now steps.new.items) ≡ shell_clause (shells_at bank.now earlier.now) (shell_at bank.now shell.now) i FalsityIsNone) }
{
    if i != 0 {
        return Ok(false);
    }
    rows::falsity_is_none(bank, steps, shell)?;
    Ok(true)
}

fn size_of_made(
    bank: &Bank,
    steps: &mut Vec<Step>,
    earlier: &[Shell],
    shell: &Shell,
    i: u64,
) -> Result<bool, AllocError>
    requires steps { steps.old.items ≡ [] }
    requires earlier { All (ShellStands bank.now) earlier.now }
    requires shell { ShellStands bank.now shell.now }
    ensures stand { OnOk result (All (StepStands bank.now) steps.new.items) }
    ensures makes { IfOk result (λ there. drafted there (stack_of bank.now steps.new.items) ≡ shell_clause (shells_at bank.now earlier.now) (shell_at bank.now shell.now) i SizeOfMade) }
{
    if i != 0 {
        return Ok(false);
    }
    rows::size_of_made(bank, steps, shell)?;
    Ok(true)
}

fn size_of_base(
    bank: &Bank,
    steps: &mut Vec<Step>,
    earlier: &[Shell],
    shell: &Shell,
    i: u64,
) -> Result<bool, AllocError>
    requires steps { steps.old.items ≡ [] }
    requires earlier { All (ShellStands bank.now) earlier.now }
    requires shell { ShellStands bank.now shell.now }
    ensures stand { OnOk result (All (StepStands bank.now) steps.new.items) }
    ensures makes { IfOk result (λ there. drafted there (stack_of bank.now steps.new.items) ≡ shell_clause (shells_at bank.now earlier.now) (shell_at bank.now shell.now) i SizeOfBase) }
{
    if i != 0 {
        return Ok(false);
    }
    match shell.base {
        None => Ok(false),
        Some(base) => {
            rows::size_of_base(bank, steps, base)?;
            Ok(true)
        }
    }
}

/// Puts the literals of the axiom in a row of the table, or answers that there is none.
pub fn put_row(
    bank: &Bank,
    steps: &mut Vec<Step>,
    earlier: &[Shell],
    shell: &Shell,
    row: u64,
    i: u64,
) -> Result<bool, AllocError>
    requires steps { steps.old.items ≡ [] }
    requires earlier { All (ShellStands bank.now) earlier.now }
    requires shell { ShellStands bank.now shell.now }
    ensures stand { OnOk result (All (StepStands bank.now) steps.new.items) }
    ensures makes { IfOk result (λ there. drafted there (stack_of bank.now steps.new.items) ≡ shell_clause_at (shells_at bank.now earlier.now) (shell_at bank.now shell.now) i (shell_row row)) }
{
    match row {
        1 => recognizer_is_truth_value(bank, steps, earlier, shell, i),
        2 => made_is_recognized(bank, steps, earlier, shell, i),
        3 => base_is_recognized(bank, steps, earlier, shell, i),
        4 => made_is_no_base(bank, steps, earlier, shell, i),
        5 => remade_is_same(bank, steps, earlier, shell, i),
        6 => part_table::part_of_made(bank, steps, earlier, shell, i),
        7 => part_table::wrong_part_of_made(bank, steps, earlier, shell, i),
        8 => part_table::part_of_other(bank, steps, earlier, shell, i),
        9 => part_table::part_of_base(bank, steps, earlier, shell, i),
        10 => part_table::wrong_part(bank, steps, earlier, shell, i),
        11 => truth_is_none(bank, steps, earlier, shell, i),
        12 => falsity_is_none(bank, steps, earlier, shell, i),
        13 => part_table::kinds_differ(bank, steps, earlier, shell, i),
        14 => size_of_made(bank, steps, earlier, shell, i),
        15 => size_of_base(bank, steps, earlier, shell, i),
        _ => Ok(false),
    }
}
