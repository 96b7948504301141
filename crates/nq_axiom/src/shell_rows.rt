//! The rows of the shells.
ghost use Rattle.std.specs.Prelude.{◌≡◌, [], All, IfOk};
ghost use Rattle.nq_bank.specs.Content.{IsNamed, text_at};
ghost use Rattle.nq_bank.specs.Shells.{shell_at, shells_at, ShellStands};
ghost use Rattle.nq_proof.specs.Rows.{shell_clause_at, shell_found, shell_row};
ghost use Rattle.nq_axiom.specs.Drafts.{draft_at, DraftStands};

use nq_bank::{Bank, Shell, Sym, is_same_name};
use nq_shell::put_row;
use nq_steps::Step;
use std::alloc::AllocError;

/// The axiom of one shell in a row, for a part or an earlier shell.
fn steps_of_shell(
    bank: &Bank,
    earlier: &[Shell],
    shell: &Shell,
    row: u64,
    part: u64,
) -> Result<Option<Vec<Step>>, AllocError>
    requires earlier { All (ShellStands bank.now) earlier.now }
    requires shell { ShellStands bank.now shell.now }
    ensures stand { IfOk result (DraftStands bank.now) }
    ensures makes { IfOk result (λ draft. draft_at bank.now draft ≡ shell_clause_at (shells_at bank.now earlier.now) (shell_at bank.now shell.now) part (shell_row row)) }
{
    let mut steps = Vec::new(bank.alloc());
    if put_row(bank, &mut steps, earlier, shell, row, part)? {
        Ok(Some(steps))
    } else {
        Ok(None)
    }
}

/// The axiom in a row of the shell whose constructor has this name.
pub fn shell_steps(
    bank: &Bank,
    shells: &[Shell],
    name: Sym,
    row: u64,
    part: u64,
) -> Result<Option<Vec<Step>>, AllocError>
    requires shells { All (ShellStands bank.now) shells.now }
    requires name { IsNamed bank.now name }
    ensures stand { IfOk result (DraftStands bank.now) }
    ensures makes { IfOk result (λ draft. draft_at bank.now draft ≡ shell_found (text_at bank.now name) row part [] (shells_at bank.now shells.now)) }
{
    for (k, shell) in shells.iter().enumerate() {
        if is_same_name(bank, name, shell.constructor) {
            return steps_of_shell(bank, &shells[..k], shell, row, part);
        }
    }
    Ok(None)
}
