//! The axioms of a shell.
ghost use Rattle.std.specs.Prelude.{◌≡◌, All, IfOk, OnOk, Err};
ghost use Rattle.nq_bank.specs.Content.{Grows};
ghost use Rattle.nq_bank.specs.Shells.{shell_at, shells_at, ShellStands};
ghost use Rattle.nq_proof.specs.Rows.{shell_clause_at, shell_row};
ghost use Rattle.nq_shell.specs.Axioms.{clause_at, ClauseStands, HasDeepLiteral, IsAxiom};

use crate::table::put_row;
use nq_bank::{Bank, BankFault, Shell, TermId};
use nq_steps::take_steps;

/// The literals of a clause.
pub type Clause = Vec<TermId>;

/// The clause in a row of the table.
fn clause_in_table(
    bank: &mut Bank,
    earlier: &[Shell],
    shell: &Shell,
    row: u64,
    i: u64,
) -> Result<Option<Clause>, BankFault>
    requires earlier { All (ShellStands bank.old) earlier.now }
    requires shell { ShellStands bank.old shell.now }
    ensures clause { IfOk result (λ clause. clause_at bank.new clause ≡ shell_clause_at (shells_at bank.old earlier.now) (shell_at bank.old shell.now) i (shell_row row)) }
    ensures stands { IfOk result (ClauseStands bank.new) }
    ensures grows { Grows bank.old bank.new }

    // An axiom with a term that is too deep is refused as such, unless memory is wanting first; no other is.
    ensures deep { result ≡ Err BankFault.Deep → HasDeepLiteral (shell_clause_at (shells_at bank.old earlier.now) (shell_at bank.old shell.now) i (shell_row row)) }
    ensures shallow { OnOk result (HasDeepLiteral (shell_clause_at (shells_at bank.old earlier.now) (shell_at bank.old shell.now) i (shell_row row)) → ⊥) }
{
    let mut steps = Vec::new(bank.alloc());
    let Ok(there) = put_row(bank, &mut steps, earlier, shell, row, i) else {
        return Err(BankFault::Memory);
    };
    if !there {
        return Ok(None);
    }
    let clause = take_steps(bank, steps.as_slice())?;
    Ok(Some(clause))
}

/// The axiom of a shell in a row of the table of shell axioms, for the part or the earlier shell of number `i`, counted from
/// 1, or for neither where `i` is 0; None exactly where the table has no such axiom. The earlier shells begin with the
/// ground shells.
///
/// It is `Deep` exactly where a literal would be deeper than the bank's limit, unless memory is wanting first. An error may
/// leave more terms and names in the bank.
pub fn shell_axiom(
    bank: &mut Bank,
    earlier: &[Shell],
    shell: &Shell,
    row: u32,
    i: u32,
) -> Result<Option<Clause>, BankFault>
    requires earlier { All (ShellStands bank.old) earlier.now }
    requires shell { ShellStands bank.old shell.now }
    ensures axiom { IfOk result (IsAxiom bank.new (shells_at bank.old earlier.now) (shell_at bank.old shell.now) row i) }
    ensures clause { IfOk result (λ clause. clause_at bank.new clause ≡ shell_clause_at (shells_at bank.old earlier.now) (shell_at bank.old shell.now) i (shell_row row)) }
    ensures stands { IfOk result (ClauseStands bank.new) }
    ensures grows { Grows bank.old bank.new }

    // An axiom with a term that is too deep is refused as such, unless memory is wanting first; no other is.
    ensures deep { result ≡ Err BankFault.Deep → HasDeepLiteral (shell_clause_at (shells_at bank.old earlier.now) (shell_at bank.old shell.now) i (shell_row row)) }
    ensures shallow { OnOk result (HasDeepLiteral (shell_clause_at (shells_at bank.old earlier.now) (shell_at bank.old shell.now) i (shell_row row)) → ⊥) }
{
    clause_in_table(bank, earlier, shell, row as u64, i as u64)
}
