// Which names of a shell are in use.
ghost use Rattle.std.specs.Prelude.{◌≡◌, ◌++◌, map, All, IfOk, OnOk};
ghost use Rattle.std.specs.List.{filter};
ghost use Rattle.nq_logic.specs.Names.{is_in_use};
ghost use Rattle.nq_bank.specs.Content.{IsNamed, text_at};
ghost use Rattle.nq_bank.specs.Shells.{shell_at, ShellStands};
ghost use Rattle.nq_history.specs.Events.{events_at, HistoryStands};
ghost use Rattle.nq_shell.specs.Admission.{AreUsed};
ghost use Rattle.nq_run.specs.ShellNames.{names_in};

use nq_bank::{Bank, Part, Shell, Sym};
use nq_history::History;
use std::alloc::{AllocError, Global};

fn put_accessors(names: &mut Vec<Sym>, parts: &[Part]) -> Result<(), AllocError>
    ensures { OnOk result (names.new.items ≡ names.old.items ++ map (λ part. part.accessor) parts.now) }
{
    for part in parts {
        names.push(part.accessor)?;
    }
    Ok(())
}

/// The names of a shell: its constructor, its base, its recognizer and its accessors.
fn names_in(alloc: Global, shell: &Shell) -> Result<Vec<Sym>, AllocError>
    ensures { IfOk result (λ names. names.items ≡ names_in shell.now) }
{
    let mut names = match shell.base {
        Some(base) => vec![in alloc; shell.constructor, base, shell.recognizer]?,
        None => vec![in alloc; shell.constructor, shell.recognizer]?,
    };
    put_accessors(&mut names, shell.parts.as_slice())?;
    Ok(names)
}

/// Those of the names that are in use.
fn used_among(bank: &Bank, history: &History, names: &[Sym]) -> Result<Vec<Sym>, AllocError>
    requires history { HistoryStands bank.now history.now }
    requires names { All (IsNamed bank.now) names.now }
    ensures { IfOk result (λ used. used.items ≡ filter (λ s. is_in_use (text_at bank.now s) (events_at bank.now history.now)) names.now) }
{
    let mut used = Vec::new(bank.alloc());
    for name in names {
        if history.in_use(bank, *name) {
            used.push(*name)?;
        }
    }
    Ok(used)
}

/// The names of a shell that are in use.
pub(crate) fn used_names(
    bank: &Bank,
    history: &History,
    shell: &Shell,
) -> Result<Vec<Sym>, AllocError>
    requires history { HistoryStands bank.now history.now }
    requires shell { ShellStands bank.now shell.now }
    ensures stand { IfOk result (λ used. All (IsNamed bank.now) used.items) }
    ensures used { IfOk result (λ used. AreUsed bank.now used.items (λ name. is_in_use name (events_at bank.now history.now)) (shell_at bank.now shell.now)) }
{
    let names = names_in(bank.alloc(), shell)?;
    used_among(bank, history, names.as_slice())
}
