//! Copies of the shells that entries bring, as a list of their own.
ghost use Rattle.std.specs.Prelude.{◌≡◌, length, take, IfOk, OnErr, OnOk};
ghost use Rattle.std.specs.Option.{option_copied};
ghost use Rattle.nq_history.specs.ShellLists.{entry_shells, kind_shell, shells_brought, AddsCopies, IsPartCopy, IsShellCopy, Pairwise};

use crate::entry::{Entry, EntryKind};
use nq_bank::{Part, Shell};
use std::alloc::{AllocError, Global};

fn copied_part(alloc: Global, part: &Part) -> Result<Part, AllocError>
    ensures { IfOk result (IsPartCopy part.now) }
{
    let recognizers = Vec::from_slice(alloc, part.recognizers.as_slice())?;
    Ok(Part {
        accessor: part.accessor,
        one_of: part.one_of,
        recognizers,
        default: part.default,
    })
}

fn copied_parts(alloc: Global, parts: &[Part]) -> Result<Vec<Part>, AllocError>
    ensures { IfOk result (λ copies. Pairwise IsPartCopy parts.now copies.items) }
{
    let mut copies = Vec::new(alloc);
    for part in parts {
        let copy = copied_part(alloc, part)?;
        copies.push(copy)?;
    }
    Ok(copies)
}

fn copied_shell(alloc: Global, shell: &Shell) -> Result<Shell, AllocError>
    ensures { IfOk result (IsShellCopy shell.now) }
{
    let parts = copied_parts(alloc, shell.parts.as_slice())?;
    Ok(Shell {
        constructor: shell.constructor,
        base: shell.base,
        recognizer: shell.recognizer,
        parts,
    })
}

/// The shell that an entry brings, if it brings one.
fn shell_of_entry(e: &Entry) -> Option<&Shell>
    ensures { option_copied result ≡ kind_shell e.now.kind }
{
    match &e.kind {
        EntryKind::Shell(shell) => Some(shell),
        EntryKind::Dcl(_) => None,
        EntryKind::Defn(_, _, _) => None,
        EntryKind::Axiom(_, _) => None,
        EntryKind::Lemma(_, _) => None,
        EntryKind::Toggle(_, _) => None,
    }
}

/// Puts a copy of the shell that an entry brings, if it brings one. After an error none was put.
pub fn put_shell(alloc: Global, shells: &mut Vec<Shell>, e: &Entry) -> Result<(), AllocError>
    ensures ok { OnOk result (AddsCopies (entry_shells e.now) shells.old.items shells.new.items) }

    // What stood before stands there still.
    ensures front { take (length shells.old.items) shells.new.items ≡ shells.old.items }
{
    if let Some(shell) = shell_of_entry(e) {
        let copy = copied_shell(alloc, shell)?;
        shells.push(copy)?;
    }
    Ok(())
}

/// How many shells these entries bring.
pub fn count_shells(entries: &[Entry]) -> usize
    ensures { result ≡ length (shells_brought entries.now) }
{
    let mut count = 0;
    for e in entries {
        if shell_of_entry(e).is_some() {
            count += 1;
        }
    }
    count
}
