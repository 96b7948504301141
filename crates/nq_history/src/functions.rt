//! The functions that an entry brings, with their numbers of arguments.
ghost use Rattle.std.specs.Prelude.{◌≡◌, ◌≤◌, ◌++◌, length, IfOk, OnOk};
ghost use Rattle.nq_history.specs.Functions.{accessor_functions, entry_functions, shell_functions};

use crate::entry::{Entry, EntryKind};
use nq_bank::{Part, Shell, Sym};
use std::alloc::{AllocError, Global};

/// Puts the accessors of parts, each of one argument.
fn put_accessors(functions: &mut Vec<(Sym, u64)>, parts: &[Part]) -> Result<(), AllocError>
    ensures { OnOk result (functions.new.items ≡ functions.old.items ++ accessor_functions parts.now) }
{
    for part in parts {
        functions.push((part.accessor, 1))?;
    }
    Ok(())
}

/// The functions of a shell: its constructor, its base, its recognizer and its accessors.
fn functions_of_shell(alloc: Global, shell: &Shell) -> Result<Vec<(Sym, u64)>, AllocError>
    ensures { IfOk result (λ functions. functions.items ≡ shell_functions shell.now) }
{
    let constructor = (shell.constructor, shell.parts.len() as u64);
    let recognizer = (shell.recognizer, 1);
    let mut functions = match shell.base {
        Some(base) => vec![in alloc; constructor, (base, 0), recognizer]?,
        None => vec![in alloc; constructor, recognizer]?,
    };
    put_accessors(&mut functions, shell.parts.as_slice())?;
    Ok(functions)
}

/// The functions that an entry brings: those of its shell, or the function that it declares or defines.
pub fn functions_of_entry(alloc: Global, e: &Entry) -> Result<Vec<(Sym, u64)>, AllocError>
    ensures { IfOk result (λ functions. functions.items ≡ entry_functions e.now) }
{
    match &e.kind {
        EntryKind::Shell(shell) => functions_of_shell(alloc, shell),
        EntryKind::Dcl(arity) => Ok(vec![in alloc; (e.name, *arity as u64)]?),
        EntryKind::Defn(formals, _, _) => Ok(vec![in alloc; (e.name, formals.len() as u64)]?),
        EntryKind::Axiom(_, _) => Ok(Vec::new(alloc)),
        EntryKind::Lemma(_, _) => Ok(Vec::new(alloc)),
        EntryKind::Toggle(_, _) => Ok(Vec::new(alloc)),
    }
}

/// How many functions a shell has, where they are at most so many.
fn count_of_shell(shell: &Shell, most: usize) -> usize
    requires { length (shell_functions shell.now) ≤ most }
    ensures { result ≡ length (shell_functions shell.now) }
{
    let base = if shell.base.is_some() { 1 } else { 0 };
    shell.parts.len() + base + 2
}

/// How many functions an entry brings, where they are at most so many.
pub fn count_of_entry(e: &Entry, most: usize) -> usize
    requires { length (entry_functions e.now) ≤ most }
    ensures { result ≡ length (entry_functions e.now) }
{
    match &e.kind {
        EntryKind::Shell(shell) => count_of_shell(shell, most),
        EntryKind::Dcl(_) => 1,
        EntryKind::Defn(_, _, _) => 1,
        EntryKind::Axiom(_, _) => 0,
        EntryKind::Lemma(_, _) => 0,
        EntryKind::Toggle(_, _) => 0,
    }
}
