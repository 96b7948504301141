//! The formals of a function.
ghost use Rattle.std.specs.Prelude.{◌≡◌, All, IfOk, IfSome};
ghost use Rattle.std.specs.Option.{option_map};
ghost use Rattle.nq_logic.specs.Names.{constant_names, has_name};
ghost use Rattle.nq_logic.specs.ShellPrinciple.{first_repeated};
ghost use Rattle.nq_bank.specs.Content.{IsNamed, text_at};
ghost use Rattle.nq_bank.specs.Shells.{texts_at};
ghost use Rattle.nq_events.specs.OwnRefusals.{first_constant};
ghost use Rattle.nq_admit.specs.Formals.{IsSetOf};

use nq_bank::{Bank, Sym};
use std::alloc::AllocError;
use std::collections::HashSet;

/// The first of the formals that is T, F or NIL.
pub fn first_constant(bank: &Bank, formals: &[Sym]) -> Option<Sym>
    requires { All (IsNamed bank.now) formals.now }
    ensures is { option_map (text_at bank.now) result ≡ first_constant (texts_at bank.now formals.now) }
    ensures named { IfSome result (IsNamed bank.now) }
{
    for formal in formals {
        if is_constant(bank, *formal) {
            return Some(*formal);
        }
    }
    None
}

/// Is a name T, F or NIL?
fn is_constant(bank: &Bank, name: Sym) -> bool
    requires { IsNamed bank.now name }
    ensures { result ≡ has_name (text_at bank.now name) constant_names }
{
    matches!(bank.text(name), b"T" | b"F" | b"NIL")
}

/// The first of the formals that stands twice. It fails only for want of memory.
pub fn first_repeated(bank: &Bank, formals: &[Sym]) -> Result<Option<Sym>, AllocError>
    requires { All (IsNamed bank.now) formals.now }
    ensures is { IfOk result (λ found. option_map (text_at bank.now) found ≡ first_repeated (texts_at bank.now formals.now)) }
    ensures named { IfOk result (λ found. IfSome found (IsNamed bank.now)) }
{
    bank.is_sound();
    let mut later = HashSet::new(bank.alloc());
    let mut first = None;
    // From the last to the first, so that the later ones are known.
    for i in (0..formals.len()).rev() {
        if !later.insert(formals[i].0)? {
            first = Some(formals[i]);
        }
    }
    Ok(first)
}

/// The ids of the formals, by which a variable is looked up among them. It fails only for want of memory.
pub fn formal_set(bank: &Bank, formals: &[Sym]) -> Result<HashSet<u64>, AllocError>
    requires { All (IsNamed bank.now) formals.now }
    ensures { IfOk result (IsSetOf bank.now formals.now) }
{
    bank.is_sound();
    let mut ids = HashSet::new(bank.alloc());
    for formal in formals {
        ids.insert(formal.0)?;
    }
    Ok(ids)
}
