//! The outlines of BOOT-STRAP, TOGGLE, DISABLE, ENABLE and UNDO-BACK-THROUGH.
ghost use Rattle.std.specs.Prelude.{◌≡◌, ◌∷◌, []};
ghost use Rattle.nq_events.specs.Outlines.{is_theory, is_nil, boot_strap_outline, toggle_outline, switch_outline, undo_outline};
ghost use Rattle.nq_sexp.specs.Tree.{tree};
ghost use Rattle.nq_event.specs.Reads.{forms_of};
ghost use Rattle.nq_event.specs.Outlines.{outlined};

use crate::lists::{elements_of, name_of, symbol_of};
use crate::outline::Outline;
use crate::refusal::{EventPart, Refusal};
use nq_sexp::Sexp;

/// Is a form NQTHM or THM?
fn is_theory(form: &Sexp<'_>) -> bool
    ensures { result ≡ is_theory (tree form.now) }
{
    match symbol_of(form) {
        Some(name) => name == b"NQTHM".as_slice() || name == b"THM".as_slice(),
        None => false,
    }
}

/// The outline of BOOT-STRAP.
pub fn boot_strap_outline<'a>(forms: &[Sexp<'a>]) -> Result<Outline<'a>, Refusal<'a>>
    ensures { outlined result ≡ boot_strap_outline (forms_of forms.now) }
{
    match forms {
        [] => Ok(Outline::BootStrap),
        [theory] if is_theory(theory) => Ok(Outline::BootStrap),
        _ => Err(Refusal::BadShape(EventPart::Form)),
    }
}

/// Is a flag NIL, or the empty list, which is the same?
fn is_nil(form: &Sexp<'_>) -> bool
    ensures { result ≡ is_nil (tree form.now) }
{
    match elements_of(form) {
        Some(forms) => forms.is_empty(),
        None => false,
    }
}

fn toggled<'a>(name: &Sexp<'a>, old: &Sexp<'a>, flag: &Sexp<'a>) -> Result<Outline<'a>, Refusal<'a>>
    ensures { outlined result ≡ toggle_outline (tree name.now ∷ tree old.now ∷ tree flag.now ∷ []) }
{
    let name = name_of(name).ok_or(Refusal::BadShape(EventPart::Name))?;
    let old = symbol_of(old).ok_or(Refusal::BadShape(EventPart::Name))?;
    Ok(Outline::Toggle(name, old, !is_nil(flag)))
}

/// The outline of TOGGLE. The old name may be of any length.
pub fn toggle_outline<'a>(forms: &[Sexp<'a>]) -> Result<Outline<'a>, Refusal<'a>>
    ensures { outlined result ≡ toggle_outline (forms_of forms.now) }
{
    match forms {
        [name, old, flag] => toggled(name, old, flag),
        _ => Err(Refusal::BadShape(EventPart::Form)),
    }
}

fn switched<'a>(old: &Sexp<'a>, disabled: bool) -> Result<Outline<'a>, Refusal<'a>>
    ensures { outlined result ≡ switch_outline disabled (tree old.now ∷ []) }
{
    let old = name_of(old).ok_or(Refusal::BadShape(EventPart::Name))?;
    Ok(Outline::Switch(old, disabled))
}

/// The outline of DISABLE or ENABLE.
pub fn switch_outline<'a>(forms: &[Sexp<'a>], disabled: bool) -> Result<Outline<'a>, Refusal<'a>>
    ensures { outlined result ≡ switch_outline disabled (forms_of forms.now) }
{
    match forms {
        [old] => switched(old, disabled),
        _ => Err(Refusal::BadShape(EventPart::Form)),
    }
}

fn undone<'a>(name: &Sexp<'a>) -> Result<Outline<'a>, Refusal<'a>>
    ensures { outlined result ≡ undo_outline (tree name.now ∷ []) }
{
    let name = symbol_of(name).ok_or(Refusal::BadShape(EventPart::Name))?;
    Ok(Outline::Undo(name))
}

/// The outline of UNDO-BACK-THROUGH. The name may be of any length.
pub fn undo_outline<'a>(forms: &[Sexp<'a>]) -> Result<Outline<'a>, Refusal<'a>>
    ensures { outlined result ≡ undo_outline (forms_of forms.now) }
{
    match forms {
        [name] => undone(name),
        _ => Err(Refusal::BadShape(EventPart::Form)),
    }
}
