//! The outline of ADD-SHELL.
ghost use Rattle.std.specs.Prelude.{◌≡◌, ◌∷◌, []};
ghost use Rattle.nq_events.specs.Outlines.{base_named, add_shell_outline};
ghost use Rattle.nq_sexp.specs.Tree.{tree};
ghost use Rattle.nq_event.specs.Reads.{forms_of, name_at};
ghost use Rattle.nq_event.specs.Outlines.{outlined};

use crate::lists::name_of;
use crate::outline::Outline;
use crate::refusal::{EventPart, Refusal};
use crate::shells::{ShellOutline, shell_parts_of};
use nq_sexp::Sexp;

/// The base of this name, of which NIL means none.
fn base_named<'a>(name: &'a [u8]) -> Option<&'a [u8]>
    ensures { name_at result ≡ base_named name.now }
{
    if name == b"NIL".as_slice() {
        None
    } else {
        Some(name)
    }
}

fn shell_between<'a>(
    constructor: &Sexp<'a>,
    base: &Sexp<'a>,
    recognizer: &Sexp<'a>,
    parts: &Sexp<'a>,
) -> Result<Outline<'a>, Refusal<'a>>
    ensures { outlined result ≡ add_shell_outline (tree constructor.now ∷ tree base.now ∷ tree recognizer.now ∷ tree parts.now ∷ []) }
{
    let constructor = name_of(constructor).ok_or(Refusal::BadShape(EventPart::Name))?;
    let base = name_of(base).ok_or(Refusal::BadShape(EventPart::Name))?;
    let recognizer = name_of(recognizer).ok_or(Refusal::BadShape(EventPart::Name))?;
    let parts = shell_parts_of(parts).ok_or(Refusal::BadShape(EventPart::Parts))?;
    Ok(Outline::AddShell(ShellOutline {
        constructor,
        base: base_named(base),
        recognizer,
        parts,
    }))
}

/// The outline of ADD-SHELL.
pub fn add_shell_outline<'a>(forms: &'a [Sexp<'a>]) -> Result<Outline<'a>, Refusal<'a>>
    ensures { outlined result ≡ add_shell_outline (forms_of forms.now) }
{
    match forms {
        [constructor, base, recognizer, parts] => {
            shell_between(constructor, base, recognizer, parts)
        }
        _ => Err(Refusal::BadShape(EventPart::Form)),
    }
}
