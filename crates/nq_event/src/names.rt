//! The names of symbols.
ghost use Rattle.std.specs.Prelude.{◌≡◌, IfOk};
ghost use Rattle.nq_bank.specs.Content.{Grows};
ghost use Rattle.nq_event.specs.Readings.{AreNamesOf};
ghost use Rattle.nq_event.specs.Shapes.{names_at};

use crate::lists::text_of;
use nq_bank::{Bank, Sym};
use nq_sexp::Sexp;
use std::alloc::AllocError;

/// The names of symbols, in their order. Any other form has the empty name.
pub fn names_of(bank: &mut Bank, forms: &[Sexp<'_>]) -> Result<Vec<Sym>, AllocError>
    ensures names { IfOk result (λ names. AreNamesOf bank.new (names_at forms.now) names.items) }
    ensures grows { Grows bank.old bank.new }
{
    let mut names = Vec::new(bank.alloc());
    for form in forms {
        let name = bank.name(text_of(form))?;
        names.push(name)?;
    }
    Ok(names)
}
