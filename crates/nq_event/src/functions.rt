//! The outlines of DCL and DEFN.
ghost use Rattle.std.specs.Prelude.{◌≡◌, ◌∷◌, []};
ghost use Rattle.nq_events.specs.Outlines.{dcl_outline, defn_outline};
ghost use Rattle.nq_sexp.specs.Tree.{tree};
ghost use Rattle.nq_event.specs.Reads.{forms_of};
ghost use Rattle.nq_event.specs.Outlines.{outlined};

use crate::lists::{name_of, symbols_of};
use crate::outline::Outline;
use crate::parts::measures_of;
use crate::refusal::{EventPart, Refusal};
use nq_sexp::Sexp;

fn declared<'a>(name: &Sexp<'a>, formals: &Sexp<'a>) -> Result<Outline<'a>, Refusal<'a>>
    ensures { outlined result ≡ dcl_outline (tree name.now ∷ tree formals.now ∷ []) }
{
    let name = name_of(name).ok_or(Refusal::BadShape(EventPart::Name))?;
    let formals = symbols_of(formals).ok_or(Refusal::BadShape(EventPart::Formals))?;
    Ok(Outline::Dcl(name, formals))
}

/// The outline of DCL.
pub fn dcl_outline<'a>(forms: &'a [Sexp<'a>]) -> Result<Outline<'a>, Refusal<'a>>
    ensures { outlined result ≡ dcl_outline (forms_of forms.now) }
{
    match forms {
        [name, formals] => declared(name, formals),
        _ => Err(Refusal::BadShape(EventPart::Form)),
    }
}

fn defined<'a>(
    name: &Sexp<'a>,
    formals: &Sexp<'a>,
    body: &'a Sexp<'a>,
) -> Result<Outline<'a>, Refusal<'a>>
    ensures { outlined result ≡ defn_outline (tree name.now ∷ tree formals.now ∷ tree body.now ∷ []) }
{
    let name = name_of(name).ok_or(Refusal::BadShape(EventPart::Name))?;
    let formals = symbols_of(formals).ok_or(Refusal::BadShape(EventPart::Formals))?;
    Ok(Outline::Defn(name, formals, body, &[]))
}

fn defined_by_measures<'a>(
    name: &Sexp<'a>,
    formals: &Sexp<'a>,
    body: &'a Sexp<'a>,
    measures: &Sexp<'a>,
) -> Result<Outline<'a>, Refusal<'a>>
    ensures { outlined result ≡ defn_outline (tree name.now ∷ tree formals.now ∷ tree body.now ∷ tree measures.now ∷ []) }
{
    let name = name_of(name).ok_or(Refusal::BadShape(EventPart::Name))?;
    let formals = symbols_of(formals).ok_or(Refusal::BadShape(EventPart::Formals))?;
    let measures = measures_of(measures).ok_or(Refusal::BadShape(EventPart::Measure))?;
    Ok(Outline::Defn(name, formals, body, measures))
}

/// The outline of DEFN.
pub fn defn_outline<'a>(forms: &'a [Sexp<'a>]) -> Result<Outline<'a>, Refusal<'a>>
    ensures { outlined result ≡ defn_outline (forms_of forms.now) }
{
    match forms {
        [name, formals, body] => defined(name, formals, body),
        [name, formals, body, measures] => defined_by_measures(name, formals, body, measures),
        _ => Err(Refusal::BadShape(EventPart::Form)),
    }
}
