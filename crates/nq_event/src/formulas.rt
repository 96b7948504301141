//! The outlines of ADD-AXIOM and PROVE-LEMMA.
ghost use Rattle.std.specs.Prelude.{◌≡◌, ◌∷◌, []};
ghost use Rattle.nq_events.specs.Outlines.{add_axiom_outline, prove_lemma_outline};
ghost use Rattle.nq_sexp.specs.Tree.{tree};
ghost use Rattle.nq_event.specs.Reads.{forms_of};
ghost use Rattle.nq_event.specs.Outlines.{outlined};

use crate::hints::hints_of;
use crate::lists::name_of;
use crate::outline::Outline;
use crate::parts::types_of;
use crate::refusal::{EventPart, Refusal};
use nq_sexp::Sexp;

fn assumed<'a>(
    name: &Sexp<'a>,
    types: &Sexp<'a>,
    term: &'a Sexp<'a>,
) -> Result<Outline<'a>, Refusal<'a>>
    ensures { outlined result ≡ add_axiom_outline (tree name.now ∷ tree types.now ∷ tree term.now ∷ []) }
{
    let name = name_of(name).ok_or(Refusal::BadShape(EventPart::Name))?;
    let types = types_of(types).ok_or(Refusal::BadShape(EventPart::Types))?;
    Ok(Outline::AddAxiom(name, types, term))
}

/// The outline of ADD-AXIOM.
pub fn add_axiom_outline<'a>(forms: &'a [Sexp<'a>]) -> Result<Outline<'a>, Refusal<'a>>
    ensures { outlined result ≡ add_axiom_outline (forms_of forms.now) }
{
    match forms {
        [name, types, term] => assumed(name, types, term),
        _ => Err(Refusal::BadShape(EventPart::Form)),
    }
}

fn claimed<'a>(
    name: &Sexp<'a>,
    types: &Sexp<'a>,
    term: &'a Sexp<'a>,
) -> Result<Outline<'a>, Refusal<'a>>
    ensures { outlined result ≡ prove_lemma_outline (tree name.now ∷ tree types.now ∷ tree term.now ∷ []) }
{
    let name = name_of(name).ok_or(Refusal::BadShape(EventPart::Name))?;
    let types = types_of(types).ok_or(Refusal::BadShape(EventPart::Types))?;
    Ok(Outline::ProveLemma(name, types, term, &[]))
}

fn claimed_with_hints<'a>(
    name: &Sexp<'a>,
    types: &Sexp<'a>,
    term: &'a Sexp<'a>,
    hints: &Sexp<'a>,
) -> Result<Outline<'a>, Refusal<'a>>
    ensures { outlined result ≡ prove_lemma_outline (tree name.now ∷ tree types.now ∷ tree term.now ∷ tree hints.now ∷ []) }
{
    let name = name_of(name).ok_or(Refusal::BadShape(EventPart::Name))?;
    let types = types_of(types).ok_or(Refusal::BadShape(EventPart::Types))?;
    let hints = hints_of(hints).ok_or(Refusal::BadShape(EventPart::Hints))?;
    Ok(Outline::ProveLemma(name, types, term, hints))
}

/// The outline of PROVE-LEMMA.
pub fn prove_lemma_outline<'a>(forms: &'a [Sexp<'a>]) -> Result<Outline<'a>, Refusal<'a>>
    ensures { outlined result ≡ prove_lemma_outline (forms_of forms.now) }
{
    match forms {
        [name, types, term] => claimed(name, types, term),
        [name, types, term, hints] => claimed_with_hints(name, types, term, hints),
        _ => Err(Refusal::BadShape(EventPart::Form)),
    }
}
