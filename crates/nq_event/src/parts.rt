//! Types and measures.
ghost use Rattle.std.specs.Prelude.{◌≡◌, ◌∷◌, [], is_some};
ghost use Rattle.std.specs.List.{list_all};
ghost use Rattle.nq_event.specs.Shapes.{is_meta};
ghost use Rattle.nq_events.specs.Parts.{class_of, meta_in, type_in, types_in, measure_of, measure_in, measures_in, Meta};
ghost use Rattle.nq_sexp.specs.Tree.{tree, trees, tail_of};
ghost use Rattle.nq_event.specs.Reads.{forms_of, read_if};
ghost use Rattle.nq_event.specs.Shapes.{type_if, measure_if, no_measure};

use crate::lists::{elements_of, symbol_of};
use nq_sexp::Sexp;

/// A type of an axiom or a lemma.
#[derive(Clone, Copy)]
pub enum TypeOutline {
    Rewrite,
    Elim,
    Generalize,
    /// A list that begins with META, which the language leaves out.
    Meta,
}

/// A measure as it is written.
#[derive(Clone, Copy)]
pub struct MeasureOutline<'a> {
    pub relation: &'a [u8],
    pub form: &'a Sexp<'a>,
}

/// The rule class of a word.
fn class_of(word: &[u8]) -> Option<TypeOutline>
    ensures { type_if result ≡ class_of word.now }
{
    if word == b"REWRITE".as_slice() {
        Some(TypeOutline::Rewrite)
    } else if word == b"ELIM".as_slice() {
        Some(TypeOutline::Elim)
    } else if word == b"GENERALIZE".as_slice() {
        Some(TypeOutline::Generalize)
    } else {
        None
    }
}

/// Is a form the word META?
fn is_meta(form: &Sexp<'_>) -> bool
    ensures { result ≡ is_meta (tree form.now) }
{
    match symbol_of(form) {
        Some(word) => word == b"META".as_slice(),
        None => false,
    }
}

/// The type of a list.
fn list_type(forms: &[Sexp<'_>], tail: &Option<&Sexp<'_>>) -> Option<TypeOutline>
    ensures { type_if result ≡ meta_in (trees forms.now (tail_of tail.now)) }
{
    match forms {
        [] => None,
        [first, ..] => if is_meta(first) {
            Some(TypeOutline::Meta)
        } else {
            None
        },
    }
}

/// A type: one of the three words, or a list that begins with META, dotted or not.
#[tactic(auto, using(nq_sexp::proofs::Trees::tree_rules))]
pub fn type_of(form: &Sexp<'_>) -> Option<TypeOutline>
    ensures { type_if result ≡ type_in (tree form.now) }
{
    match form {
        Sexp::Symbol(word) => class_of(word),
        Sexp::List(items, tail) => list_type(items, tail),
        Sexp::Numeral(_, _) => None,
        Sexp::Str(_) => None,
        Sexp::Quote(_) => None,
    }
}

fn is_type(form: &Sexp<'_>) -> bool
    ensures { result ≡ is_some (type_in (tree form.now)) }
{
    type_of(form).is_some()
}

fn are_types(forms: &[Sexp<'_>]) -> bool
    ensures { result ≡ list_all (λ form. is_some (type_in (tree form))) forms.now }
{
    forms.iter().all(|form| is_type(form))
}

/// The types of a list.
pub fn types_of<'a>(form: &Sexp<'a>) -> Option<&'a [Sexp<'a>]>
    ensures { read_if type_in Meta result ≡ types_in (tree form.now) }
{
    let forms = elements_of(form)?;
    if are_types(forms) { Some(forms) } else { None }
}

/// The measure of two forms.
fn measure_between<'a>(relation: &Sexp<'a>, form: &'a Sexp<'a>) -> Option<MeasureOutline<'a>>
    ensures { measure_if result ≡ measure_of (tree relation.now ∷ tree form.now ∷ []) }
{
    let relation = symbol_of(relation)?;
    Some(MeasureOutline { relation, form })
}

/// A measure: a list of a symbol and one form.
pub fn measure_of<'a>(form: &Sexp<'a>) -> Option<MeasureOutline<'a>>
    ensures { measure_if result ≡ measure_in (tree form.now) }
{
    match elements_of(form)? {
        [relation, form] => measure_between(relation, form),
        _ => None,
    }
}

fn is_measure(form: &Sexp<'_>) -> bool
    ensures { result ≡ is_some (measure_in (tree form.now)) }
{
    measure_of(form).is_some()
}

fn are_measures(forms: &[Sexp<'_>]) -> bool
    ensures { result ≡ list_all (λ form. is_some (measure_in (tree form))) forms.now }
{
    forms.iter().all(|form| is_measure(form))
}

/// The measures of a list.
pub fn measures_of<'a>(form: &Sexp<'a>) -> Option<&'a [Sexp<'a>]>
    ensures { read_if measure_in no_measure result ≡ measures_in (tree form.now) }
{
    let forms = elements_of(form)?;
    if are_measures(forms) {
        Some(forms)
    } else {
        None
    }
}
