//! Instances of axioms, lemmas and definitions, as hints of USE write them.
ghost use Rattle.std.specs.Prelude.{◌≡◌, ◌∷◌, [], is_some};
ghost use Rattle.std.specs.List.{list_all};
ghost use Rattle.nq_events.specs.Parts.{each};
ghost use Rattle.nq_events.specs.WrittenHints.{pair_of, pair_in, instance_of, instance_in};
ghost use Rattle.nq_sexp.specs.Tree.{tree};
ghost use Rattle.nq_event.specs.Reads.{forms_of, read_if, value_or};
ghost use Rattle.nq_event.specs.Hints.{pair_if, no_pair, instance_at, instance_if, no_instance};

use crate::lists::{elements_of, symbol_of};
use nq_sexp::Sexp;

/// A variable, and the form of the term that replaces it.
#[derive(Clone, Copy)]
pub struct PairOutline<'a> {
    pub variable: &'a [u8],
    pub form: &'a Sexp<'a>,
}

/// An instance of an axiom, a lemma or a definition.
#[derive(Clone, Copy)]
pub struct InstanceOutline<'a> {
    pub name: &'a [u8],
    /// Each is read as a pair.
    pub pairs: &'a [Sexp<'a>],
}

fn pair_between<'a>(variable: &Sexp<'a>, form: &'a Sexp<'a>) -> Option<PairOutline<'a>>
    ensures { pair_if result ≡ pair_of (tree variable.now ∷ tree form.now ∷ []) }
{
    let variable = symbol_of(variable)?;
    Some(PairOutline { variable, form })
}

/// A pair: a list of a symbol and a form.
pub fn pair_of<'a>(form: &Sexp<'a>) -> Option<PairOutline<'a>>
    ensures { pair_if result ≡ pair_in (tree form.now) }
{
    match elements_of(form)? {
        [variable, form] => pair_between(variable, form),
        _ => None,
    }
}

fn is_pair(form: &Sexp<'_>) -> bool
    ensures { result ≡ is_some (pair_in (tree form.now)) }
{
    pair_of(form).is_some()
}

fn are_pairs(forms: &[Sexp<'_>]) -> bool
    ensures { result ≡ list_all (λ form. is_some (pair_in (tree form))) forms.now }
{
    forms.iter().all(|form| is_pair(form))
}

fn instance_between<'a>(name: &Sexp<'a>, pairs: &'a [Sexp<'a>]) -> Option<InstanceOutline<'a>>
    ensures { instance_if result ≡ instance_of (tree name.now ∷ forms_of pairs.now) }
{
    let name = symbol_of(name)?;
    if are_pairs(pairs) {
        Some(InstanceOutline { name, pairs })
    } else {
        None
    }
}

/// An instance: a list of a symbol and pairs.
pub fn instance_of<'a>(form: &Sexp<'a>) -> Option<InstanceOutline<'a>>
    ensures { instance_if result ≡ instance_in (tree form.now) }
{
    match elements_of(form)? {
        [] => None,
        [name, pairs @ ..] => instance_between(name, pairs),
    }
}

/// The instance of a form. Any other form is one of the empty name.
pub fn instance_or_none<'a>(form: &Sexp<'a>) -> InstanceOutline<'a>
    ensures { instance_at result ≡ value_or no_instance (instance_in (tree form.now)) }
{
    match instance_of(form) {
        Some(instance) => instance,
        None => InstanceOutline {
            name: b"",
            pairs: &[],
        },
    }
}

/// The variable of a pair. Any other form has the empty name.
pub fn variable_of<'a>(form: &Sexp<'a>) -> &'a [u8]
    ensures { result.now ≡ (value_or no_pair (pair_in (tree form.now))).variable }
{
    match pair_of(form) {
        Some(pair) => pair.variable,
        None => b"",
    }
}

fn is_instance(form: &Sexp<'_>) -> bool
    ensures { result ≡ is_some (instance_in (tree form.now)) }
{
    instance_of(form).is_some()
}

fn are_instances(forms: &[Sexp<'_>]) -> bool
    ensures { result ≡ list_all (λ form. is_some (instance_in (tree form))) forms.now }
{
    forms.iter().all(|form| is_instance(form))
}

/// The forms, where each is an instance.
pub fn all_instances<'a>(forms: &'a [Sexp<'a>]) -> Option<&'a [Sexp<'a>]>
    ensures { read_if instance_in no_instance result ≡ each instance_in (forms_of forms.now) }
{
    if are_instances(forms) {
        Some(forms)
    } else {
        None
    }
}
