//! What is refused in a call by its meaning, apart from its parts.
ghost use Rattle.std.specs.Prelude.{◌≡◌, Some};
ghost use Rattle.nq_form.specs.Form.{end};
ghost use Rattle.nq_language.specs.Refusals.{counted, nested_counted, known, is_constant, constant_met, constants_met, bindings_met, binding_own, is_choice, is_single, count, own_met, unless, BadAbbreviation};
ghost use Rattle.nq_sexp.specs.Tree.{trees};
ghost use Rattle.nq_abbrev.specs.Met.{met_of};
ghost use Rattle.nq_abbrev.specs.Pairs.{name_at};
ghost use Rattle.nq_abbrev.specs.Words.{word_at};

use crate::refusal::Refusal;
use crate::shapes::{are_bindings, are_clauses, are_different, bound_name, elements_of};
use crate::word::Word;
use nq_sexp::Sexp;

/// As many arguments as are wanted.
pub fn counted<'a>(f: &'a [u8], wanted: u64, given: u64) -> Option<Refusal<'a>>
    ensures { met_of result ≡ counted f.now wanted given }
{
    if given == wanted {
        None
    } else {
        Some(Refusal::WrongArity(f, given, wanted))
    }
}

/// Two arguments and more.
pub fn nested_counted<'a>(f: &'a [u8], given: u64) -> Option<Refusal<'a>>
    ensures { met_of result ≡ nested_counted f.now given }
{
    if given < 2 {
        Some(Refusal::WrongArity(f, given, 2))
    } else {
        None
    }
}

/// As many arguments as the arity, where there is one.
pub fn known<'a>(f: &'a [u8], arity: Option<u64>, given: u64) -> Option<Refusal<'a>>
    ensures { met_of result ≡ known f.now arity given }
{
    match arity {
        Some(wanted) => counted(f, wanted, given),
        None => Some(Refusal::UnknownFunction(f)),
    }
}

/// Is a symbol T, F or NIL?
fn is_constant(name: &[u8]) -> bool
    ensures { result ≡ is_constant name.now }
{
    name == b"T".as_slice() || name == b"F".as_slice() || name == b"NIL".as_slice()
}

fn constant_refusal<'a>(name: Option<&'a [u8]>) -> Option<Refusal<'a>>
    ensures { met_of result ≡ constant_met (name_at name.entry) }
{
    match name {
        Some(name) => {
            if is_constant(name) {
                Some(Refusal::BadVariable(name))
            } else {
                None
            }
        }
        None => None,
    }
}

/// The first constant that is bound.
fn constants_refusal<'a>(forms: &'a [Sexp<'a>]) -> Option<Refusal<'a>>
    ensures { met_of result ≡ constants_met (trees forms.now end) }
{
    for form in forms.iter() {
        if let Some(refusal) = constant_refusal(bound_name(form)) {
            return Some(refusal);
        }
    }
    None
}

/// What is refused in the bindings of LET.
pub fn bindings_refusal<'a>(forms: &'a [Sexp<'a>]) -> Option<Refusal<'a>>
    ensures { met_of result ≡ bindings_met (trees forms.now end) }
{
    if are_bindings(forms) && are_different(forms) {
        constants_refusal(forms)
    } else {
        Some(Refusal::BadAbbreviation(b"LET"))
    }
}

/// Is there a selector, and behind it clauses of which the last is for all other keys?
fn is_choice(forms: &[Sexp<'_>]) -> bool
    ensures { result ≡ is_choice (trees forms.now end) }
{
    match forms {
        [] => false,
        [_, clauses @ ..] => are_clauses(clauses, b"OTHERWISE"),
    }
}

/// What is refused in LET, apart from the forms in it.
fn binding_refusal<'a>(forms: &'a [Sexp<'a>]) -> Option<Refusal<'a>>
    ensures { met_of result ≡ binding_own (trees forms.now end) }
{
    match forms {
        [bindings, _] => match elements_of(bindings) {
            Some(bindings) => bindings_refusal(bindings),
            None => Some(Refusal::BadAbbreviation(b"LET")),
        },
        [] | [_] => Some(Refusal::BadAbbreviation(b"LET")),
        [_, _, _, ..] => Some(Refusal::BadAbbreviation(b"LET")),
    }
}

/// How many forms there are.
#[tactic(auto, using(crate::proofs::PairLemmas::count_trees))]
fn count(forms: &[Sexp<'_>]) -> u64
    ensures { result ≡ count (trees forms.now end) }
{
    forms.len() as u64
}

/// Is there just one form?
fn is_single(forms: &[Sexp<'_>]) -> bool
    ensures { result ≡ is_single (trees forms.now end) }
{
    match forms {
        [_] => true,
        [] => false,
        [_, _, ..] => false,
    }
}

/// What is refused in a call by its meaning, apart from its parts.
pub fn own_refusal<'a>(
    word: Word<'a>,
    arity: Option<u64>,
    f: &'a [u8],
    arguments: &'a [Sexp<'a>],
) -> Option<Refusal<'a>>
    ensures { met_of result ≡ own_met (word_at word.entry) arity f.now (trees arguments.now end) }
{
    let given = count(arguments);
    match word {
        Word::Listing => None,
        Word::Conditional => unless(are_clauses(arguments, b"T"), b"COND"),
        Word::Choice => unless(is_choice(arguments), b"CASE"),
        Word::Binding => binding_refusal(arguments),
        Word::Quotation => unless(is_single(arguments), b"QUOTE"),
        Word::Nesting => nested_counted(f, given),
        Word::Path(_) => counted(f, 1, given),
        Word::Outside => Some(Refusal::OutOfScope(f)),
        Word::Plain => known(f, arity, given),
    }
}

/// An abbreviation of another shape is refused.
fn unless<'a>(is_shaped: bool, name: &'a [u8]) -> Option<Refusal<'a>>
    ensures { met_of result ≡ unless is_shaped (Some (BadAbbreviation name.now)) }
{
    if is_shaped {
        None
    } else {
        Some(Refusal::BadAbbreviation(name))
    }
}
