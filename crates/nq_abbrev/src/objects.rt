//! What is refused in quoted objects.
ghost use Rattle.std.specs.Prelude.{◌≡◌, drop};
ghost use Rattle.nq_form.specs.Form.{end};
ghost use Rattle.nq_language.specs.Refusals.{is_escape, object_met, objects_met};
ghost use Rattle.nq_sexp.specs.Tree.{tree, trees, tail_of};
ghost use Rattle.nq_abbrev.specs.Met.{met_of};
ghost use Rattle.nq_abbrev.specs.Parts.{key_met};

use crate::refusal::Refusal;
use crate::shapes::pair_of;
use nq_sexp::Sexp;

/// Does a name begin with `*1*`?
fn begins_escape(name: &[u8]) -> bool
    ensures { result ≡ is_escape name.now }
{
    match name {
        [first, second, third, ..] => *first == b'*' && *second == b'1' && *third == b'*',
        _ => false,
    }
}

/// The first refusal in a quoted object.
#[tactic(auto, using(nq_sexp::proofs::Trees::tree_rules))]
pub fn object_refusal<'a>(form: &Sexp<'a>) -> Option<Refusal<'a>>
    ensures { met_of result ≡ object_met (tree form.now) }
{
    match form {
        Sexp::Symbol(name) => {
            if begins_escape(name) {
                Some(Refusal::OutOfScope(name))
            } else {
                None
            }
        }
        Sexp::Numeral(_, _) => None,
        Sexp::Str(_) => Some(Refusal::OutOfScope(b"STRING")),
        Sexp::Quote(inner) => object_refusal(inner),
        Sexp::List(items, tail) => {
            for item in items.iter() {
                if let Some(refusal) = object_refusal(item) {
                    return Some(refusal);
                }
            }
            match tail {
                None => None,
                Some(tail) => object_refusal(tail),
            }
        }
    }
}

/// The first refusal in the arguments of QUOTE.
fn objects_refusal<'a>(forms: &'a [Sexp<'a>]) -> Option<Refusal<'a>>
    ensures { met_of result ≡ objects_met (trees forms.now end) }
{
    for form in forms.iter() {
        if let Some(refusal) = object_refusal(form) {
            return Some(refusal);
        }
    }
    None
}

/// The first refusal in the arguments of a call of QUOTE.
pub fn arguments_refusal<'a>(items: &'a [Sexp<'a>]) -> Option<Refusal<'a>>
    ensures { met_of result ≡ objects_met (trees (drop 1 items.now) end) }
{
    match items {
        [] => None,
        [_, arguments @ ..] => objects_refusal(arguments),
    }
}

/// The first refusal in the key of a clause.
#[tactic(auto, using(nq_sexp::proofs::Trees::tree_rules))]
pub fn key_refusal<'a>(clause: &Sexp<'a>) -> Option<Refusal<'a>>
    ensures { met_of result ≡ key_met (tree clause.now) }
{
    match pair_of(clause) {
        Some(pair) => object_refusal(pair.first),
        None => None,
    }
}
