//! The shapes of abbreviations.
ghost use Rattle.std.specs.Prelude.{◌≡◌, Some, false, MatchOption};
ghost use Rattle.nq_form.specs.Form.{end};
ghost use Rattle.nq_language.specs.Refusals.{is_pair, is_pair_of, are_clauses, bound_name, are_bindings, is_same_name, is_bound_in, are_different};
ghost use Rattle.nq_sexp.specs.Tree.{tree, trees};
ghost use Rattle.nq_abbrev.specs.Pairs.{IsPairOf, name_at, symbol_name};
ghost use Rattle.nq_abbrev.specs.Parts.{elements_at, elements_of};

use nq_sexp::Sexp;

/// A list of two forms.
#[derive(Clone, Copy)]
pub struct Pair<'a> {
    pub first: &'a Sexp<'a>,
    pub second: &'a Sexp<'a>,
}

/// The two forms of a list of two.
#[tactic(auto, using(nq_sexp::proofs::Trees::tree_rules))]
pub fn pair_of<'a>(form: &Sexp<'a>) -> Option<Pair<'a>>
    ensures { MatchOption result (is_pair (tree form.now) ≡ false) (IsPairOf (tree form.now)) }
{
    match form {
        Sexp::Symbol(_) => None,
        Sexp::Numeral(_, _) => None,
        Sexp::Str(_) => None,
        Sexp::Quote(_) => None,
        Sexp::List(items, tail) => match tail {
            None => match items {
                [first, second] => Some(Pair { first, second }),
                [] | [_] => None,
                [_, _, _, ..] => None,
            },
            Some(_) => None,
        },
    }
}

/// The name of a symbol.
#[tactic(auto, using(nq_sexp::proofs::Trees::tree_rules))]
pub fn symbol_of<'a>(form: &Sexp<'a>) -> Option<&'a [u8]>
    ensures { name_at result ≡ symbol_name (tree form.now) }
{
    match form {
        Sexp::Symbol(name) => Some(name),
        Sexp::Numeral(_, _) => None,
        Sexp::Str(_) => None,
        Sexp::Quote(_) => None,
        Sexp::List(_, _) => None,
    }
}

/// The variable of a binding.
pub fn bound_name<'a>(form: &Sexp<'a>) -> Option<&'a [u8]>
    ensures { name_at result ≡ bound_name (tree form.now) }
{
    match pair_of(form) {
        Some(pair) => symbol_of(pair.first),
        None => None,
    }
}

/// Is each form a binding?
#[tactic(auto, using(nq_sexp::proofs::Trees::tree_rules))]
pub fn are_bindings(forms: &[Sexp<'_>]) -> bool
    ensures { result ≡ are_bindings (trees forms.now end) }
{
    for form in forms.iter() {
        if bound_name(form).is_none() {
            return false;
        }
    }
    true
}

fn is_same_name(left: Option<&[u8]>, right: Option<&[u8]>) -> bool
    ensures { result ≡ is_same_name (name_at left.entry) (name_at right.entry) }
{
    match left {
        Some(left) => match right {
            Some(right) => left == right,
            None => false,
        },
        None => false,
    }
}

/// Does one of the bindings have this variable?
fn is_bound_in(name: Option<&[u8]>, forms: &[Sexp<'_>]) -> bool
    ensures { result ≡ is_bound_in (name_at name.entry) (trees forms.now end) }
{
    for form in forms.iter() {
        if is_same_name(name, bound_name(form)) {
            return true;
        }
    }
    false
}

/// Do the bindings have different variables?
pub fn are_different(forms: &[Sexp<'_>]) -> bool
    ensures { result ≡ are_different (trees forms.now end) }
{
    let mut rest = forms;
    while let [first, more @ ..] = rest {
        if is_bound_in(bound_name(first), more) {
            return false;
        }
        rest = more;
    }
    true
}

/// Is a form a list of two forms?
pub fn is_pair(form: &Sexp<'_>) -> bool
    ensures { result ≡ is_pair (tree form.now) }
{
    pair_of(form).is_some()
}

fn is_symbol(form: &Sexp<'_>, name: &[u8]) -> bool
    ensures { result ≡ is_same_name (symbol_name (tree form.now)) (Some name.now) }
{
    is_same_name(symbol_of(form), Some(name))
}

fn is_pair_of(form: &Sexp<'_>, name: &[u8]) -> bool
    ensures { result ≡ is_pair_of name.now (tree form.now) }
{
    match pair_of(form) {
        Some(pair) => is_symbol(pair.first, name),
        None => false,
    }
}

/// Are the forms clauses of two forms each, of which the last begins with this symbol?
pub fn are_clauses(forms: &[Sexp<'_>], name: &[u8]) -> bool
    ensures { result ≡ are_clauses name.now (trees forms.now end) }
{
    let mut rest = forms;
    loop {
        match rest {
            [] => return false,
            [last] => return is_pair_of(last, name),
            [first, more @ ..] => {
                if !is_pair(first) {
                    return false;
                }
                rest = more;
            }
        }
    }
}

/// The elements of a list without a dot.
#[tactic(auto, using(nq_sexp::proofs::Trees::tree_rules))]
pub fn elements_of<'a>(form: &Sexp<'a>) -> Option<&'a [Sexp<'a>]>
    ensures { elements_at result ≡ elements_of (tree form.now) }
{
    match form {
        Sexp::List(items, tail) => match tail {
            None => Some(items),
            Some(_) => None,
        },
        Sexp::Symbol(_) => None,
        Sexp::Numeral(_, _) => None,
        Sexp::Str(_) => None,
        Sexp::Quote(_) => None,
    }
}
