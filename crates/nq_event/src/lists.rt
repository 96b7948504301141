//! Lists, symbols and names.
ghost use Rattle.std.specs.Prelude.{◌≡◌, is_some, [], nat_le, length};
ghost use Rattle.std.specs.List.{list_all};
ghost use Rattle.nq_events.specs.Parts.{elements, symbol_in, symbols_in, name_in};
ghost use Rattle.nq_sexp.specs.Tree.{tree};
ghost use Rattle.nq_event.specs.Reads.{elements_at, name_at, read_if, value_or};

use nq_sexp::Sexp;

/// The greatest number of bytes in the name of a new event or function.
const LONGEST_NAME: usize = 240;

/// The elements of a list without a dot. The symbol NIL is the empty list.
#[tactic(auto, using(nq_sexp::proofs::Trees::tree_rules))]
pub fn elements_of<'a>(form: &Sexp<'a>) -> Option<&'a [Sexp<'a>]>
    ensures { elements_at result ≡ elements (tree form.now) }
{
    match form {
        Sexp::Symbol(name) => {
            if *name == b"NIL".as_slice() {
                Some(&[])
            } else {
                None
            }
        }
        Sexp::List(items, tail) => match tail {
            None => Some(items),
            Some(_) => None,
        },
        Sexp::Numeral(_, _) => None,
        Sexp::Str(_) => None,
        Sexp::Quote(_) => None,
    }
}

/// The name of a symbol.
#[tactic(auto, using(nq_sexp::proofs::Trees::tree_rules))]
pub fn symbol_of<'a>(form: &Sexp<'a>) -> Option<&'a [u8]>
    ensures { name_at result ≡ symbol_in (tree form.now) }
{
    match form {
        Sexp::Symbol(name) => Some(name),
        Sexp::Numeral(_, _) => None,
        Sexp::Str(_) => None,
        Sexp::Quote(_) => None,
        Sexp::List(_, _) => None,
    }
}

/// The name of a symbol. Any other form has the empty name.
pub fn text_of<'a>(form: &Sexp<'a>) -> &'a [u8]
    ensures { result.now ≡ value_or [] (symbol_in (tree form.now)) }
{
    match symbol_of(form) {
        Some(name) => name,
        None => b"",
    }
}

/// Is a form a symbol?
fn is_symbol(form: &Sexp<'_>) -> bool
    ensures { result ≡ is_some (symbol_in (tree form.now)) }
{
    symbol_of(form).is_some()
}

/// Are the forms symbols?
pub fn are_symbols(forms: &[Sexp<'_>]) -> bool
    ensures { result ≡ list_all (λ form. is_some (symbol_in (tree form))) forms.now }
{
    forms.iter().all(|form| is_symbol(form))
}

/// The symbols of a list.
pub fn symbols_of<'a>(form: &Sexp<'a>) -> Option<&'a [Sexp<'a>]>
    ensures { read_if symbol_in [] result ≡ symbols_in (tree form.now) }
{
    let forms = elements_of(form)?;
    if are_symbols(forms) {
        Some(forms)
    } else {
        None
    }
}

/// The name of a new event or function: a symbol that isn't too long.
pub fn name_of<'a>(form: &Sexp<'a>) -> Option<&'a [u8]>
    ensures { name_at result ≡ name_in (tree form.now) }
{
    let name = symbol_of(form)?;
    if name.len() <= LONGEST_NAME {
        Some(name)
    } else {
        None
    }
}
