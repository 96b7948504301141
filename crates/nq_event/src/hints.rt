//! Hints: their words, and the shapes of what stands behind them.
ghost use Rattle.std.specs.Prelude.{◌≡◌, ◌∷◌, [], Some, None, is_some, if◌then◌else◌};
ghost use Rattle.std.specs.List.{list_all};
ghost use Rattle.std.specs.Option.{option_and_then};
ghost use Rattle.nq_events.specs.Parts.{each, proper, symbol_in};
ghost use Rattle.nq_events.specs.WrittenHints.{HintKind as WrittenKind, single, switched, kind_of, hint_of, hint_in, hints_in};
ghost use Rattle.nq_sexp.specs.Tree.{tree, trees, tail_of};
ghost use Rattle.nq_event.specs.Reads.{forms_of, read_if, value_or};
ghost use Rattle.nq_event.specs.Hints.{form_if, kind_at, kind_if, hint_if, no_hint};

use crate::instances::all_instances;
use crate::lists::{are_symbols, elements_of, symbol_of};
use nq_sexp::Sexp;

/// What a hint of the right shape says.
#[derive(Clone, Copy)]
pub enum HintKind<'a> {
    /// Each form is read as an instance.
    Use(&'a [Sexp<'a>]),
    /// Symbols.
    Enable(&'a [Sexp<'a>]),
    /// Symbols.
    Disable(&'a [Sexp<'a>]),
    Expand(&'a [Sexp<'a>]),
    Induct(&'a Sexp<'a>),
    DoNotInduct,
    DoNotGeneralize,
    /// Symbols.
    HandsOff(&'a [Sexp<'a>]),
    NoArithmetic,
    Time,
}

/// A hint with its word. It has no kind where the word is unknown, or what stands behind it has another shape.
#[derive(Clone, Copy)]
pub struct HintOutline<'a> {
    pub word: &'a [u8],
    pub kind: Option<HintKind<'a>>,
}

/// The forms, where each is a symbol.
fn all_symbols<'a>(forms: &'a [Sexp<'a>]) -> Option<&'a [Sexp<'a>]>
    ensures { read_if symbol_in [] result ≡ each symbol_in (forms_of forms.now) }
{
    if are_symbols(forms) {
        Some(forms)
    } else {
        None
    }
}

/// The form that stands alone.
fn single<'a>(forms: &'a [Sexp<'a>]) -> Option<&'a Sexp<'a>>
    ensures { form_if result ≡ single (forms_of forms.now) }
{
    match forms {
        [form] => Some(form),
        _ => None,
    }
}

/// Is a form the symbol T?
fn is_true(form: &Sexp<'_>) -> bool
    ensures { (kind : WrittenKind) → switched kind (tree form.now ∷ []) ≡ (if result then Some kind else None) }
{
    match symbol_of(form) {
        Some(name) => name == b"T".as_slice(),
        None => false,
    }
}

/// The hint of this kind, where its one argument is T.
fn switched<'a>(kind: HintKind<'a>, forms: &[Sexp<'a>]) -> Option<HintKind<'a>>
    ensures { kind_if result ≡ switched (kind_at kind.entry) (forms_of forms.now) }
{
    match forms {
        [form] => if is_true(form) { Some(kind) } else { None },
        _ => None,
    }
}

/// The hint of this word with these arguments.
fn kind_of<'a>(word: &[u8], forms: &'a [Sexp<'a>]) -> Option<HintKind<'a>>
    ensures { kind_if result ≡ kind_of word.now (forms_of forms.now) }
{
    if word == b"USE".as_slice() {
        all_instances(forms).map(HintKind::Use)
    } else if word == b"ENABLE".as_slice() {
        all_symbols(forms).map(HintKind::Enable)
    } else if word == b"DISABLE".as_slice() {
        all_symbols(forms).map(HintKind::Disable)
    } else if word == b"EXPAND".as_slice() {
        Some(HintKind::Expand(forms))
    } else if word == b"INDUCT".as_slice() {
        single(forms).map(HintKind::Induct)
    } else if word == b"DO-NOT-INDUCT".as_slice() {
        switched(HintKind::DoNotInduct, forms)
    } else if word == b"DO-NOT-GENERALIZE".as_slice() {
        switched(HintKind::DoNotGeneralize, forms)
    } else if word == b"HANDS-OFF".as_slice() {
        all_symbols(forms).map(HintKind::HandsOff)
    } else if word == b"NO-BUILT-IN-ARITH".as_slice() {
        switched(HintKind::NoArithmetic, forms)
    } else if word == b"TIME".as_slice() {
        single(forms).map(|_| HintKind::Time)
    } else {
        None
    }
}

/// The hint of this word, unless a dot stands in it.
fn undotted_kind<'a>(
    word: &[u8],
    forms: &'a [Sexp<'a>],
    tail: &Option<&Sexp<'a>>,
) -> Option<HintKind<'a>>
    ensures { kind_if result ≡ option_and_then (kind_of word.now) (proper (trees forms.now (tail_of tail.now))) }
{
    match tail {
        None => kind_of(word, forms),
        Some(_) => None,
    }
}

/// The hint of a list.
fn list_hint<'a>(forms: &'a [Sexp<'a>], tail: &Option<&Sexp<'a>>) -> Option<HintOutline<'a>>
    ensures { hint_if result ≡ hint_of (trees forms.now (tail_of tail.now)) }
{
    match forms {
        [] => None,
        [first, arguments @ ..] => {
            let word = symbol_of(first)?;
            let kind = undotted_kind(word, arguments, tail);
            Some(HintOutline { word, kind })
        }
    }
}

/// A hint: a list that begins with a symbol.
#[tactic(auto, using(nq_sexp::proofs::Trees::tree_rules))]
pub fn hint_of<'a>(form: &Sexp<'a>) -> Option<HintOutline<'a>>
    ensures { hint_if result ≡ hint_in (tree form.now) }
{
    match form {
        Sexp::List(items, tail) => list_hint(items, tail),
        Sexp::Symbol(_) => None,
        Sexp::Numeral(_, _) => None,
        Sexp::Str(_) => None,
        Sexp::Quote(_) => None,
    }
}

/// The word of a list that is a hint. Any other list has the empty one.
fn list_word<'a>(forms: &'a [Sexp<'a>], tail: &Option<&Sexp<'a>>) -> &'a [u8]
    ensures { result.now ≡ (value_or no_hint (hint_of (trees forms.now (tail_of tail.now)))).word }
{
    let _ = tail;
    match forms {
        [] => b"",
        [first, ..] => match symbol_of(first) {
            Some(word) => word,
            None => b"",
        },
    }
}

/// The word of a hint. Any other form has the empty one.
#[tactic(auto, using(nq_sexp::proofs::Trees::tree_rules))]
pub fn word_of<'a>(form: &Sexp<'a>) -> &'a [u8]
    ensures { result.now ≡ (value_or no_hint (hint_in (tree form.now))).word }
{
    match form {
        Sexp::List(items, tail) => list_word(items, tail),
        Sexp::Symbol(_) => b"",
        Sexp::Numeral(_, _) => b"",
        Sexp::Str(_) => b"",
        Sexp::Quote(_) => b"",
    }
}

fn is_hint(form: &Sexp<'_>) -> bool
    ensures { result ≡ is_some (hint_in (tree form.now)) }
{
    hint_of(form).is_some()
}

fn are_hints(forms: &[Sexp<'_>]) -> bool
    ensures { result ≡ list_all (λ form. is_some (hint_in (tree form))) forms.now }
{
    forms.iter().all(|form| is_hint(form))
}

/// The hints of a list.
pub fn hints_of<'a>(form: &Sexp<'a>) -> Option<&'a [Sexp<'a>]>
    ensures { read_if hint_in no_hint result ≡ hints_in (tree form.now) }
{
    let forms = elements_of(form)?;
    if are_hints(forms) { Some(forms) } else { None }
}
