// The word and the name in the header of a form's report.
ghost use Rattle.std.specs.Prelude.{◌≡◌, List, Option};
ghost use Rattle.std.specs.Option.{option_and_then};
ghost use Rattle.std.specs.List.{list_any};
ghost use Rattle.std.specs.Str.{bytes_eq};
ghost use Rattle.nq_sexp.specs.Tree.{tree};
ghost use Rattle.nq_comment.specs.ReportViews.{text_of};
ghost use Rattle.nq_answers.specs.Headers.{front_elements, is_named, name_of, second_symbol_in, word_of};

use crate::form::{front_elements, symbol_in};
use nq_sexp::Sexp;

/// The words of the events whose header shows a name: all but BOOT-STRAP.
const NAMED_EVENTS: [&[u8]; 9] = [
    b"ADD-SHELL",
    b"DCL",
    b"DEFN",
    b"ADD-AXIOM",
    b"PROVE-LEMMA",
    b"TOGGLE",
    b"DISABLE",
    b"ENABLE",
    b"UNDO-BACK-THROUGH",
];

/// The word: the symbol that the list begins with, dotted or not.
pub(crate) fn word_of<'a>(form: &Sexp<'a>) -> Option<&'a [u8]>
    ensures { text_of result ≡ word_of (tree form.now) }
{
    match front_elements(form) {
        Some([head, ..]) => symbol_in(head),
        _ => None,
    }
}

/// The name: the second element of an event, where it is a symbol.
pub(crate) fn name_of<'a>(form: &Sexp<'a>) -> Option<&'a [u8]>
    ensures { text_of result ≡ name_of (tree form.now) }
{
    match word_of(form) {
        Some(word) if is_named(word) => second_symbol(form),
        _ => None,
    }
}

fn second_symbol<'a>(form: &Sexp<'a>) -> Option<&'a [u8]>
    ensures { text_of result ≡ option_and_then second_symbol_in (front_elements (tree form.now)) }
{
    match front_elements(form) {
        Some([_, second, ..]) => symbol_in(second),
        _ => None,
    }
}

fn is_named(word: &[u8]) -> bool
    ensures { result ≡ is_named word.now }
{
    is_event_among(&NAMED_EVENTS, word)
}

fn is_event_among(events: &[&[u8]], word: &[u8]) -> bool
    ensures { result ≡ list_any (λ event. bytes_eq event.now word.now) events.now }
{
    events.iter().any(|event| *event == word)
}
