//! What an event form asks for, its terms still forms.
ghost use Rattle.std.specs.Prelude.{◌≡◌, ◌∷◌, []};
ghost use Rattle.nq_form.specs.Form.{listed};
ghost use Rattle.nq_events.specs.Outlines.{reader_of, outline_by, outline_of_list, outline};
ghost use Rattle.nq_sexp.specs.Tree.{tree, trees, tail_of};
ghost use Rattle.nq_event.specs.Reads.{forms_of};
ghost use Rattle.nq_event.specs.Outlines.{outlined, reader_as};

use crate::formulas::{add_axiom_outline, prove_lemma_outline};
use crate::functions::{dcl_outline, defn_outline};
use crate::history_events::{boot_strap_outline, switch_outline, toggle_outline, undo_outline};
use crate::lists::symbol_of;
use crate::refusal::{EventPart, Refusal};
use crate::shell_events::add_shell_outline;
use crate::shells::ShellOutline;
use crate::words::{EventWord, event_word, other_outline};
use nq_sexp::Sexp;

/// An event as it is written: its parts have their shapes, and its terms are still forms.
#[derive(Clone, Copy)]
pub enum Outline<'a> {
    BootStrap,
    AddShell(ShellOutline<'a>),
    /// A name, and its formals, which are symbols.
    Dcl(&'a [u8], &'a [Sexp<'a>]),
    /// A name, its formals, which are symbols, its body, and forms each of which is read as a measure.
    Defn(&'a [u8], &'a [Sexp<'a>], &'a Sexp<'a>, &'a [Sexp<'a>]),
    /// A name, forms each of which is read as a type, and a term.
    AddAxiom(&'a [u8], &'a [Sexp<'a>], &'a Sexp<'a>),
    /// A name, forms each of which is read as a type, a term, and forms each of which is read as a hint.
    ProveLemma(&'a [u8], &'a [Sexp<'a>], &'a Sexp<'a>, &'a [Sexp<'a>]),
    /// A new name, an old one, and whether it is disabled.
    Toggle(&'a [u8], &'a [u8], bool),
    /// The old name of a toggle whose name is still to be made up, and whether it is disabled.
    Switch(&'a [u8], bool),
    /// The name of the event back through which is undone.
    Undo(&'a [u8]),
    Skipped,
}

/// The outline of an event of this word, by what stands behind it.
fn event_outline<'a>(word: EventWord, forms: &'a [Sexp<'a>]) -> Result<Outline<'a>, Refusal<'a>>
    ensures { outlined result ≡ reader_as word (forms_of forms.now) }
{
    match word {
        EventWord::BootStrap => boot_strap_outline(forms),
        EventWord::AddShell => add_shell_outline(forms),
        EventWord::Dcl => dcl_outline(forms),
        EventWord::Defn => defn_outline(forms),
        EventWord::AddAxiom => add_axiom_outline(forms),
        EventWord::ProveLemma => prove_lemma_outline(forms),
        EventWord::Toggle => toggle_outline(forms),
        EventWord::Disable => switch_outline(forms, true),
        EventWord::Enable => switch_outline(forms, false),
        EventWord::Undo => undo_outline(forms),
    }
}

/// The outline of a list that begins with this word.
fn outline_by<'a>(
    word: &'a [u8],
    forms: &'a [Sexp<'a>],
    tail: &Option<&Sexp<'a>>,
) -> Result<Outline<'a>, Refusal<'a>>
    ensures { outlined result ≡ outline_by word.now (reader_of word.now) (trees forms.now (tail_of tail.now)) }
{
    match event_word(word) {
        Some(event) => match tail {
            None => event_outline(event, forms),
            Some(_) => Err(Refusal::BadShape(EventPart::Form)),
        },
        None => other_outline(word),
    }
}

/// The outline of a list.
fn list_outline<'a>(
    forms: &'a [Sexp<'a>],
    tail: &Option<&Sexp<'a>>,
) -> Result<Outline<'a>, Refusal<'a>>
    ensures { outlined result ≡ outline_of_list (trees forms.now (tail_of tail.now)) }
{
    match forms {
        [] => Err(Refusal::NotAnEvent),
        [first, rest @ ..] => match symbol_of(first) {
            Some(word) => outline_by(word, rest, tail),
            None => Err(Refusal::NotAnEvent),
        },
    }
}

/// The outline of an event form, or the first refusal for its word and for the shapes of its parts: 20, 12 or 21. It takes
/// no memory.
#[tactic(auto, using(nq_sexp::proofs::Trees::tree_rules), unfolding(nq_events::specs::Outlines::outline))]
pub fn outline_of<'a>(form: &Sexp<'a>) -> Result<Outline<'a>, Refusal<'a>>
    ensures { outlined result ≡ outline (tree form.now) }
{
    match form {
        Sexp::List(items, tail) => list_outline(items, tail),
        Sexp::Symbol(_) => Err(Refusal::NotAnEvent),
        Sexp::Numeral(_, _) => Err(Refusal::NotAnEvent),
        Sexp::Str(_) => Err(Refusal::NotAnEvent),
        Sexp::Quote(_) => Err(Refusal::NotAnEvent),
    }
}
