//! The words of events.
ghost use Rattle.std.specs.Prelude.{◌≡◌, Some, None};
ghost use Rattle.std.specs.Option.{option_map};
ghost use Rattle.nq_events.specs.Outlines.{is_skipped, is_left_out, reader_of, other_outline};
ghost use Rattle.nq_event.specs.Outlines.{outlined, reader_as};

use crate::outline::Outline;
use crate::refusal::Refusal;

/// The word of an event that the program reads.
#[derive(Clone, Copy)]
pub enum EventWord {
    BootStrap,
    AddShell,
    Dcl,
    Defn,
    AddAxiom,
    ProveLemma,
    Toggle,
    Disable,
    Enable,
    Undo,
}

/// The event of this word.
pub fn event_word(word: &[u8]) -> Option<EventWord>
    ensures { option_map reader_as result ≡ reader_of word.now }
{
    if word == b"BOOT-STRAP".as_slice() {
        Some(EventWord::BootStrap)
    } else if word == b"ADD-SHELL".as_slice() {
        Some(EventWord::AddShell)
    } else if word == b"DCL".as_slice() {
        Some(EventWord::Dcl)
    } else if word == b"DEFN".as_slice() {
        Some(EventWord::Defn)
    } else if word == b"ADD-AXIOM".as_slice() {
        Some(EventWord::AddAxiom)
    } else if word == b"PROVE-LEMMA".as_slice() {
        Some(EventWord::ProveLemma)
    } else if word == b"TOGGLE".as_slice() {
        Some(EventWord::Toggle)
    } else if word == b"DISABLE".as_slice() {
        Some(EventWord::Disable)
    } else if word == b"ENABLE".as_slice() {
        Some(EventWord::Enable)
    } else if word == b"UNDO-BACK-THROUGH".as_slice() {
        Some(EventWord::Undo)
    } else {
        None
    }
}

/// Are the forms of this word passed over?
fn is_skipped(word: &[u8]) -> bool
    ensures { result ≡ is_skipped word.now }
{
    word == b"SETQ".as_slice()
        || word == b"COMPILE-UNCOMPILED-DEFNS".as_slice()
        || word == b"MAKE-LIB".as_slice()
        || word == b"IN-PACKAGE".as_slice()
}

/// Does the program leave out the events of this word?
fn is_left_out(word: &[u8]) -> bool
    ensures { result ≡ is_left_out word.now }
{
    word == b"NOTE-LIB".as_slice()
        || word == b"CONSTRAIN".as_slice()
        || word == b"FUNCTIONALLY-INSTANTIATE".as_slice()
        || word == b"BREAK-LEMMA".as_slice()
        || word == b"UNBREAK-LEMMA".as_slice()
        || word == b"UNDO-NAME".as_slice()
        || word == b"DEFTHEORY".as_slice()
}

/// The outline of a form whose word is not that of an event.
pub fn other_outline<'a>(word: &'a [u8]) -> Result<Outline<'a>, Refusal<'a>>
    ensures { outlined result ≡ other_outline word.now }
{
    if is_skipped(word) {
        Ok(Outline::Skipped)
    } else if is_left_out(word) {
        Err(Refusal::OutOfScope(word))
    } else {
        Err(Refusal::NotAnEvent)
    }
}
