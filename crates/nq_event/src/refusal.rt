//! Why a form is refused.
ghost use Rattle.std.specs.Prelude.{◌≡◌, IfOk, map};
ghost use Rattle.nq_events.specs.Refusals.{code_of, part_word, words_of};
ghost use Rattle.nq_event.specs.Outlines.{part_of, refusal_at};

use std::alloc::{AllocError, Global};

/// The part of an event that has a wrong shape.
#[derive(Clone, Copy, Debug, PartialEq, Eq)]
pub enum EventPart {
    /// The count of the elements, or a dot, or the theory of a BOOT-STRAP.
    Form,
    Name,
    Formals,
    Types,
    Measure,
    Hints,
    /// The parts of a shell.
    Parts,
}

impl EventPart {
    /// The word that tells the part in a report.
    pub fn word(&self) -> &'static [u8]
        ensures { result.now ≡ part_word (part_of self.now) }
    {
        match self {
            EventPart::Form => b"form",
            EventPart::Name => b"name",
            EventPart::Formals => b"formals",
            EventPart::Types => b"types",
            EventPart::Measure => b"measure",
            EventPart::Hints => b"hints",
            EventPart::Parts => b"parts",
        }
    }
}

/// Why a form is refused, with the name that its report shows.
#[derive(Clone, Copy, Debug, PartialEq, Eq)]
pub enum Refusal<'a> {
    /// The form is no event.
    NotAnEvent,
    /// A part has a wrong shape.
    BadShape(EventPart),
    /// The program leaves out the events of this word.
    OutOfScope(&'a [u8]),
    /// A hint of this word is bad.
    BadHint(&'a [u8]),
}

impl<'a> Refusal<'a> {
    /// The code that its report shows: 12, 20, 21 or 22.
    pub fn code(&self) -> u16
        ensures { result ≡ code_of (refusal_at self.now) }
    {
        match self {
            Refusal::NotAnEvent => 20,
            Refusal::BadShape(_) => 21,
            Refusal::OutOfScope(_) => 12,
            Refusal::BadHint(_) => 22,
        }
    }

    /// The words that its report shows behind the code. It fails only for want of memory.
    pub fn words(&self, alloc: Global) -> Result<Vec<Vec<u8>>, AllocError>
        ensures { IfOk result (λ words. map (λ word. word.items) words.items ≡ words_of (refusal_at self.now)) }
    {
        match self {
            Refusal::NotAnEvent => copies_of(alloc, &[b"NotAnEvent".as_slice()]),
            Refusal::BadShape(part) => copies_of(alloc, &[b"BadShape".as_slice(), part.word()]),
            Refusal::OutOfScope(name) => copies_of(alloc, &[b"OutOfScope".as_slice(), name]),
            Refusal::BadHint(word) => copies_of(alloc, &[b"BadHint".as_slice(), word]),
        }
    }
}

/// Copies of these texts, in their order.
fn copies_of(alloc: Global, texts: &[&[u8]]) -> Result<Vec<Vec<u8>>, AllocError>
    ensures { IfOk result (λ words. map (λ word. word.items) words.items ≡ map (λ text. text.now) texts.now) }
{
    let mut words = Vec::new(alloc);
    for text in texts {
        let word = Vec::from_slice(alloc, text)?;
        words.push(word)?;
    }
    Ok(words)
}
