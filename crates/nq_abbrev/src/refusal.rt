//! Why a form is refused.
ghost use Rattle.std.specs.Prelude.{◌≡◌, IfOk, map};
ghost use Rattle.nq_language.specs.Refusals.{WrongArity, code_of, words_of};
ghost use Rattle.nq_abbrev.specs.Met.{refusal_of};

use itoa::Buffer;
use std::alloc::{AllocError, Global};

/// The first refusal that is met in a form, with the names that its report shows.
#[derive(Clone, Copy, Debug, PartialEq, Eq)]
pub enum Refusal<'a> {
    /// A call of a name that is no function.
    UnknownFunction(&'a [u8]),
    /// A call with another count of arguments than is wanted: the function, how many are given, and how many are wanted.
    WrongArity(&'a [u8], u64, u64),
    /// A function that this logic leaves out, a string, or an escape inside a quote.
    OutOfScope(&'a [u8]),
    /// An abbreviation of another shape, or a list that is no call.
    BadAbbreviation(&'a [u8]),
    /// A constant that LET binds.
    BadVariable(&'a [u8]),
    /// A term of too many nodes, or too deep.
    TooLarge,
}

impl<'a> Refusal<'a> {
    /// The code that its report shows, from 10 to 15.
    pub fn code(&self) -> u16
        ensures { result ≡ code_of (refusal_of self.now) }
    {
        match self {
            Refusal::UnknownFunction(_) => 10,
            Refusal::WrongArity(_, _, _) => 11,
            Refusal::OutOfScope(_) => 12,
            Refusal::BadAbbreviation(_) => 13,
            Refusal::BadVariable(_) => 14,
            Refusal::TooLarge => 15,
        }
    }

    /// The words that its report shows behind the code. It fails only for want of memory.
    pub fn words(&self, alloc: Global) -> Result<Vec<Vec<u8>>, AllocError>
        ensures { IfOk result (λ words. map (λ word. word.items) words.items ≡ words_of (refusal_of self.now)) }
    {
        match self {
            Refusal::UnknownFunction(f) => copies_of(alloc, &[b"UnknownFunction".as_slice(), f]),
            Refusal::WrongArity(f, given, wanted) => arity_words(alloc, f, *given, *wanted),
            Refusal::OutOfScope(name) => copies_of(alloc, &[b"OutOfScope".as_slice(), name]),
            Refusal::BadAbbreviation(name) => {
                copies_of(alloc, &[b"BadAbbreviation".as_slice(), name])
            }
            Refusal::BadVariable(name) => copies_of(alloc, &[b"BadVariable".as_slice(), name]),
            Refusal::TooLarge => copies_of(alloc, &[b"TooLarge".as_slice()]),
        }
    }
}

fn arity_words(alloc: Global, f: &[u8], given: u64, wanted: u64) -> Result<Vec<Vec<u8>>, AllocError>
    ensures { IfOk result (λ words. map (λ word. word.items) words.items ≡ words_of (WrongArity f.now given wanted)) }
{
    let mut given_digits = Buffer::new();
    let mut wanted_digits = Buffer::new();
    copies_of(
        alloc,
        &[
            b"Arity".as_slice(),
            f,
            given_digits.format(given).as_bytes(),
            wanted_digits.format(wanted).as_bytes(),
        ],
    )
}

/// Copies of these texts, in their order.
fn copies_of(alloc: Global, texts: &[&[u8]]) -> Result<Vec<Vec<u8>>, AllocError>
    ensures { IfOk result (λ words. map (λ word. word.items) words.items ≡ map (λ text. text.now) texts.now) }
{
    let mut words = Vec::new(alloc);
    for text in texts {
        let word = Vec::from_slice(alloc, text)?;
        words.push(word)?;
    }
    Ok(words)
}
