//! The forms of texts, and the texts of answers.
use bumpalo::Bump;
use nq_io::SureSource;
use nq_sexp::{ReadFault, Sexp, read_all};
use std::alloc::{AllocError, Global};

/// The forms of a text.
pub fn forms_of<'a>(
    alloc: Global,
    arena: &'a Bump,
    text: &[u8],
) -> Result<Vec<Sexp<'a>>, ReadFault> {
    let mut source = SureSource::new(text.to_vec(alloc)?);
    read_all(alloc, arena, &mut source)
}

/// A code and words, joined by spaces.
pub fn joined(alloc: Global, code: u16, words: &[Vec<u8>]) -> Result<Vec<u8>, AllocError> {
    let mut text = Vec::new(alloc);
    text.extend_from_slice(code.to_string(alloc)?.as_bytes())?;
    for word in words {
        text.push(b' ')?;
        text.extend_from_slice(word.as_slice())?;
    }
    Ok(text)
}
