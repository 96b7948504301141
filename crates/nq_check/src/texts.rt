//! The lines of claims.
ghost use Rattle.std.specs.Prelude.{◌≡◌, ◌++◌, ◌∷◌, [], codes, IfOk};
ghost use Rattle.nq_bank.specs.Content.{Stands, term_at};
ghost use Rattle.nq_language.specs.Printing.{printed};

use nq_bank::{Bank, TermId};
use nq_print::print_term;
use std::alloc::{AllocError, Global};

/// The line of a word and a name.
pub fn named_line(alloc: Global, word: &[u8], name: &[u8]) -> Result<Vec<u8>, AllocError>
    ensures { IfOk result (λ text. text.items ≡ word.now ++ name.now ++ (10 ∷ [])) }
{
    let mut text = Vec::from_slice(alloc, word)?;
    text.extend_from_slice(name)?;
    text.extend_from_slice(b"\n")?;
    Ok(text)
}

/// The line of a word and a name, and of a term behind them.
pub fn term_line(bank: &Bank, word: &[u8], name: &[u8], t: TermId) -> Result<Vec<u8>, AllocError>
    requires { Stands bank.now t }
    ensures { IfOk result (λ text. text.items ≡ (word.now ++ (name.now ++ (codes ": " ++ printed (term_at bank.now t)))) ++ (10 ∷ [])) }
{
    let mut text = Vec::from_slice(bank.alloc(), word)?;
    text.extend_from_slice(name)?;
    text.extend_from_slice(b": ")?;
    print_term(bank, t, &mut text)?;
    text.extend_from_slice(b"\n")?;
    Ok(text)
}
