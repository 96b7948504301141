//! Calls of made terms, and the nests that stand for abbreviations.
ghost use Rattle.std.specs.Prelude.{◌≡◌, ◌<◌, ◌≤◌, length, All, IfOk, Err};
ghost use Rattle.nq_logic.specs.Terms.{call};
ghost use Rattle.nq_logic.specs.Sizes.{depth_of, depth_limit};
ghost use Rattle.nq_bank.specs.Content.{Grows, IsIdOf, Stands, term_at, terms_at};
ghost use Rattle.nq_language.specs.Translation.{list_term, nested_term, path_term, letter_term};
ghost use Rattle.nq_abbrev.specs.Nests.{applied_term};
ghost use Rattle.nq_abbrev.specs.Words.{word_at};

use crate::making::{call_one, call_two, nil};
use crate::word::Word;
use nq_bank::{Bank, BankFault, TermId, ground};

/// A call of the function of this name.
pub fn call_of(bank: &mut Bank, name: &[u8], terms: &[TermId]) -> Result<TermId, BankFault>
    requires { All (Stands bank.old) terms.now }
    ensures ok { IfOk result (λ r. IsIdOf bank.new r (call name.now (terms_at bank.old terms.now))) }
    ensures deep { result ≡ Err BankFault.Deep → depth_limit < depth_of (call name.now (terms_at bank.old terms.now)) }
    ensures grows { Grows bank.old bank.new }
{
    let Ok(f) = bank.name(name) else {
        return Err(BankFault::Memory);
    };
    bank.app(f, terms)
}

/// A CONS nest that ends in NIL.
pub fn list_of(bank: &mut Bank, terms: &[TermId]) -> Result<TermId, BankFault>
    requires { All (Stands bank.old) terms.now }
    ensures ok { IfOk result (λ r. IsIdOf bank.new r (list_term (terms_at bank.old terms.now))) }
    ensures deep { result ≡ Err BankFault.Deep → depth_limit < depth_of (list_term (terms_at bank.old terms.now)) }
    ensures grows { Grows bank.old bank.new }
{
    let mut list = nil(bank)?;
    let mut place = terms.len();
    while place > 0 {
        place -= 1;
        list = call_two(bank, ground::CONS, terms[place], list)?;
    }
    Ok(list)
}

/// CAR or CDR of a term.
fn letter_of(bank: &mut Bank, letter: u8, t: TermId) -> Result<TermId, BankFault>
    requires { Stands bank.old t }
    ensures ok { IfOk result (λ r. IsIdOf bank.new r (letter_term letter (term_at bank.old t))) }
    ensures deep { result ≡ Err BankFault.Deep → depth_limit < depth_of (letter_term letter (term_at bank.old t)) }
    ensures grows { Grows bank.old bank.new }
{
    if letter == b'A' {
        call_one(bank, ground::CAR, t)
    } else {
        call_one(bank, ground::CDR, t)
    }
}

/// A nest of CAR and CDR.
pub fn path_of(bank: &mut Bank, letters: &[u8], t: TermId) -> Result<TermId, BankFault>
    requires { Stands bank.old t }
    ensures ok { IfOk result (λ r. IsIdOf bank.new r (path_term letters.now (term_at bank.old t))) }
    ensures deep { result ≡ Err BankFault.Deep → depth_limit < depth_of (path_term letters.now (term_at bank.old t)) }
    ensures grows { Grows bank.old bank.new }
{
    let mut nest = t;
    let mut place = letters.len();
    while place > 0 {
        place -= 1;
        nest = letter_of(bank, letters[place], nest)?;
    }
    Ok(nest)
}

/// A call of two arguments, or one nested to the right for more.
pub fn nested_of(bank: &mut Bank, name: &[u8], terms: &[TermId]) -> Result<TermId, BankFault>
    requires stand { All (Stands bank.old) terms.now }
    requires count { 2 ≤ length terms.now }
    ensures ok { IfOk result (λ r. IsIdOf bank.new r (nested_term name.now (terms_at bank.old terms.now))) }
    ensures deep { result ≡ Err BankFault.Deep → depth_limit < depth_of (nested_term name.now (terms_at bank.old terms.now)) }
    ensures grows { Grows bank.old bank.new }
{
    let mut place = terms.len() - 1;
    let mut nest = terms[place];
    while place > 0 {
        place -= 1;
        let pair = [terms[place], nest];
        nest = call_of(bank, name, &pair)?;
    }
    Ok(nest)
}

/// The term of a call whose arguments are these terms.
pub fn applied_of(
    bank: &mut Bank,
    word: Word<'_>,
    name: &[u8],
    terms: &[TermId],
) -> Result<TermId, BankFault>
    requires { All (Stands bank.old) terms.now }
    ensures ok { IfOk result (λ r. IsIdOf bank.new r (applied_term (word_at word.entry) name.now (terms_at bank.old terms.now))) }
    ensures deep { result ≡ Err BankFault.Deep → depth_limit < depth_of (applied_term (word_at word.entry) name.now (terms_at bank.old terms.now)) }
    ensures grows { Grows bank.old bank.new }
{
    match word {
        Word::Listing => list_of(bank, terms),
        Word::Nesting => {
            if terms.len() < 2 {
                call_of(bank, name, terms)
            } else {
                nested_of(bank, name, terms)
            }
        }
        Word::Path(letters) => match terms {
            [] => nil(bank),
            [first, ..] => path_of(bank, letters, *first),
        },
        Word::Plain => call_of(bank, name, terms),
        Word::Conditional => nil(bank),
        Word::Choice => nil(bank),
        Word::Binding => nil(bank),
        Word::Quotation => nil(bank),
        Word::Outside => nil(bank),
    }
}
