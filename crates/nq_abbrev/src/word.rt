//! The meaning of a name.
ghost use Rattle.std.specs.Prelude.{◌≡◌, ℕ, ◌<◌, length, IfSome, Option};
ghost use Rattle.nq_language.specs.Abbreviations.{is_letter, letters_of, at_least_two, is_nesting, is_outside, other_word, word_of, path_of, word_by};
ghost use Rattle.nq_abbrev.specs.Words.{word_at, letters_at, count_in};

/// What a name means at the head of a form.
#[derive(Clone, Copy)]
pub enum Word<'a> {
    Listing,
    Conditional,
    Choice,
    Binding,
    Quotation,
    /// AND, OR, PLUS and TIMES.
    Nesting,
    /// A nest of CAR and CDR: its letters A and D.
    Path(&'a [u8]),
    /// A function that this logic leaves out.
    Outside,
    Plain,
}

fn is_letter(byte: u8) -> bool
    ensures { result ≡ is_letter byte }
{
    byte == b'A' || byte == b'D'
}

/// How many letters A and D stand before an R that ends the bytes.
fn count_letters(bytes: &[u8]) -> Option<usize>
    ensures count { result ≡ count_in (letters_of bytes.now) }
    ensures bound { IfSome result (λ n. n < length bytes.now) }
{
    match bytes {
        [] => None,
        [only] => { if *only == b'R' { Some(0) } else { None } }
        [first, rest @ ..] => {
            if is_letter(*first) {
                match count_letters(rest) {
                    Some(count) => Some(count + 1),
                    None => None,
                }
            } else {
                None
            }
        }
    }
}

/// The letters before an R that ends the bytes, where they are two or more.
fn letters_before(bytes: &[u8]) -> Option<&[u8]>
    ensures { letters_at result ≡ at_least_two (letters_of bytes.now) }
{
    match count_letters(bytes) {
        Some(count) => {
            if count < 2 {
                None
            } else {
                Some(&bytes[..count])
            }
        }
        None => None,
    }
}

/// The letters of a nest of CAR and CDR.
fn letters(name: &[u8]) -> Option<&[u8]>
    ensures { letters_at result ≡ path_of name.now }
{
    match name {
        [b'C', rest @ ..] => letters_before(rest),
        _ => None,
    }
}

fn is_nesting(name: &[u8]) -> bool
    ensures { result ≡ is_nesting name.now }
{
    name == b"AND".as_slice()
        || name == b"OR".as_slice()
        || name == b"PLUS".as_slice()
        || name == b"TIMES".as_slice()
}

fn is_outside(name: &[u8]) -> bool
    ensures { result ≡ is_outside name.now }
{
    name == b"V&C$".as_slice()
        || name == b"EVAL$".as_slice()
        || name == b"APPLY$".as_slice()
        || name == b"SUBRP".as_slice()
        || name == b"BODY".as_slice()
        || name == b"FORMALS".as_slice()
        || name == b"FOR".as_slice()
}

/// The meaning of a name that is no nest.
fn other_word<'a>(name: &[u8]) -> Word<'a>
    ensures { word_at result ≡ other_word name.now }
{
    if name == b"LIST".as_slice() {
        Word::Listing
    } else if name == b"COND".as_slice() {
        Word::Conditional
    } else if name == b"CASE".as_slice() {
        Word::Choice
    } else if name == b"LET".as_slice() {
        Word::Binding
    } else if name == b"QUOTE".as_slice() {
        Word::Quotation
    } else if is_nesting(name) {
        Word::Nesting
    } else if is_outside(name) {
        Word::Outside
    } else {
        Word::Plain
    }
}

/// The meaning of a name at the head of a form.
#[tactic(auto, unfolding(nq_language::specs::Abbreviations::word_of))]
pub fn word_of<'a>(name: &'a [u8]) -> Word<'a>
    ensures { word_at result ≡ word_of name.now }
{
    match letters(name) {
        Some(letters) => Word::Path(letters),
        None => other_word(name),
    }
}

/// The meaning of a name, of which AND, OR, PLUS and TIMES are nested where they take two arguments.
pub fn word_in<'a>(name: &'a [u8], arity: Option<u64>) -> Word<'a>
    ensures { word_at result ≡ word_by (word_of name.now) arity }
{
    nested_word(word_of(name), arity)
}

fn nested_word<'a>(word: Word<'a>, arity: Option<u64>) -> Word<'a>
    ensures { word_at result ≡ word_by (word_at word.entry) arity }
{
    match word {
        Word::Nesting => {
            if arity == Some(2) {
                Word::Nesting
            } else {
                Word::Plain
            }
        }
        Word::Listing => word,
        Word::Conditional => word,
        Word::Choice => word,
        Word::Binding => word,
        Word::Quotation => word,
        Word::Path(_) => word,
        Word::Outside => word,
        Word::Plain => word,
    }
}
