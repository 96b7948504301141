// What a token is.
ghost use Rattle.std.specs.Prelude.{◌≡◌, ◌≤◌, ◌<◌, ◌+◌, ◌*◌, ◌^◌, ℕ, List, length, IsTrue, ◌&&◌, not, nat_eq, nat_le};
ghost use Rattle.std.specs.List.{list_all};
ghost use Rattle.std.specs.Str.Parse.{IsNumeral};
ghost use Rattle.nq_form.specs.Bytes.{is_digit, is_sign, is_constituent};
ghost use Rattle.nq_form.specs.Token.{bars_front, begins_symbol};
ghost use Rattle.nq_form.specs.Kinds.{IsSigned, is_dot};
ghost use Rattle.nq_sexp.specs.Kind.{Grown, IsDigits, IsKind};

const LONGEST: usize = 256;

/// What a run of bytes writes as digits.
pub(crate) enum Digits {
    Other,
    Narrow(u128),
    Wide,
}

/// What a longest run of constituents is.
pub(crate) enum TokenKind {
    Symbol,
    Numeral(bool, u128),
    TooWide,
    Dot,
    Bad,
}

/// The number with one more digit, where it is below 2^128.
fn with_digit(number: Option<u128>, digit: u8) -> Option<u128>
    requires { digit < 10 }
    ensures { Grown number digit result }
{
    match number {
        Some(n) => match n.checked_mul(10) {
            Some(tens) => tens.checked_add(digit as u128),
            None => None,
        },
        None => None,
    }
}

fn is_digit(byte: u8) -> bool
    ensures { result ≡ is_digit byte }
{
    b'0' <= byte && byte <= b'9'
}

pub(crate) fn digits_of(bytes: &[u8]) -> Digits
    ensures { IsDigits bytes.now result }
{
    if bytes.is_empty() {
        return Digits::Other;
    }
    let mut number = Some(0u128);
    let mut count = 0usize;
    while count < bytes.len() {
        let byte = bytes[count];
        if !is_digit(byte) {
            return Digits::Other;
        }
        number = with_digit(number, byte - b'0');
        count += 1;
    }
    match number {
        Some(n) => Digits::Narrow(n),
        None => Digits::Wide,
    }
}

fn bars_front(byte: u8) -> bool
    ensures { result ≡ bars_front byte }
{
    byte.is_ascii_digit() || byte == b'.' || byte == b':'
}

pub(crate) fn begins_symbol(word: &[u8]) -> bool
    ensures { result ≡ begins_symbol word.now }
{
    match word {
        [] => false,
        [only] => !bars_front(*only),
        [first, second, ..] => {
            let signed = *first == b'+' || *first == b'-';
            !bars_front(*first) && !(signed && second.is_ascii_digit())
        }
    }
}

fn has_symbol_shape(word: &[u8]) -> bool
    ensures { result ≡ (begins_symbol word.now && nat_le (length word.now) 256) }
{
    begins_symbol(word) && word.len() <= LONGEST
}

fn is_dot(word: &[u8]) -> bool
    ensures { result ≡ is_dot word.now }
{
    match word {
        [only] => *only == b'.',
        _ => false,
    }
}

/// A run of constituents that is no numeral.
fn name_kind(word: &[u8]) -> TokenKind
    requires constituents { IsTrue (list_all is_constituent word.now) }
    requires some { 0 < length word.now }
    requires unsigned { IsNumeral 10 word.now → ⊥ }
    requires signed { IsSigned word.now → ⊥ }
    ensures { IsKind word.now result }
{
    if has_symbol_shape(word) {
        return TokenKind::Symbol;
    }
    if is_dot(word) {
        return TokenKind::Dot;
    }
    TokenKind::Bad
}

fn is_sign(byte: u8) -> bool
    ensures { result ≡ is_sign byte }
{
    byte == b'+' || byte == b'-'
}

/// Whether a numeral with this sign is below 0.
fn is_negative(sign: u8, n: u128) -> bool
    ensures { result ≡ (nat_eq sign 45 && not (nat_eq n 0)) }
{
    sign == b'-' && n != 0
}

/// A run of constituents that isn't digits alone.
fn signed_kind(word: &[u8]) -> TokenKind
    requires constituents { IsTrue (list_all is_constituent word.now) }
    requires some { 0 < length word.now }
    requires unsigned { IsNumeral 10 word.now → ⊥ }
    ensures { IsKind word.now result }
{
    let sign = word[0];
    if !is_sign(sign) {
        return name_kind(word);
    }
    match digits_of(&word[1..]) {
        Digits::Narrow(n) => TokenKind::Numeral(is_negative(sign, n), n),
        Digits::Wide => TokenKind::TooWide,
        Digits::Other => name_kind(word),
    }
}

/// What a longest run of constituents is.
pub(crate) fn token_kind(word: &[u8]) -> TokenKind
    requires constituents { IsTrue (list_all is_constituent word.now) }
    requires some { 0 < length word.now }
    ensures { IsKind word.now result }
{
    match digits_of(word) {
        Digits::Narrow(n) => TokenKind::Numeral(false, n),
        Digits::Wide => TokenKind::TooWide,
        Digits::Other => signed_kind(word),
    }
}
