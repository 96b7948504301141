//! The variables that a log can spell.
ghost use Rattle.std.specs.Prelude.{◌≡◌, true};
ghost use Rattle.std.specs.List.{list_all};
ghost use Rattle.nq_logic.specs.Names.{constant_names, has_name};
ghost use Rattle.nq_logtext.specs.Symbols.{begins_symbol, is_constituent, is_digit, is_symbol};
ghost use Rattle.nq_kernel.specs.Over.{IsVariable};

fn is_digit(byte: u8) -> bool
    ensures { result ≡ is_digit byte }
{
    48 <= byte && byte <= 57
}

fn is_constituent(byte: u8) -> bool
    ensures { result ≡ is_constituent byte }
{
    64 <= byte && byte <= 91
        || 93 <= byte && byte <= 95
        || 60 <= byte && byte <= 63
        || 45 <= byte && byte <= 58
        || 36 <= byte && byte <= 38
        || 42 <= byte && byte <= 43
        || byte == 33
        || byte == 123
        || byte == 125
        || byte == 126
}

/// Whether a symbol may begin so.
fn begins_symbol(word: &[u8]) -> bool
    ensures { result ≡ begins_symbol word.now }
{
    match word {
        [] => false,
        [first] => !(is_digit(*first) || *first == b'.' || *first == b':'),
        [first, second, ..] => {
            !(is_digit(*first) || *first == b'.' || *first == b':')
                && !((*first == b'+' || *first == b'-') && is_digit(*second))
        }
    }
}

fn are_constituents(word: &[u8]) -> bool
    ensures { result ≡ list_all is_constituent word.now }
{
    word.iter().all(|byte| is_constituent(*byte))
}

/// Whether a name may be spelled so.
fn is_symbol(word: &[u8]) -> bool
    ensures { result ≡ is_symbol word.now }
{
    begins_symbol(word) && word.len() <= 256 && are_constituents(word)
}

/// Is this a constant that is written as a symbol, and so no variable?
fn is_constant(name: &[u8]) -> bool
    ensures { result ≡ has_name name.now constant_names }
{
    name == b"T".as_slice() || name == b"F".as_slice() || name == b"NIL".as_slice()
}

/// Is this a variable that a log can spell?
pub fn is_variable(name: &[u8]) -> bool
    ensures { result ≡ true → IsVariable name.now }
{
    is_symbol(name) && !is_constant(name)
}
