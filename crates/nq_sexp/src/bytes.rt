// The kinds of bytes.
ghost use Rattle.std.specs.Prelude.{◌≡◌, IfOk, map};
ghost use Rattle.nq_form.specs.Bytes.{is_separator, is_constituent, is_opening, upper};

use std::alloc::{AllocError, Global};

pub(crate) fn is_separator(byte: u8) -> bool
    ensures { result ≡ is_separator byte }
{
    byte == b' ' || byte == b'\t' || byte == b'\n' || byte == b'\r' || byte == 12
}

pub(crate) fn is_constituent(byte: u8) -> bool
    ensures { result ≡ is_constituent byte }
{
    byte == b'!'
        || (b'$' <= byte && byte <= b'&')
        || (b'*' <= byte && byte <= b'+')
        || (b'-' <= byte && byte <= b':')
        || (b'<' <= byte && byte <= b'[')
        || (b']' <= byte && byte <= b'_')
        || (b'a' <= byte && byte <= b'{')
        || (b'}' <= byte && byte <= b'~')
}

pub(crate) fn is_opening(byte: u8) -> bool
    ensures { result ≡ is_opening byte }
{
    byte == b'(' || byte == b'\'' || byte == b'"'
}

fn to_upper(byte: u8) -> u8
    ensures { result ≡ upper byte }
{
    if b'a' <= byte && byte <= b'z' {
        byte - 32
    } else {
        byte
    }
}

pub(crate) fn in_upper_case(alloc: Global, word: &[u8]) -> Result<Vec<u8>, AllocError>
    ensures { IfOk result (λ v. v.items ≡ map upper word.now) }
{
    word.iter().map(|byte| to_upper(*byte)).collect(alloc)
}
