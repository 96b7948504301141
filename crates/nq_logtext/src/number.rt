// Numbers, read as they are written: in decimal without leading zeros.
ghost use Rattle.std.specs.Prelude.{◌≡◌, ◌^◌};
ghost use Rattle.nq_logtext.specs.Reading.{number_of};

use itoa::Buffer;
use std::str;

/// The number below 2^128 that the bytes spell.
pub(crate) fn numeral_of(word: &[u8]) -> Option<u128>
    ensures { result ≡ number_of (2 ^ 128) word.now }
{
    let Ok(text) = str::from_utf8(word) else {
        return None;
    };
    let Ok(number) = text.parse::<u128>() else {
        return None;
    };
    let mut buffer = Buffer::new();
    if buffer.format(number).as_bytes() == word {
        Some(number)
    } else {
        None
    }
}

/// The number below 2^64 that the bytes spell.
pub(crate) fn number_of(word: &[u8]) -> Option<u64>
    ensures { result ≡ number_of (2 ^ 64) word.now }
{
    let Some(number) = numeral_of(word) else {
        return None;
    };
    u64::try_from(number).ok()
}
