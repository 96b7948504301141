// Each kind of field, read off the front of the words.
ghost use Rattle.std.specs.Prelude.{◌≡◌, [], ◌∷◌, List, codes};
ghost use Rattle.nq_logtext.specs.Fields.{number, numeral, name, path, sign, mode, version, of_number, of_numeral, of_name, of_path, of_sign, of_mode, of_version};
ghost use Rattle.nq_logtext.specs.Reading.{Gives, places_of, path_of, field_at, run_of};

use crate::line::{Mode, Sign, Version};
use crate::number::{number_of, numeral_of};
use crate::parts::Parts;
use crate::stop::Stop;
use crate::symbol::is_symbol;
use crate::text::Text;
use std::alloc::Global;

#[tactic(auto, unfolding(crate::specs::Reading::field_of))]
pub(crate) fn number(words: &mut Parts<'_>) -> Result<u64, Stop>
    ensures { Gives (λ n. (number n, words.new)) result (field_at of_number words.old) }
{
    let Some(word) = words.next() else {
        return Err(Stop::Malformed);
    };
    match number_of(word) {
        Some(number) => Ok(number),
        None => Err(Stop::Malformed),
    }
}

#[tactic(auto, unfolding(crate::specs::Reading::field_of))]
pub(crate) fn numeral(words: &mut Parts<'_>) -> Result<u128, Stop>
    ensures { Gives (λ n. (numeral n, words.new)) result (field_at of_numeral words.old) }
{
    let Some(word) = words.next() else {
        return Err(Stop::Malformed);
    };
    match numeral_of(word) {
        Some(number) => Ok(number),
        None => Err(Stop::Malformed),
    }
}

#[tactic(auto, unfolding(crate::specs::Reading::field_of))]
pub(crate) fn name(alloc: Global, words: &mut Parts<'_>) -> Result<Text, Stop>
    ensures { Gives (λ n. (name n, words.new)) result (field_at of_name words.old) }
{
    let Some(word) = words.next() else {
        return Err(Stop::Malformed);
    };
    if is_symbol(word) {
        Ok(Text::of(alloc, word)?)
    } else {
        Err(Stop::Malformed)
    }
}

/// Places, one from each part.
fn places(alloc: Global, mut parts: Parts<'_>) -> Result<Vec<u64>, Stop>
    ensures { Gives (λ v. v.items) result (places_of parts.entry) }
{
    let mut places = Vec::new(alloc);
    while let Some(part) = parts.next() {
        let Some(place) = number_of(part) else {
            return Err(Stop::Malformed);
        };
        if place < 1 {
            return Err(Stop::Malformed);
        }
        places.push(place)?;
    }
    Ok(places)
}

#[tactic(auto, unfolding(crate::specs::Reading::path_of))]
fn path_of(alloc: Global, word: &[u8]) -> Result<Vec<u64>, Stop>
    ensures { Gives (λ v. v.items) result (path_of word.now) }
{
    if word == b"0".as_slice() {
        return Ok(Vec::new(alloc));
    }
    places(alloc, Parts::of(b'.', word))
}

#[tactic(auto, unfolding(crate::specs::Reading::field_of))]
pub(crate) fn path(alloc: Global, words: &mut Parts<'_>) -> Result<Vec<u64>, Stop>
    ensures { Gives (λ v. (path v.items, words.new)) result (field_at of_path words.old) }
{
    let Some(word) = words.next() else {
        return Err(Stop::Malformed);
    };
    path_of(alloc, word)
}

#[tactic(auto, unfolding(crate::specs::Reading::field_of))]
pub(crate) fn sign(words: &mut Parts<'_>) -> Result<Sign, Stop>
    ensures { Gives (λ s. (sign s, words.new)) result (field_at of_sign words.old) }
{
    let Some(word) = words.next() else {
        return Err(Stop::Malformed);
    };
    if word == b"+".as_slice() {
        Ok(Sign::Plus)
    } else if word == b"-".as_slice() {
        Ok(Sign::Minus)
    } else {
        Err(Stop::Malformed)
    }
}

#[tactic(auto, unfolding(crate::specs::Reading::field_of))]
pub(crate) fn mode(words: &mut Parts<'_>) -> Result<Mode, Stop>
    ensures { Gives (λ m. (mode m, words.new)) result (field_at of_mode words.old) }
{
    let Some(word) = words.next() else {
        return Err(Stop::Malformed);
    };
    if word == b"ONE-OF".as_slice() {
        Ok(Mode::OneOf)
    } else if word == b"NONE-OF".as_slice() {
        Ok(Mode::NoneOf)
    } else {
        Err(Stop::Malformed)
    }
}

#[tactic(auto, unfolding(crate::specs::Reading::field_of))]
pub(crate) fn version(words: &mut Parts<'_>) -> Result<Version, Stop>
    ensures { Gives (λ v. (version v, words.new)) result (field_at of_version words.old) }
{
    let Some(word) = words.next() else {
        return Err(Stop::Malformed);
    };
    if word == b"1".as_slice() {
        Ok(Version::First)
    } else {
        Err(Stop::Malformed)
    }
}

/// No word is left.
#[tactic(auto, unfolding(crate::specs::Reading::run_of))]
pub(crate) fn end(words: &Parts<'_>) -> Result<(), Stop>
    ensures { Gives (λ _. []) result (run_of [] [] words.now) }
{
    if words.is_empty() {
        Ok(())
    } else {
        Err(Stop::Malformed)
    }
}
