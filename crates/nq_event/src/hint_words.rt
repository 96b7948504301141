//! Words of hints that stand twice.
ghost use Rattle.std.specs.Prelude.{◌≡◌};
ghost use Rattle.nq_logic.specs.Names.{has_name};
ghost use Rattle.nq_events.specs.HintRefusals.{stands_twice};
ghost use Rattle.nq_event.specs.Hints.{words_at};

use crate::hints::word_of;
use nq_sexp::Sexp;

/// Has one of the hints this word?
fn have_word(hints: &[Sexp<'_>], word: &[u8]) -> bool
    ensures { result ≡ has_name word.now (words_at hints.now) }
{
    for hint in hints.iter() {
        if word == word_of(hint) {
            return true;
        }
    }
    false
}

/// Have two of the hints this word?
pub fn stands_twice(word: &[u8], hints: &[Sexp<'_>]) -> bool
    ensures { result ≡ stands_twice word.now (words_at hints.now) }
{
    let mut rest = hints;
    while let [first, more @ ..] = rest {
        if word == word_of(first) {
            return have_word(more, word);
        }
        rest = more;
    }
    false
}
