//! Objects made of a part that is assumed to be of another kind than it must be: the default of the part may take its place. So
//! `(ADD1 X)` is 1 where X is assumed to be no number. It decides only which row is tried.
ghost use Rattle.std.specs.Prelude.{All};
ghost use Rattle.nq_bank.specs.Content.{Stands};

use crate::kinds::{made_kind, recognized_kind};
use crate::recognizing::is_denied_kind;
use crate::rows::Chosen;
use crate::trials::{DEFAULT_FOR_WRONG_PART, Trial};
use nq_bank::{Bank, Sym, TermId};
use nq_history::History;

/// The recognizer that must hold of a part, where it is the only one.
fn only_recognizer(history: &History, place: usize, part: usize) -> Option<Sym> {
    let shells = history.shells();
    if place < shells.len() {
        if part < shells[place].parts.len() {
            let part = &shells[place].parts[part];
            if part.one_of && part.recognizers.len() == 1 {
                return Some(part.recognizers[0]);
            }
        }
    }
    None
}

/// Is a term assumed to be of another kind than the part must be that it stands for?
fn is_wrong_part(
    bank: &Bank,
    history: &History,
    assumed: &[TermId],
    place: usize,
    part: usize,
    a: TermId,
) -> bool
    requires assumed { All (Stands bank.now) assumed.now }
    requires argument { Stands bank.now a }
{
    match only_recognizer(history, place, part) {
        Some(r) => match recognized_kind(history, r) {
            Some(kind) => is_denied_kind(bank, history, assumed, kind, a),
            None => false,
        },
        None => false,
    }
}

/// The row that puts the default in the place of a part, where a call makes an object of one that is assumed to be of another kind.
pub fn default_trial(
    bank: &Bank,
    history: &History,
    assumed: &[TermId],
    f: Sym,
    arguments: &[TermId],
) -> Option<Trial>
    requires assumed { All (Stands bank.now) assumed.now }
    requires arguments { All (Stands bank.now) arguments.now }
{
    let place = made_kind(history, f)?;
    for part in 0..arguments.len() {
        if is_wrong_part(bank, history, assumed, place, part, arguments[part]) {
            return Some(Trial {
                place,
                row: DEFAULT_FOR_WRONG_PART,
                part: part as u64 + 1,
                chosen: Chosen::Last,
            });
        }
    }
    None
}
