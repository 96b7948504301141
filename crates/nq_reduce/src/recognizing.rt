//! Of what kind a term is, by its function or by what is assumed, and recognizers of other kinds.
ghost use Rattle.std.specs.Prelude.{◌≡◌, All, IfOk, Err};
ghost use Rattle.nq_bank.specs.Content.{Stands, term_at, terms_at};
ghost use Rattle.nq_kernel.specs.Growing.{WorkGrows};
ghost use Rattle.nq_reduce.specs.Rewriting.{CanRewrite, IsRewritten};

use crate::kinds::{head_of, made_kind, one_argument, recognized_kind};
use crate::results::{Rewritten, unchanged};
use crate::rows::Chosen;
use crate::trials::{FALSITY_IS_NONE, KINDS_DIFFER, TRUTH_IS_NONE, Trial, by_trial};
use nq_bank::{Bank, Sym, TermId, ground};
use nq_history::History;
use nq_kernel::{Stop, Work};
use nq_rules::one_of;

/// A recognizer of a term that is of another kind is F.
pub fn by_kind(
    work: &mut Work,
    history: &History,
    assumed: &[TermId],
    t: TermId,
) -> Result<Rewritten, Stop>
    requires can { CanRewrite history.now work.old assumed.now t }
    ensures ok { IfOk result (λ r. IsRewritten history.now work.new (terms_at work.old.bank assumed.now) (term_at work.old.bank t) r) }
    ensures grows { WorkGrows history.now work.old work.new }
    ensures out { result ≡ Err Stop.OutOfSteps → work.new.counter.used ≡ work.new.counter.limit }
{
    match kind_trial(&work.bank, history, assumed, t) {
        Some(trial) => by_trial(work, history, assumed, trial, t),
        None => Ok(unchanged(t)),
    }
}

/// The row that may say that a recognizer does not hold.
fn kind_trial(bank: &Bank, history: &History, assumed: &[TermId], t: TermId) -> Option<Trial>
    requires assumed { All (Stands bank.now) assumed.now }
    requires term { Stands bank.now t }
{
    match one_argument(bank, t) {
        Some((r, a)) => kind_trial_of(bank, history, assumed, r, a),
        None => None,
    }
}

/// The same, of a recognizer and its argument.
fn kind_trial_of(
    bank: &Bank,
    history: &History,
    assumed: &[TermId],
    r: Sym,
    a: TermId,
) -> Option<Trial>
    requires assumed { All (Stands bank.now) assumed.now }
    requires argument { Stands bank.now a }
{
    let place = recognized_kind(history, r)?;
    let head = head_of(bank, a);
    if let Some(row) = truth_value_row(head) {
        return Some(Trial {
            place,
            row,
            part: 0,
            chosen: Chosen::Last,
        });
    }
    let other = other_kind(bank, history, assumed, place, a)?;
    Some(differing(place, other))
}

/// The row that says that T, or F, is of no shell's kind.
fn truth_value_row(head: Option<Sym>) -> Option<u64> {
    let f = head?;
    if f.0 == ground::TRUE.0 {
        return Some(TRUTH_IS_NONE);
    }
    if f.0 == ground::FALSE.0 {
        return Some(FALSITY_IS_NONE);
    }
    None
}

/// The row of the later of two shells that says that their kinds differ, where the first is the one that does not hold.
fn differing(place: usize, other: usize) -> Trial {
    if place < other {
        Trial {
            place: other,
            row: KINDS_DIFFER,
            part: (place as u64).saturating_add(1),
            chosen: Chosen::Last,
        }
    } else {
        Trial {
            place,
            row: KINDS_DIFFER,
            part: (other as u64).saturating_add(1),
            chosen: Chosen::First,
        }
    }
}

/// The place of another shell than the one at a place of whose kind a term is.
pub fn other_kind(
    bank: &Bank,
    history: &History,
    assumed: &[TermId],
    place: usize,
    a: TermId,
) -> Option<usize>
    requires assumed { All (Stands bank.now) assumed.now }
    requires argument { Stands bank.now a }
{
    match kind_of(bank, history, assumed, a) {
        Some(other) => { if other == place { None } else { Some(other) } }
        None => None,
    }
}

/// The place of the shell of whose kind a term is, as its function or an assumption says.
pub fn kind_of(bank: &Bank, history: &History, assumed: &[TermId], a: TermId) -> Option<usize>
    requires assumed { All (Stands bank.now) assumed.now }
    requires argument { Stands bank.now a }
{
    if let Some(f) = head_of(bank, a) {
        if let Some(place) = made_kind(history, f) {
            return Some(place);
        }
    }
    assumed_kind(bank, history, assumed, a)
}

/// The same, as an assumption says.
fn assumed_kind(bank: &Bank, history: &History, assumed: &[TermId], a: TermId) -> Option<usize>
    requires { All (Stands bank.now) assumed.now }
{
    for h in assumed {
        let kind = kind_told(bank, history, *h, a);
        if kind.is_some() {
            return kind;
        }
    }
    None
}

/// The place of the shell that a term says another one to be of.
pub fn kind_told(bank: &Bank, history: &History, h: TermId, a: TermId) -> Option<usize>
    requires { Stands bank.now h }
{
    let (r, b) = one_argument(bank, h)?;
    if b.0 != a.0 {
        return None;
    }
    recognized_kind(history, r)
}

/// Is it assumed that a term is not of the kind of the shell at a place?
pub fn is_denied_kind(
    bank: &Bank,
    history: &History,
    assumed: &[TermId],
    place: usize,
    a: TermId,
) -> bool
    requires assumed { All (Stands bank.now) assumed.now }
{
    for h in assumed {
        if let Some(p) = one_of(bank, ground::NOT, *h) {
            if kind_told(bank, history, p, a) == Some(place) {
                return true;
            }
        }
    }
    false
}
