//! What the rows of shells make of calls: parts of objects just made, objects made of their own parts, and sizes.
ghost use Rattle.std.specs.Prelude.{◌≡◌, All, IfOk, Err};
ghost use Rattle.nq_bank.specs.Content.{Stands, term_at, terms_at};
ghost use Rattle.nq_kernel.specs.Growing.{WorkGrows};
ghost use Rattle.nq_reduce.specs.Rewriting.{CanRewrite, IsRewritten};

use crate::defaults::default_trial;
use crate::kinds::{head_of, is_base_at, is_made_at, made_kind, one_argument, taken_part};
use crate::recognizing::is_denied_kind;
use crate::results::{Rewritten, unchanged};
use crate::rows::Chosen;
use crate::trials::{
    PART_OF_BASE, PART_OF_MADE, PART_OF_OTHER, REMADE_IS_SAME, SIZE_OF_BASE, SIZE_OF_MADE, Trial,
    WRONG_PART_OF_MADE, by_trial,
};
use nq_bank::{Bank, Node, Sym, TermId, ground};
use nq_history::History;
use nq_kernel::{Stop, Work};

/// A part of an object just made is what it was made of, or the default where that may not be its part; a call that makes an
/// object of the parts of another is that one; and the size of an object just made is told.
pub fn by_shell(
    work: &mut Work,
    history: &History,
    assumed: &[TermId],
    t: TermId,
) -> Result<Rewritten, Stop>
    requires can { CanRewrite history.now work.old assumed.now t }
    ensures ok { IfOk result (λ r. IsRewritten history.now work.new (terms_at work.old.bank assumed.now) (term_at work.old.bank t) r) }
    ensures grows { WorkGrows history.now work.old work.new }
    ensures out { result ≡ Err Stop.OutOfSteps → work.new.counter.used ≡ work.new.counter.limit }
{
    match shell_trial(&work.bank, history, assumed, t) {
        Some(trial) => by_shell_row(work, history, assumed, trial, t),
        None => Ok(unchanged(t)),
    }
}

/// The same, by this row, and where it doesn't fit, by the next one.
fn by_shell_row(
    work: &mut Work,
    history: &History,
    assumed: &[TermId],
    trial: Trial,
    t: TermId,
) -> Result<Rewritten, Stop>
    requires can { CanRewrite history.now work.old assumed.now t }
    ensures ok { IfOk result (λ r. IsRewritten history.now work.new (terms_at work.old.bank assumed.now) (term_at work.old.bank t) r) }
    ensures grows { WorkGrows history.now work.old work.new }
    ensures out { result ≡ Err Stop.OutOfSteps → work.new.counter.used ≡ work.new.counter.limit }
{
    let step = by_trial(work, history, assumed, trial, t)?;
    if step.line.is_some() {
        return Ok(step);
    }
    by_wrong_part(work, history, assumed, trial, t)
}

/// The default in the place of a part that the object may not have.
fn by_wrong_part(
    work: &mut Work,
    history: &History,
    assumed: &[TermId],
    trial: Trial,
    t: TermId,
) -> Result<Rewritten, Stop>
    requires can { CanRewrite history.now work.old assumed.now t }
    ensures ok { IfOk result (λ r. IsRewritten history.now work.new (terms_at work.old.bank assumed.now) (term_at work.old.bank t) r) }
    ensures grows { WorkGrows history.now work.old work.new }
    ensures out { result ≡ Err Stop.OutOfSteps → work.new.counter.used ≡ work.new.counter.limit }
{
    if trial.row == PART_OF_MADE {
        let next = Trial {
            row: WRONG_PART_OF_MADE,
            ..trial
        };
        by_trial(work, history, assumed, next, t)
    } else {
        Ok(unchanged(t))
    }
}

/// The row of a shell that may fit a call.
fn shell_trial(bank: &Bank, history: &History, assumed: &[TermId], t: TermId) -> Option<Trial>
    requires assumed { All (Stands bank.now) assumed.now }
    requires term { Stands bank.now t }
{
    match bank.node(t) {
        Node::App(f, _) => trial_for(bank, history, assumed, f, bank.args(t)),
        Node::Num(_) => None,
        Node::Var(_) => None,
    }
}

/// The same, of a function and its arguments.
fn trial_for(
    bank: &Bank,
    history: &History,
    assumed: &[TermId],
    f: Sym,
    arguments: &[TermId],
) -> Option<Trial>
    requires assumed { All (Stands bank.now) assumed.now }
    requires arguments { All (Stands bank.now) arguments.now }
{
    if arguments.is_empty() {
        return None;
    }
    if let Some((place, number)) = taken_part(history, f) {
        return part_trial(bank, history, assumed, place, number, arguments[0]);
    }
    if f.0 == ground::COUNT.0 {
        return size_trial(bank, history, arguments[0]);
    }
    match remade_trial(bank, history, f, arguments[0]) {
        Some(trial) => Some(trial),
        None => default_trial(bank, history, assumed, f, arguments),
    }
}

/// The row that tells a part of a term.
fn part_trial(
    bank: &Bank,
    history: &History,
    assumed: &[TermId],
    place: usize,
    part: u64,
    a: TermId,
) -> Option<Trial>
    requires assumed { All (Stands bank.now) assumed.now }
    requires argument { Stands bank.now a }
{
    let chosen = Chosen::Last;
    let row = match head_of(bank, a) {
        Some(f) => {
            if is_base_at(history, place, f) {
                PART_OF_BASE
            } else if is_made_at(history, place, f) {
                PART_OF_MADE
            } else {
                PART_OF_OTHER
            }
        }
        None => PART_OF_OTHER,
    };
    if row == PART_OF_OTHER && !is_denied_kind(bank, history, assumed, place, a) {
        return None;
    }
    Some(Trial {
        place,
        row,
        part,
        chosen,
    })
}

/// The row that tells the size of an object just made.
fn size_trial(bank: &Bank, history: &History, a: TermId) -> Option<Trial>
    requires { Stands bank.now a }
{
    let f = head_of(bank, a)?;
    let place = made_kind(history, f)?;
    let row = if is_base_at(history, place, f) {
        SIZE_OF_BASE
    } else {
        SIZE_OF_MADE
    };
    Some(Trial {
        place,
        row,
        part: 0,
        chosen: Chosen::Last,
    })
}

/// The row that tells what a call is that makes an object, where its first argument is a part of one.
fn remade_trial(bank: &Bank, history: &History, f: Sym, first: TermId) -> Option<Trial>
    requires { Stands bank.now first }
{
    let (g, _) = one_argument(bank, first)?;
    let (place, _) = taken_part(history, g)?;
    if is_made_at(history, place, f) {
        Some(Trial {
            place,
            row: REMADE_IS_SAME,
            part: 0,
            chosen: Chosen::Last,
        })
    } else {
        None
    }
}
