//! Goals with a literal that says of a number that it is one.
ghost use Rattle.std.specs.Prelude.{◌≡◌, All, IfOk, IfSome, Err};
ghost use Rattle.nq_bank.specs.Content.{terms_at};
ghost use Rattle.nq_kernel.specs.Growing.{WorkGrows, WorkStands};
ghost use Rattle.nq_lines.specs.Lines.{IsTermIn, LineHasOnly};

use crate::checking::checked;
use crate::numbers::number_line;
use crate::reading::{is_call_of, operands_of};
use nq_bank::{TermId, ground};
use nq_history::History;
use nq_kernel::{Stop, Work};

/// The line of a goal that has the literal that this term is a number, where a law says so.
fn by_number(
    work: &mut Work,
    history: &History,
    goal: &[TermId],
    t: TermId,
) -> Result<Option<u64>, Stop>
    requires stands { WorkStands history.now work.old }
    requires goal { All (IsTermIn history.now work.old) goal.now }
    requires term { IsTermIn history.now work.old t }
    ensures line { IfOk result (λ found. IfSome found (λ n. LineHasOnly work.new n (terms_at work.old.bank goal.now))) }
    ensures grows { WorkGrows history.now work.old work.new }
    ensures out { result ≡ Err Stop.OutOfSteps → work.new.counter.used ≡ work.new.counter.limit }
{
    match number_line(work, history, t)? {
        Some(line) => Ok(checked(work, history, goal, line)),
        None => Ok(None),
    }
}

/// The same, of a literal, if it is a call of NUMBERP.
fn by_kind(
    work: &mut Work,
    history: &History,
    goal: &[TermId],
    t: TermId,
) -> Result<Option<u64>, Stop>
    requires stands { WorkStands history.now work.old }
    requires goal { All (IsTermIn history.now work.old) goal.now }
    requires literal { IsTermIn history.now work.old t }
    ensures line { IfOk result (λ found. IfSome found (λ n. LineHasOnly work.new n (terms_at work.old.bank goal.now))) }
    ensures grows { WorkGrows history.now work.old work.new }
    ensures out { result ≡ Err Stop.OutOfSteps → work.new.counter.used ≡ work.new.counter.limit }
{
    if !is_call_of(&work.bank, t, ground::NUMBERP) {
        return Ok(None);
    }
    match operands_of(work, history, t) {
        Some(at) => by_number(work, history, goal, at.first),
        None => Ok(None),
    }
}

/// A line that was found, or else the one by a literal.
fn or_by_kind(
    work: &mut Work,
    history: &History,
    goal: &[TermId],
    found: Option<u64>,
    t: TermId,
) -> Result<Option<u64>, Stop>
    requires stands { WorkStands history.now work.old }
    requires goal { All (IsTermIn history.now work.old) goal.now }
    requires found { IfSome found (λ n. LineHasOnly work.old n (terms_at work.old.bank goal.now)) }
    requires literal { IsTermIn history.now work.old t }
    ensures line { IfOk result (λ found. IfSome found (λ n. LineHasOnly work.new n (terms_at work.old.bank goal.now))) }
    ensures grows { WorkGrows history.now work.old work.new }
    ensures out { result ≡ Err Stop.OutOfSteps → work.new.counter.used ≡ work.new.counter.limit }
{
    match found {
        Some(line) => Ok(Some(line)),
        None => by_kind(work, history, goal, t),
    }
}

/// A line that has only literals of a goal, by a literal that says of a number that it is one, as `(NUMBERP (PLUS X Y))`.
pub fn kind_line(work: &mut Work, history: &History, goal: &[TermId]) -> Result<Option<u64>, Stop>
    requires stands { WorkStands history.now work.old }
    requires goal { All (IsTermIn history.now work.old) goal.now }
    ensures line { IfOk result (λ found. IfSome found (λ n. LineHasOnly work.new n (terms_at work.old.bank goal.now))) }
    ensures grows { WorkGrows history.now work.old work.new }
    ensures out { result ≡ Err Stop.OutOfSteps → work.new.counter.used ≡ work.new.counter.limit }
{
    let mut found = None;
    for t in goal {
        found = or_by_kind(work, history, goal, found, *t)?;
    }
    Ok(found)
}
