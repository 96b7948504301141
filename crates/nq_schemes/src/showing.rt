//! Lines that show that a measure falls, where the literals say enough.
ghost use Rattle.std.specs.Prelude.{◌≡◌, All, IfOk, IfSome, Err};
ghost use Rattle.nq_kernel.specs.Growing.{WorkStands, WorkGrows, LineStands};
ghost use Rattle.nq_lines.specs.Lines.{IsTermIn};
ghost use Rattle.nq_history.specs.Events.{events_at};
ghost use Rattle.nq_lines.specs.OwnTerms.{HasOwnTerms};

use crate::plain::{plain_goal, spelled_line};
use nq_arithmetic::arithmetic_line_by_lemmas;
use nq_bank::TermId;
use nq_descents::descent_line;
use nq_history::{Hints, History};
use nq_kernel::{Stop, Work};
use std::alloc::Global;

/// No hints.
fn no_hints(alloc: Global) -> Hints {
    Hints {
        instances: Vec::new(alloc),
        enable: Vec::new(alloc),
        disable: Vec::new(alloc),
        expand: Vec::new(alloc),
        induct: None,
        hands_off: Vec::new(alloc),
        no_induct: false,
        no_generalize: false,
        no_arith: false,
    }
}

/// The line that one of some literals holds, by the axioms of shells.
fn shell_line(work: &mut Work, history: &History, goal: &[TermId]) -> Result<Option<u64>, Stop>
    requires stands { WorkStands history.now work.old }
    requires goal { All (IsTermIn history.now work.old) goal.now }
    ensures line { IfOk result (λ found. IfSome found (LineStands work.new)) }
    ensures grows { WorkGrows history.now work.old work.new }
    ensures memory { result ≡ Err Stop.OutOfSteps → ⊥ }
{
    match descent_line(work, history, goal) {
        Ok(found) => Ok(found),
        Err(_) => Err(Stop::Memory),
    }
}

/// The line that one of some literals without double denials holds, by linear arithmetic, also with lemmas of the history.
fn plain_line(work: &mut Work, history: &History, goal: &[TermId]) -> Result<Option<u64>, Stop>
    requires stands { WorkStands history.now work.old }
    requires own { HasOwnTerms (events_at work.old.bank history.now) }
    requires goal { All (IsTermIn history.now work.old) goal.now }
    ensures line { IfOk result (λ found. IfSome found (LineStands work.new)) }
    ensures grows { WorkGrows history.now work.old work.new }
    ensures out { result ≡ Err Stop.OutOfSteps → work.new.counter.used ≡ work.new.counter.limit }
{
    let hints = no_hints(work.bank.alloc());
    arithmetic_line_by_lemmas(work, history, &hints, goal, &[])
}

/// The line that one of some literals holds, by linear arithmetic.
fn linear_line(work: &mut Work, history: &History, goal: &[TermId]) -> Result<Option<u64>, Stop>
    requires stands { WorkStands history.now work.old }
    requires own { HasOwnTerms (events_at work.old.bank history.now) }
    requires goal { All (IsTermIn history.now work.old) goal.now }
    ensures line { IfOk result (λ found. IfSome found (LineStands work.new)) }
    ensures grows { WorkGrows history.now work.old work.new }
    ensures out { result ≡ Err Stop.OutOfSteps → work.new.counter.used ≡ work.new.counter.limit }
{
    let plain = plain_goal(work, history, goal)?;
    let found = plain_line(work, history, plain.as_slice())?;
    match found {
        Some(line) => {
            let spelled = spelled_line(work, history, goal, line)?;
            Ok(Some(spelled))
        }
        None => Ok(None),
    }
}

/// The line that one of some literals holds, by the axioms of shells or by linear arithmetic. Both make lines of linear arithmetic,
/// so there is none where these are not wanted.
pub fn shown_line(
    work: &mut Work,
    history: &History,
    arithmetic: bool,
    goal: &[TermId],
) -> Result<Option<u64>, Stop>
    requires stands { WorkStands history.now work.old }
    requires own { HasOwnTerms (events_at work.old.bank history.now) }
    requires goal { All (IsTermIn history.now work.old) goal.now }
    ensures line { IfOk result (λ found. IfSome found (LineStands work.new)) }
    ensures grows { WorkGrows history.now work.old work.new }
    ensures out { result ≡ Err Stop.OutOfSteps → work.new.counter.used ≡ work.new.counter.limit }
{
    if !arithmetic {
        return Ok(None);
    }
    let found = shell_line(work, history, goal)?;
    match found {
        Some(line) => Ok(Some(line)),
        None => linear_line(work, history, goal),
    }
}
