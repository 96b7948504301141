//! The type of a term.
ghost use Rattle.std.specs.Prelude.{◌≡◌, ◌≤◌, List, All, IfOk, IfSome, Err, length};
ghost use Rattle.nq_logic.specs.Terms.{Term};
ghost use Rattle.nq_logic.specs.ShellPrinciple.{shells_of};
ghost use Rattle.nq_bank.specs.Content.{term_at, terms_at};
ghost use Rattle.nq_history.specs.Events.{events_at};
ghost use Rattle.nq_kernel.specs.Growing.{LineStands, WorkGrows, WorkStands};
ghost use Rattle.nq_kernel.specs.Ready.{IsReady};
ghost use Rattle.nq_lines.specs.Lines.{IsTermIn};
ghost use Rattle.nq_types.specs.Shown.{IsExact, IsShown};

use crate::exact::exact_type;
use crate::guessing::guessed_line;
use crate::sets::{TypeSet, everything};
use crate::showing::shown_type;
use nq_bank::{TermId, ground, ground_name};
use nq_history::History;
use nq_kernel::{Stop, Work};
use nq_lines::row_line;

/// The type of any term, with the line of T.
fn any_type(work: &mut Work, history: &History) -> Result<(TypeSet, u64), Stop>
    requires stands { WorkStands history.now work.old }
    requires room { length (shells_of (events_at work.old.bank history.now)) ≤ 61 }
    ensures shown { IfOk result (λ r. (assumed : List Term) (t : Term) → IsShown (events_at work.old.bank history.now) work.new assumed t r) }
    ensures grows { WorkGrows history.now work.old work.new }
    ensures out { result ≡ Err Stop.OutOfSteps → work.new.counter.used ≡ work.new.counter.limit }
{
    let name = ground_name(&work.bank, ground::TRUE);
    let line = row_line(work, history, name, 1, 0)?;
    Ok((everything(), line))
}

/// The type that a line shows, or that of any term.
fn told_type(
    work: &mut Work,
    history: &History,
    assumed: &[TermId],
    t: TermId,
    line: Option<u64>,
) -> Result<(TypeSet, u64), Stop>
    requires stands { WorkStands history.now work.old }
    requires room { length (shells_of (events_at work.old.bank history.now)) ≤ 61 }
    requires line { IfSome line (LineStands work.old) }
    ensures shown { IfOk result (IsShown (events_at work.old.bank history.now) work.new (terms_at work.old.bank assumed.now) (term_at work.old.bank t)) }
    ensures grows { WorkGrows history.now work.old work.new }
    ensures out { result ≡ Err Stop.OutOfSteps → work.new.counter.used ≡ work.new.counter.limit }
{
    match line {
        Some(n) => match shown_type(work, history, assumed, t, n) {
            Some(found) => Ok(found),
            None => any_type(work, history),
        },
        None => any_type(work, history),
    }
}

/// The type of a term that is no constant and no call of a constructor.
fn guessed_type(
    work: &mut Work,
    history: &History,
    assumed: &[TermId],
    t: TermId,
) -> Result<(TypeSet, u64), Stop>
    requires stands { WorkStands history.now work.old }
    requires ready { IsReady (events_at work.old.bank history.now) }
    requires room { length (shells_of (events_at work.old.bank history.now)) ≤ 61 }
    requires assumed { All (IsTermIn history.now work.old) assumed.now }
    requires term { IsTermIn history.now work.old t }
    ensures shown { IfOk result (IsShown (events_at work.old.bank history.now) work.new (terms_at work.old.bank assumed.now) (term_at work.old.bank t)) }
    ensures grows { WorkGrows history.now work.old work.new }
    ensures out { result ≡ Err Stop.OutOfSteps → work.new.counter.used ≡ work.new.counter.limit }
{
    let line = guessed_line(work, history, assumed, t)?;
    told_type(work, history, assumed, t, line)
}

/// The type of a term under assumptions, with a line that has only the fact of the set and denials of what is assumed. Of T, F, a
/// base and a call of a constructor, values among them, it is the one bit of its recognizer; how small other sets are is not
/// promised. Steps run out only at the limit.
pub fn type_of(
    work: &mut Work,
    history: &History,
    assumed: &[TermId],
    t: TermId,
) -> Result<(TypeSet, u64), Stop>
    requires stands { WorkStands history.now work.old }
    requires ready { IsReady (events_at work.old.bank history.now) }
    requires room { length (shells_of (events_at work.old.bank history.now)) ≤ 61 }
    requires assumed { All (IsTermIn history.now work.old) assumed.now }
    requires term { IsTermIn history.now work.old t }
    ensures shown { IfOk result (IsShown (events_at work.old.bank history.now) work.new (terms_at work.old.bank assumed.now) (term_at work.old.bank t)) }
    ensures exact { IfOk result (IsExact (events_at work.old.bank history.now) (term_at work.old.bank t)) }
    ensures grows { WorkGrows history.now work.old work.new }
    ensures out { result ≡ Err Stop.OutOfSteps → work.new.counter.used ≡ work.new.counter.limit }
{
    match exact_type(work, history, t)? {
        Some(found) => Ok(found),
        None => guessed_type(work, history, assumed, t),
    }
}
