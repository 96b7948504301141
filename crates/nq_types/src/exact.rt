//! Types that stand in a term: T, F, bases and calls of constructors have one bit.
ghost use Rattle.std.specs.Prelude.{◌≡◌, ◌≤◌, ◌<◌, ℕ, IfOk, IfSome, MatchOption, Err, length};
ghost use Rattle.nq_logic.specs.ShellPrinciple.{shells_of};
ghost use Rattle.nq_bank.specs.Content.{term_at};
ghost use Rattle.nq_history.specs.Events.{events_at};
ghost use Rattle.nq_kernel.specs.Growing.{LineStands, WorkGrows, WorkStands};
ghost use Rattle.nq_kernel.specs.Ready.{IsReady};
ghost use Rattle.nq_lines.specs.Lines.{IsTermIn};
ghost use Rattle.nq_types.specs.Kinds.{HasKind, IsOfKind};
ghost use Rattle.nq_types.specs.Shown.{IsKnown, IsRecognized};

use crate::constants::constant_line;
use crate::kinds::{Kind, kind_of};
use crate::making::{base_line, made_line};
use crate::sets::{TypeSet, single};
use nq_bank::TermId;
use nq_history::History;
use nq_kernel::{Stop, Work};

/// The one bit of a term of this kind, with the line that shows it.
fn type_of_kind(
    work: &mut Work,
    history: &History,
    kind: Kind,
    t: TermId,
) -> Result<Option<(TypeSet, u64)>, Stop>
    requires stands { WorkStands history.now work.old }
    requires ready { IsReady (events_at work.old.bank history.now) }
    requires room { length (shells_of (events_at work.old.bank history.now)) ≤ 61 }
    requires term { IsTermIn history.now work.old t }
    requires kind { HasKind (events_at work.old.bank history.now) (term_at work.old.bank t) kind }
    ensures known { IfOk result (λ found. MatchOption found ((k : ℕ) → IsOfKind (events_at work.old.bank history.now) (term_at work.old.bank t) k → ⊥) (IsKnown (events_at work.old.bank history.now) work.new (term_at work.old.bank t))) }
    ensures grows { WorkGrows history.now work.old work.new }
    ensures out { result ≡ Err Stop.OutOfSteps → work.new.counter.used ≡ work.new.counter.limit }
{
    match kind {
        Kind::Truth => {
            let line = constant_line(work, history, true, t)?;
            Ok(Some((single(0), line)))
        }
        Kind::Falsity => {
            let line = constant_line(work, history, false, t)?;
            Ok(Some((single(1), line)))
        }
        Kind::Base(place) => {
            let line = base_line(work, history, place, t)?;
            Ok(Some((single(place as u32 + 2), line)))
        }
        Kind::Made(place) => {
            let line = made_line(work, history, place, t)?;
            Ok(Some((single(place as u32 + 2), line)))
        }
        Kind::Other => Ok(None),
    }
}

/// The one bit of a term that is T, F, a base or a call of a constructor, with the line that shows it.
pub fn exact_type(
    work: &mut Work,
    history: &History,
    t: TermId,
) -> Result<Option<(TypeSet, u64)>, Stop>
    requires stands { WorkStands history.now work.old }
    requires ready { IsReady (events_at work.old.bank history.now) }
    requires room { length (shells_of (events_at work.old.bank history.now)) ≤ 61 }
    requires term { IsTermIn history.now work.old t }
    ensures known { IfOk result (λ found. MatchOption found ((k : ℕ) → IsOfKind (events_at work.old.bank history.now) (term_at work.old.bank t) k → ⊥) (IsKnown (events_at work.old.bank history.now) work.new (term_at work.old.bank t))) }
    ensures grows { WorkGrows history.now work.old work.new }
    ensures out { result ≡ Err Stop.OutOfSteps → work.new.counter.used ≡ work.new.counter.limit }
{
    let kind = kind_of(&work.bank, history, t);
    type_of_kind(work, history, kind, t)
}

/// Adds the line of the kind of a term that is T, F, a base or a call of a constructor.
pub fn exact_line(work: &mut Work, history: &History, t: TermId) -> Result<Option<u64>, Stop>
    requires stands { WorkStands history.now work.old }
    requires ready { IsReady (events_at work.old.bank history.now) }
    requires room { length (shells_of (events_at work.old.bank history.now)) ≤ 61 }
    requires term { IsTermIn history.now work.old t }
    ensures line { IfOk result (λ found. IfSome found (LineStands work.new)) }
    ensures grows { WorkGrows history.now work.old work.new }
    ensures out { result ≡ Err Stop.OutOfSteps → work.new.counter.used ≡ work.new.counter.limit }
{
    match exact_type(work, history, t)? {
        Some(found) => Ok(Some(found.1)),
        None => Ok(None),
    }
}
