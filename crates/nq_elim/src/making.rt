//! The goals to which an elimination leads.
ghost use Rattle.std.specs.Prelude.{◌≡◌, ◌∷◌, [], All, IfOk, IfSome, Err};
ghost use Rattle.nq_bank.specs.Content.{terms_at};
ghost use Rattle.nq_kernel.specs.Growing.{WorkStands, WorkGrows};
ghost use Rattle.nq_lines.specs.Lines.{IsTermIn};
ghost use Rattle.nq_moves.specs.Ways.{IsMove};
ghost use Rattle.nq_elim.specs.Reasons.{IsReason, whole_at};
ghost use Rattle.nq_elim.specs.Eliminations.{IsRenamedClause, IsEliminationWay, ids_of};

use crate::cases::nexts_of;
use crate::denials::whole_goal;
use crate::lists::copied;
use crate::reasons::Reason;
use nq_bank::TermId;
use nq_history::{Hints, History};
use nq_kernel::{Stop, Work};
use nq_moves::{Moved, Renaming, rename, substitute_move};
use std::alloc::Global;

/// The goals to which an elimination leads, and what serves to go back.
#[derive(Drop)]
pub struct Elimination {
    /// The goals: that with new variables, and then that of each case.
    pub nexts: Vec<Vec<TermId>>,
    /// Why the variable can give way.
    pub reason: Reason,
    /// The goal beside the denied facts and the literals of the cases, with new variables for the destructor calls.
    pub renaming: Renaming,
    /// How the variable gave way there.
    pub moved: Moved,
}

/// The one goal to which a move led.
fn only_child(alloc: Global, moved: &Moved) -> Result<Option<Vec<TermId>>, Stop>
    ensures child { IfOk result (λ found. IfSome found (λ c. ids_of moved.now.children.items ≡ c.items ∷ [])) }
    ensures memory { result ≡ Err Stop.OutOfSteps → ⊥ }
{
    match moved.children.as_slice() {
        [child] => {
            let ids = copied(alloc, child.as_slice())?;
            Ok(Some(ids))
        }
        [] => Ok(None),
        _ => Ok(None),
    }
}

/// The elimination of a variable that gave way.
fn finished(
    work: &Work,
    history: &History,
    goal: &[TermId],
    reason: Reason,
    renaming: Renaming,
    moved: Moved,
) -> Result<Option<Elimination>, Stop>
    requires stands { WorkStands history.now work.now }
    requires goal { All (IsTermIn history.now work.now) goal.now }
    requires reason { IsReason history.now work.now goal.now reason }
    requires renaming { IsRenamedClause history.now work.now (whole_at work.now.bank reason) renaming }
    requires moved { IsMove history.now work.now renaming.literals.items moved }
    ensures way { IfOk result (λ found. IfSome found (IsEliminationWay history.now work.now goal.now)) }
    ensures memory { result ≡ Err Stop.OutOfSteps → ⊥ }
{
    let _ = history.len();
    let alloc = work.bank.alloc();
    match only_child(alloc, &moved)? {
        Some(child) => {
            let nexts = nexts_of(alloc, child, reason.cases.as_slice(), goal)?;
            Ok(Some(Elimination {
                nexts,
                reason,
                renaming,
                moved,
            }))
        }
        None => Ok(None),
    }
}

/// The same, where the variable gives way by SUBST.
fn substituted(
    work: &mut Work,
    history: &History,
    hints: &Hints,
    goal: &[TermId],
    reason: Reason,
    renaming: Renaming,
) -> Result<Option<Elimination>, Stop>
    requires stands { WorkStands history.now work.old }
    requires goal { All (IsTermIn history.now work.old) goal.now }
    requires reason { IsReason history.now work.old goal.now reason }
    requires renaming { IsRenamedClause history.now work.old (whole_at work.old.bank reason) renaming }
    ensures way { IfOk result (λ found. IfSome found (IsEliminationWay history.now work.new goal.now)) }
    ensures grows { WorkGrows history.now work.old work.new }
    ensures out { result ≡ Err Stop.OutOfSteps → work.new.counter.used ≡ work.new.counter.limit }
{
    match substitute_move(work, history, hints, renaming.literals.as_slice())? {
        Some(moved) => finished(work, history, goal, reason, renaming, moved),
        None => Ok(None),
    }
}

/// The same, where new variables take the places of destructor calls.
fn renamed(
    work: &mut Work,
    history: &History,
    hints: &Hints,
    goal: &[TermId],
    reason: Reason,
    whole: &[TermId],
    calls: &[TermId],
) -> Result<Option<Elimination>, Stop>
    requires stands { WorkStands history.now work.old }
    requires goal { All (IsTermIn history.now work.old) goal.now }
    requires reason { IsReason history.now work.old goal.now reason }
    requires whole { terms_at work.old.bank whole.now ≡ whole_at work.old.bank reason }
    requires over { All (IsTermIn history.now work.old) whole.now }
    requires calls { All (IsTermIn history.now work.old) calls.now }
    ensures way { IfOk result (λ found. IfSome found (IsEliminationWay history.now work.new goal.now)) }
    ensures grows { WorkGrows history.now work.old work.new }
    ensures out { result ≡ Err Stop.OutOfSteps → work.new.counter.used ≡ work.new.counter.limit }
{
    match rename(work, history, whole, calls)? {
        Some(renaming) => substituted(work, history, hints, goal, reason, renaming),
        None => Ok(None),
    }
}

/// The elimination for a reason, with new variables for these calls.
pub fn eliminated(
    work: &mut Work,
    history: &History,
    hints: &Hints,
    goal: &[TermId],
    reason: Reason,
    calls: &[TermId],
) -> Result<Option<Elimination>, Stop>
    requires stands { WorkStands history.now work.old }
    requires goal { All (IsTermIn history.now work.old) goal.now }
    requires reason { IsReason history.now work.old goal.now reason }
    requires calls { All (IsTermIn history.now work.old) calls.now }
    ensures way { IfOk result (λ found. IfSome found (IsEliminationWay history.now work.new goal.now)) }
    ensures grows { WorkGrows history.now work.old work.new }
    ensures out { result ≡ Err Stop.OutOfSteps → work.new.counter.used ≡ work.new.counter.limit }
{
    let whole = whole_goal(work, history, goal, &reason)?;
    renamed(work, history, hints, goal, reason, whole.as_slice(), calls)
}
