//! Goals that are simplified.
ghost use Rattle.std.specs.Prelude.{◌≡◌, IfOk, IfSome, Err};
ghost use Rattle.nq_bank.specs.Content.{terms_at};
ghost use Rattle.nq_history.specs.Events.{events_at};
ghost use Rattle.nq_kernel.specs.Growing.{WorkStands, WorkGrows};
ghost use Rattle.nq_lines.specs.OwnTerms.{HasOwnTerms};
ghost use Rattle.nq_event.specs.EventsAt.{hints_at};
ghost use Rattle.nq_simplify.specs.Simplified.{IsSimplified};
ghost use Rattle.nq_waterfall.specs.Ready.{CanMove, IsGoalIn};
ghost use Rattle.nq_waterfall.specs.Trails.{goals_at};
ghost use Rattle.nq_legal.specs.Legal.{IsLegal};
ghost use Rattle.nq_legal.specs.Plain.{ArePlain};

use crate::plain::are_plain;
use crate::thinning::thinned;
use crate::way::Way;
use nq_bank::TermId;
use nq_history::{Hints, History};
use nq_kernel::{MoveKind, Stop, Work};
use nq_ready::own_terms;
use nq_simplify::{Rewriter, Simplified, make_basis, simplify_goal, ways_simplify};
use nq_waterfall::laws::holding;
use nq_waterfall::{Ancestor, Lead};

/// How many literals may be rewritten in a row.
const ROUNDS: u64 = 120;

/// Simplifies a goal.
fn simplified<R: Rewriter>(
    work: &mut Work,
    history: &History,
    rewriter: &mut R,
    goal: &[TermId],
) -> Result<Simplified, Stop>
    requires stands { WorkStands history.now work.old }
    requires ready { HasOwnTerms (events_at work.old.bank history.now) }
    requires goal { IsGoalIn history.now work.old goal.now }
    ensures simplified { IfOk result (IsSimplified history.now work.new (terms_at work.old.bank goal.now)) }
    ensures grows { WorkGrows history.now work.old work.new }
    ensures out { result ≡ Err Stop.OutOfSteps → work.new.counter.used ≡ work.new.counter.limit }
{
    let basis = make_basis(work, history)?;
    simplify_goal(work, history, &basis, rewriter, goal, ROUNDS)
}

/// The move to goals in normal form.
fn lead_to(
    work: &Work,
    history: &History,
    hints: &Hints,
    goal: &[TermId],
    simplified: Simplified,
) -> Lead<Way>
    requires ready { CanMove history.now hints.now work.now }
    requires goal { IsGoalIn history.now work.now goal.now }
    requires simplified { IsSimplified history.now work.now (terms_at work.now.bank goal.now) simplified }
    requires plain { ArePlain (events_at work.now.bank history.now) (hints_at work.now.bank hints.now) (goals_at work.now.bank simplified.nexts.items) }
    ensures { IsLegal history.now hints.now work.now goal.now result }
{
    ways_simplify();
    let _ = (work.bank.len(), history.len(), hints.no_induct, goal.len());
    let Simplified { way, nexts } = simplified;
    Lead {
        kind: MoveKind::Simp,
        nexts,
        way: Way::Simplified(way),
    }
}

/// The same, where the goals are in normal form.
fn lead_if_plain(
    work: &Work,
    history: &History,
    hints: &Hints,
    goal: &[TermId],
    simplified: Simplified,
) -> Result<Option<Lead<Way>>, Stop>
    requires ready { CanMove history.now hints.now work.now }
    requires goal { IsGoalIn history.now work.now goal.now }
    requires simplified { IsSimplified history.now work.now (terms_at work.now.bank goal.now) simplified }
    ensures legal { IfOk result (λ found. IfSome found (IsLegal history.now hints.now work.now goal.now)) }
    ensures memory { result ≡ Err Stop.OutOfSteps → ⊥ }
{
    match are_plain(&work.bank, history, hints, simplified.nexts.as_slice()) {
        Ok(true) => Ok(Some(lead_to(work, history, hints, goal, simplified))),
        Ok(false) => Ok(None),
        Err(_) => Err(Stop::Memory),
    }
}

/// SIMP, where what is left is in normal form.
pub fn simplify<R: Rewriter>(
    work: &mut Work,
    history: &History,
    hints: &Hints,
    rewriter: &mut R,
    goal: &[TermId],
) -> Result<Option<Lead<Way>>, Stop>
    requires ready { CanMove history.now hints.now work.old }
    requires goal { IsGoalIn history.now work.old goal.now }
    ensures legal { IfOk result (λ found. IfSome found (IsLegal history.now hints.now work.new goal.now)) }
    ensures grows { WorkGrows history.now work.old work.new }
    ensures out { result ≡ Err Stop.OutOfSteps → work.new.counter.used ≡ work.new.counter.limit }
{
    own_terms();
    holding();
    let simplified = simplified(work, history, rewriter, goal)?;
    let thin = thinned(work, history, goal, simplified)?;
    lead_if_plain(work, history, hints, goal, thin)
}

/// Did ELIM lead to the goal below these?
fn is_eliminated(path: &[Ancestor]) -> bool {
    match path {
        [.., last] => last.kind == MoveKind::Elim,
        [] => false,
    }
}

/// Are these the same ids?
fn are_same(ids: &[TermId], others: &[TermId]) -> bool {
    if ids.len() != others.len() {
        return false;
    }
    for i in 0..ids.len() {
        if ids[i].0 != others[i].0 {
            return false;
        }
    }
    true
}

/// Does a move lead to the goal itself alone?
fn is_idle(lead: &Lead<Way>, goal: &[TermId]) -> bool {
    match lead.nexts.as_slice() {
        [only] => are_same(only.as_slice(), goal),
        [] => false,
        _ => false,
    }
}

/// SIMP of a goal to which ELIM led, where what is left is in normal form, and not the goal itself.
pub fn simplify_below<R: Rewriter>(
    work: &mut Work,
    history: &History,
    hints: &Hints,
    rewriter: &mut R,
    path: &[Ancestor],
    goal: &[TermId],
) -> Result<Option<Lead<Way>>, Stop>
    requires ready { CanMove history.now hints.now work.old }
    requires goal { IsGoalIn history.now work.old goal.now }
    ensures legal { IfOk result (λ found. IfSome found (IsLegal history.now hints.now work.new goal.now)) }
    ensures grows { WorkGrows history.now work.old work.new }
    ensures out { result ≡ Err Stop.OutOfSteps → work.new.counter.used ≡ work.new.counter.limit }
{
    if !is_eliminated(path) {
        return Ok(None);
    }
    match simplify(work, history, hints, rewriter, goal)? {
        Some(lead) => if is_idle(&lead, goal) {
            Ok(None)
        } else {
            Ok(Some(lead))
        },
        None => Ok(None),
    }
}
