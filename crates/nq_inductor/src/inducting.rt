//! Inductions by one case, which the calls of a goal suggest.
ghost use Rattle.std.specs.Prelude.{◌≡◌, ◌∷◌, [], All, IfOk, IfSome, Err};
ghost use Rattle.nq_bank.specs.Content.{term_at, terms_at};
ghost use Rattle.nq_history.specs.Events.{events_at};
ghost use Rattle.nq_kernel.specs.Growing.{WorkGrows, WorkStands};
ghost use Rattle.nq_kernel.specs.Ready.{IsReady};
ghost use Rattle.nq_lines.specs.Lines.{IsTermIn};
ghost use Rattle.nq_tracer.specs.Leads as traced;
ghost use Rattle.nq_legal.specs.Inducting.{IsInduction, IsInductionBy};
ghost use Rattle.nq_inductor.specs.Suggesting.{IsSuggestingCall};
ghost use Rattle.nq_waterfall.specs.Ready.{IsGoalIn};
ghost use Rattle.nq_waterfall.specs.Trails.{goals_at};

use crate::counting::count_made;
use crate::finding::found_by;
use crate::goals::own_goals;
use crate::suggesting::suggesting_calls;
use nq_bank::TermId;
use nq_history::History;
use nq_kernel::{Stop, Work};
use nq_legal::Inductor;
use nq_tracer::Nexts;
use nq_waterfall::laws::holding;

/// Finds inductions by one case: by the first recursive call in the body of the function that a call in the goal calls. Of the calls
/// that suggest one, the first is taken for which the goals can be made.
#[derive(Clone, Copy, Debug)]
pub struct OneCase;

/// The goals of an induction on a goal that this call suggests; new terms are counted.
fn counted_by(
    work: &mut Work,
    history: &History,
    goal: &[TermId],
    call: TermId,
) -> Result<Option<Nexts>, Stop>
    requires stands { WorkStands history.now work.old }
    requires ready { IsReady (events_at work.old.bank history.now) }
    requires goal { IsGoalIn history.now work.old goal.now }
    requires call { IsTermIn history.now work.old call }
    ensures leads { IfOk result (λ found. IfSome found (λ n. traced.IsInductionBy (events_at work.new.bank history.now) (term_at work.new.bank call ∷ []) (terms_at work.new.bank goal.now) (term_at work.new.bank n.base) (term_at work.new.bank n.step))) }
    ensures grows { WorkGrows history.now work.old work.new }
    ensures out { result ≡ Err Stop.OutOfSteps → work.new.counter.used ≡ work.new.counter.limit }
{
    let before = work.bank.len();
    match found_by(&mut work.bank, history, goal, call) {
        Ok(found) => {
            let made = work.bank.len().saturating_sub(before);
            count_made(work, made)?;
            Ok(found)
        }
        Err(_) => Err(Stop::Memory),
    }
}

/// The goals of an induction on a goal that this call suggests, where they are such as a log can spell.
fn inducted_by(
    work: &mut Work,
    history: &History,
    goal: &[TermId],
    call: TermId,
) -> Result<Option<Vec<Vec<TermId>>>, Stop>
    requires stands { WorkStands history.now work.old }
    requires ready { IsReady (events_at work.old.bank history.now) }
    requires goal { IsGoalIn history.now work.old goal.now }
    requires call { IsTermIn history.now work.old call }
    ensures leads { IfOk result (λ found. IfSome found (λ nexts. IsInductionBy (events_at work.new.bank history.now) (term_at work.new.bank call ∷ []) (terms_at work.new.bank goal.now) (goals_at work.new.bank nexts.items))) }
    ensures inside { IfOk result (λ found. IfSome found (λ nexts. All (λ next. IsGoalIn history.now work.new next.items) nexts.items)) }
    ensures grows { WorkGrows history.now work.old work.new }
    ensures out { result ≡ Err Stop.OutOfSteps → work.new.counter.used ≡ work.new.counter.limit }
{
    let found = counted_by(work, history, goal, call)?;
    match found {
        Some(nexts) => own_goals(work, history, nexts),
        None => Ok(None),
    }
}

/// The same by the first of these calls of the goal, from a place on, for which there are any.
fn inducted_from(
    work: &mut Work,
    history: &History,
    goal: &[TermId],
    calls: &[TermId],
    place: usize,
) -> Result<Option<Vec<Vec<TermId>>>, Stop>
    requires stands { WorkStands history.now work.old }
    requires ready { IsReady (events_at work.old.bank history.now) }
    requires goal { IsGoalIn history.now work.old goal.now }
    requires calls { All (IsSuggestingCall history.now work.old goal.now) calls.now }
    ensures leads { IfOk result (λ found. IfSome found (λ nexts. IsInduction (events_at work.new.bank history.now) (terms_at work.new.bank goal.now) (goals_at work.new.bank nexts.items))) }
    ensures inside { IfOk result (λ found. IfSome found (λ nexts. All (λ next. IsGoalIn history.now work.new next.items) nexts.items)) }
    ensures grows { WorkGrows history.now work.old work.new }
    ensures out { result ≡ Err Stop.OutOfSteps → work.new.counter.used ≡ work.new.counter.limit }
{
    holding();
    if place >= calls.len() {
        return Ok(None);
    }
    let found = inducted_by(work, history, goal, calls[place])?;
    match found {
        Some(nexts) => Ok(Some(nexts)),
        None => inducted_from(work, history, goal, calls, place + 1),
    }
}

impl Inductor for OneCase {
    fn induct(
        &mut self,
        work: &mut Work,
        history: &History,
        goal: &[TermId],
    ) -> Result<Option<Vec<Vec<TermId>>>, Stop> {
        match suggesting_calls(work, history, goal) {
            Ok(calls) => inducted_from(work, history, goal, calls.as_slice(), 0),
            Err(_) => Err(Stop::Memory),
        }
    }

    fn induct_by(
        &mut self,
        work: &mut Work,
        history: &History,
        goal: &[TermId],
        call: TermId,
    ) -> Result<Option<Vec<Vec<TermId>>>, Stop> {
        inducted_by(work, history, goal, call)
    }
}
