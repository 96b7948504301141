//! Goals that an induction leads on.
ghost use Rattle.std.specs.Prelude.{◌≡◌, ◌∷◌, [], All, IfOk, IfSome, Err};
ghost use Rattle.nq_bank.specs.Content.{term_at, terms_at};
ghost use Rattle.nq_history.specs.Events.{events_at};
ghost use Rattle.nq_kernel.specs.Growing.{WorkStands, WorkGrows};
ghost use Rattle.nq_kernel.specs.Ready.{IsReady};
ghost use Rattle.nq_event.specs.EventsAt.{hints_at};
ghost use Rattle.nq_goals.specs.Inducting.{scheme_calls};
ghost use Rattle.nq_goals.specs.Moves.{StartsInduction};
ghost use Rattle.nq_lines.specs.Lines.{IsTermIn};
ghost use Rattle.nq_waterfall.specs.Ready.{CanMove, IsGoalIn};
ghost use Rattle.nq_waterfall.specs.Trails.{AncestorStands, above_at, goals_at};
ghost use Rattle.nq_waterfall.specs.Turns.{IsLead};
ghost use Rattle.nq_legal.specs.Inducting.{IsInduction, IsInductionBy};
ghost use Rattle.nq_legal.specs.Leaving.{IsToHint, IsToInduct};
ghost use Rattle.nq_legal.specs.Legal.{IsWay, NormalAt};

use crate::way::Way;
use nq_bank::TermId;
use nq_history::{Hints, History};
use nq_kernel::{MoveKind, Stop, Work};
use nq_waterfall::{Ancestor, Lead};

/// What finds inductions.
pub trait Inductor {
    /// The goals of an induction on a goal, by a scheme that calls in it suggest, where one is found: the base case, and then each
    /// step case.
    fn induct(
        &mut self,
        work: &mut Work,
        history: &History,
        goal: &[TermId],
    ) -> Result<Option<Vec<Vec<TermId>>>, Stop>
        requires stands { WorkStands history.now work.old }
        requires ready { IsReady (events_at work.old.bank history.now) }
        requires goal { IsGoalIn history.now work.old goal.now }
        ensures leads { IfOk result (λ found. IfSome found (λ nexts. IsInduction (events_at work.new.bank history.now) (terms_at work.new.bank goal.now) (goals_at work.new.bank nexts.items))) }
        ensures inside { IfOk result (λ found. IfSome found (λ nexts. All (λ next. IsGoalIn history.now work.new next.items) nexts.items)) }
        ensures grows { WorkGrows history.now work.old work.new }
        ensures out { result ≡ Err Stop.OutOfSteps → work.new.counter.used ≡ work.new.counter.limit };

    /// The same by a scheme that this call suggests, which need not stand in the goal.
    fn induct_by(
        &mut self,
        work: &mut Work,
        history: &History,
        goal: &[TermId],
        call: TermId,
    ) -> Result<Option<Vec<Vec<TermId>>>, Stop>
        requires stands { WorkStands history.now work.old }
        requires ready { IsReady (events_at work.old.bank history.now) }
        requires goal { IsGoalIn history.now work.old goal.now }
        requires call { IsTermIn history.now work.old call }
        ensures leads { IfOk result (λ found. IfSome found (λ nexts. IsInductionBy (events_at work.new.bank history.now) (term_at work.new.bank call ∷ []) (terms_at work.new.bank goal.now) (goals_at work.new.bank nexts.items))) }
        ensures inside { IfOk result (λ found. IfSome found (λ nexts. All (λ next. IsGoalIn history.now work.new next.items) nexts.items)) }
        ensures grows { WorkGrows history.now work.old work.new }
        ensures out { result ≡ Err Stop.OutOfSteps → work.new.counter.used ≡ work.new.counter.limit };
}

/// What finds no induction.
#[derive(Clone, Copy, Debug)]
pub struct NoInductor;

impl Inductor for NoInductor {
    fn induct(
        &mut self,
        work: &mut Work,
        history: &History,
        goal: &[TermId],
    ) -> Result<Option<Vec<Vec<TermId>>>, Stop> {
        Ok(None)
    }

    fn induct_by(
        &mut self,
        work: &mut Work,
        history: &History,
        goal: &[TermId],
        call: TermId,
    ) -> Result<Option<Vec<Vec<TermId>>>, Stop> {
        Ok(None)
    }
}

/// IND to these goals.
fn lead_to(
    work: &Work,
    history: &History,
    hints: &Hints,
    path: &[Ancestor],
    goal: &[TermId],
    nexts: Vec<Vec<TermId>>,
) -> Lead<Way>
    requires normal { NormalAt work.now.bank history.now hints.now goal.now }
    requires starts { StartsInduction (events_at work.now.bank history.now) (hints_at work.now.bank hints.now) (above_at work.now.bank path.now) (terms_at work.now.bank goal.now) }
    requires leads { IsInductionBy (events_at work.now.bank history.now) (scheme_calls (events_at work.now.bank history.now) (hints_at work.now.bank hints.now) (above_at work.now.bank path.now) (terms_at work.now.bank goal.now)) (terms_at work.now.bank goal.now) (goals_at work.now.bank nexts.items) }
    requires inside { All (λ next. IsGoalIn history.now work.now next.items) nexts.items }
    ensures { IsLead IsWay history.now hints.now work.now path.now goal.now result }
{
    let _ = (
        work.bank.len(),
        history.len(),
        hints.no_induct,
        path.len(),
        goal.len(),
    );
    Lead {
        kind: MoveKind::Ind,
        nexts,
        way: Way::Inducted,
    }
}

/// IND by a call that suggests one, where a scheme is found.
pub fn induct_on<I: Inductor>(
    work: &mut Work,
    inductor: &mut I,
    history: &History,
    hints: &Hints,
    path: &[Ancestor],
    goal: &[TermId],
) -> Result<Option<Lead<Way>>, Stop>
    requires ready { CanMove history.now hints.now work.old }
    requires path { All (AncestorStands work.old.bank) path.now }
    requires goal { IsGoalIn history.now work.old goal.now }
    requires normal { NormalAt work.old.bank history.now hints.now goal.now }
    requires starts { IsToInduct work.old.bank history.now hints.now path.now goal.now }
    ensures legal { IfOk result (λ found. IfSome found (IsLead IsWay history.now hints.now work.new path.now goal.now)) }
    ensures grows { WorkGrows history.now work.old work.new }
    ensures out { result ≡ Err Stop.OutOfSteps → work.new.counter.used ≡ work.new.counter.limit }
{
    let found = inductor.induct(work, history, goal)?;
    match found {
        Some(nexts) => Ok(Some(lead_to(work, history, hints, path, goal, nexts))),
        None => Ok(None),
    }
}

/// IND by the call of a hint, where a scheme is found.
pub fn induct_hinted<I: Inductor>(
    work: &mut Work,
    inductor: &mut I,
    history: &History,
    hints: &Hints,
    path: &[Ancestor],
    goal: &[TermId],
    call: TermId,
) -> Result<Option<Lead<Way>>, Stop>
    requires ready { CanMove history.now hints.now work.old }
    requires path { All (AncestorStands work.old.bank) path.now }
    requires goal { IsGoalIn history.now work.old goal.now }
    requires normal { NormalAt work.old.bank history.now hints.now goal.now }
    requires starts { IsToHint work.old.bank history.now hints.now path.now goal.now call }
    ensures legal { IfOk result (λ found. IfSome found (IsLead IsWay history.now hints.now work.new path.now goal.now)) }
    ensures grows { WorkGrows history.now work.old work.new }
    ensures out { result ≡ Err Stop.OutOfSteps → work.new.counter.used ≡ work.new.counter.limit }
{
    let found = inductor.induct_by(work, history, goal, call)?;
    match found {
        Some(nexts) => Ok(Some(lead_to(work, history, hints, path, goal, nexts))),
        None => Ok(None),
    }
}
