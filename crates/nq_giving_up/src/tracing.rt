//! The trace that is told of a lemma which was proved.
ghost use Rattle.std.specs.Prelude.{◌≡◌, IfOk, IfSome};
ghost use Rattle.nq_bank.specs.Content.{Stands, term_at, terms_at};
ghost use Rattle.nq_bank.specs.Marks.{CanRelease, released};
ghost use Rattle.nq_history.specs.Events.{HistoryStands, events_at};
ghost use Rattle.nq_history.specs.Hints.{HintsStand};
ghost use Rattle.nq_kernel.specs.Hints.{HintsAreIn};
ghost use Rattle.nq_kernel.specs.Over.{TermIsIn};
ghost use Rattle.nq_kernel.specs.Ready.{IsReady};
ghost use Rattle.nq_comment.specs.ReportViews.{steps_of};
ghost use Rattle.nq_event.specs.EventsAt.{hints_at};
ghost use Rattle.nq_goals.specs.Hints.{first_goal};
ghost use Rattle.nq_answers.specs.Shown.{ShowsTrace};
ghost use Rattle.nq_waterfall.specs.Ready.{CanMove, IsGoalIn};
ghost use Rattle.nq_giving_up.specs.Tracing.{IsFollowed};

use crate::bounded::Bounded;
use crate::shown::shown_steps;
use nq_bank::{Bank, Mark, TermId};
use nq_comment::ShownStep;
use nq_first_goal::{Traced, trace_lemma};
use nq_follow::follow_first;
use nq_history::{Hints, History};
use nq_inductor::OneCase;
use nq_kernel::{Log, Stop, Work, held_work};
use nq_legal::{Legal, NoCloser};
use nq_literal::LiteralRewriter;
use nq_rule_table::Rules;
use nq_uses::first_goal;
use nq_waterfall::Mover;
use nq_waterfall::laws::holding;
use std::alloc::{AllocError, Global};

/// The most steps that a trace takes. Of one that takes more, one induction is told.
const TRACE_STEPS: u64 = 40_000;

/// How many steps are used when a trace goes on to no further goals.
const TRACED_STEPS: u64 = 10_000;

/// How many steps are used when a trace goes on to no further goals below its inductions.
const INDUCTED_STEPS: u64 = 6_000;

/// The steps of a trace, if it is told, and the bank.
#[derive(Drop)]
pub struct Followed {
    /// The bank.
    pub bank: Bank,
    /// The steps.
    pub steps: Option<Vec<ShownStep>>,
}

/// The steps of a trace from a goal over the bank of this work.
fn follow_over<M: Mover>(
    mut work: Work,
    mover: &mut M,
    history: &History,
    hints: &Hints,
    goal: &[TermId],
) -> Result<Followed, AllocError>
    requires ready { CanMove history.now hints.now work }
    requires goal { IsGoalIn history.now work goal.now }
    ensures { IfOk result (IsFollowed history.now hints.now work goal.now) }
{
    match follow_first(&mut work, mover, history, hints, goal) {
        Ok(steps) => {
            let shown = shown_steps(&work.bank, steps.as_slice())?;
            Ok(Followed {
                bank: work.bank,
                steps: Some(shown),
            })
        }
        Err(Stop::OutOfSteps) => Ok(Followed {
            bank: work.bank,
            steps: None,
        }),
        Err(Stop::Memory) => Err(AllocError),
    }
}

/// Without what was made in the bank past the mark.
fn given_back(followed: Followed, mark: Mark) -> Followed
    requires { CanRelease followed.bank mark }
    ensures bank { result.bank ≡ released followed.bank mark }
    ensures steps { result.steps ≡ followed.steps }
{
    let Followed { mut bank, steps } = followed;
    bank.release(mark);
    Followed { bank, steps }
}

/// The steps of a trace from the first goal of a lemma, where they are not too many.
fn follow_lemma(
    alloc: Global,
    bank: Bank,
    history: &History,
    hints: &Hints,
    goal: TermId,
) -> Result<Followed, AllocError>
    requires history { HistoryStands bank history.now }
    requires ready { IsReady (events_at bank history.now) }
    requires goal { Stands bank goal }
    requires over { TermIsIn bank history.now goal }
    requires hints { HintsStand bank hints.now }
    requires hint_terms { HintsAreIn bank history.now hints.now }
    ensures bank { IfOk result (λ followed. followed.bank ≡ bank) }
    ensures told { IfOk result (λ followed. IfSome followed.steps (λ steps. ShowsTrace (events_at bank history.now) (hints_at bank hints.now) (first_goal (events_at bank history.now) (hints_at bank hints.now) (term_at bank goal)) (steps_of steps.items))) }
{
    holding();
    held_work();
    let rules = Rules::of(&bank, history)?;
    let mark = bank.mark();
    let mut mover = Bounded {
        mover: Legal {
            closer: NoCloser,
            rewriter: LiteralRewriter::new(alloc, hints, &rules, u64::MAX),
            inductor: OneCase,
        },
        until: TRACED_STEPS,
        inducted_until: INDUCTED_STEPS,
    };
    let mut work = Work::new(bank, Log::new(alloc), TRACE_STEPS);
    let Ok(first) = first_goal(&mut work.bank, history, hints, goal) else {
        return Err(AllocError);
    };
    let followed = follow_over(work, &mut mover, history, hints, first.as_slice())?;
    Ok(given_back(followed, mark))
}

/// The steps of a trace from the first goal of a lemma: those of the moves of the legal mover, as far as steps go, or, where one move
/// takes too many, of one induction. A trace may be without steps. What it made in the bank is given back.
pub fn trace_proof(
    alloc: Global,
    bank: Bank,
    history: &History,
    hints: &Hints,
    goal: TermId,
) -> Result<Traced, AllocError>
    requires history { HistoryStands bank history.now }
    requires ready { IsReady (events_at bank history.now) }
    requires goal { Stands bank goal }
    requires over { TermIsIn bank history.now goal }
    requires hints { HintsStand bank hints.now }
    requires hint_terms { HintsAreIn bank history.now hints.now }
    ensures bank { IfOk result (λ traced. traced.bank ≡ bank) }
    ensures told { IfOk result (λ traced. ShowsTrace (events_at bank history.now) (hints_at bank hints.now) (first_goal (events_at bank history.now) (hints_at bank hints.now) (term_at bank goal)) (steps_of traced.steps.items)) }
{
    let Followed { bank, steps } = follow_lemma(alloc, bank, history, hints, goal)?;
    match steps {
        Some(steps) => Ok(Traced { bank, steps }),
        None => trace_lemma(bank, history, hints, goal),
    }
}
