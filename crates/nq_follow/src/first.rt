//! The trace from a first goal.
ghost use Rattle.std.specs.Prelude.{◌≡◌, ◌∷◌, [], All, IfOk, Err};
ghost use Rattle.nq_bank.specs.Content.{terms_at};
ghost use Rattle.nq_history.specs.Events.{events_at};
ghost use Rattle.nq_event.specs.EventsAt.{hints_at};
ghost use Rattle.nq_kernel.specs.Growing.{WorkGrows};
ghost use Rattle.nq_traces.specs.Traces.{IsTrace};
ghost use Rattle.nq_waterfall.specs.Outcomes.{IsEmpty};
ghost use Rattle.nq_waterfall.specs.Ready.{CanMove, IsGoalIn};
ghost use Rattle.nq_waterfall.specs.Trails.{StepStands, steps_at};

use crate::following::follow;
use nq_bank::TermId;
use nq_history::{Hints, History};
use nq_kernel::{PathStep, Stop, Work};
use nq_waterfall::{Mover, Trail};
use std::alloc::Global;

/// A trail on which there is nothing.
fn nothing(alloc: Global) -> Trail
    ensures { IsEmpty result }
{
    Trail {
        path: Vec::new(alloc),
        steps: Vec::new(alloc),
        trace: Vec::new(alloc),
    }
}

/// The steps from a first goal to all goals to which a mover's moves lead from it. Each of them is legal.
pub fn follow_first<M: Mover>(
    work: &mut Work,
    mover: &mut M,
    history: &History,
    hints: &Hints,
    goal: &[TermId],
) -> Result<Vec<PathStep>, Stop>
    requires ready { CanMove history.now hints.now work.old }
    requires goal { IsGoalIn history.now work.old goal.now }
    ensures trace { IfOk result (λ steps. IsTrace (events_at work.new.bank history.now) (hints_at work.new.bank hints.now) (terms_at work.new.bank goal.now) (steps_at work.new.bank steps.items)) }
    ensures stand { IfOk result (λ steps. All (StepStands work.new.bank) steps.items) }
    ensures grows { WorkGrows history.now work.old work.new }
    ensures out { result ≡ Err Stop.OutOfSteps → work.new.counter.used ≡ work.new.counter.limit }
{
    let mut trail = nothing(work.bank.alloc());
    follow(work, mover, history, hints, &mut trail, goal, 0, 0)?;
    Ok(trail.trace)
}
