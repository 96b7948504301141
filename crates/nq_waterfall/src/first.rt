//! A first goal: its proof, or the tree of its failure.
ghost use Rattle.std.specs.Prelude.{◌≡◌, ◌∷◌, [], IfOk};
ghost use Rattle.nq_kernel.specs.Growing.{WorkGrows};
ghost use Rattle.nq_waterfall.specs.Ready.{CanMove, IsGoalIn};
ghost use Rattle.nq_waterfall.specs.Outcomes.{IsOutcome, IsEmpty};

use crate::halt::Halt;
use crate::mover::Mover;
use crate::solving::{Place, Solved, solve};
use crate::trail::Trail;
use nq_bank::TermId;
use nq_history::{Hints, History};
use nq_kernel::{Cause, PathStep, Work};
use std::alloc::{AllocError, Global};

/// What became of a first goal.
#[derive(Drop)]
pub enum Outcome {
    /// The line of this number has only its literals, and these are the steps of the proof.
    Proved(u64, Vec<PathStep>),
    /// The tree of a failure, and its cause.
    Failed(Vec<PathStep>, Cause),
    /// The counter is at its limit.
    OutOfSteps,
    /// Nothing is told.
    Unknown,
}

/// A trail on which there is nothing.
fn nothing(alloc: Global) -> Trail
    ensures { IsEmpty result }
{
    Trail {
        path: Vec::new(alloc),
        steps: Vec::new(alloc),
        trace: Vec::new(alloc),
    }
}

/// Solves a first goal. A proof has a line with only the goal's literals, and each of its steps is legal. A failure has a tree
/// from the goal, whose cause is that of the goal left over with the least number. Steps run out only where the counter is at
/// its limit. Nothing is told where the mover tells nothing of a goal, or keeps no way back of a move whose goals were all proved.
pub fn solve_first<M: Mover>(
    work: &mut Work,
    mover: &mut M,
    history: &History,
    hints: &Hints,
    goal: &[TermId],
) -> Result<Outcome, AllocError>
    requires ready { CanMove history.now hints.now work.old }
    requires goal { IsGoalIn history.now work.old goal.now }
    ensures outcome { IfOk result (IsOutcome history.now hints.now work.new goal.now) }
    ensures grows { WorkGrows history.now work.old work.new }
{
    let mut trail = nothing(work.bank.alloc());
    let place = Place {
        number: 0,
        trace: 0,
        depth: 0,
    };
    match solve(work, mover, history, hints, &mut trail, goal, place) {
        Ok(Solved::Proved(line)) => Ok(Outcome::Proved(line, trail.trace)),
        Ok(Solved::Unsolved(cause)) => Ok(Outcome::Failed(trail.steps, cause)),
        Err(Halt::OutOfSteps) => Ok(Outcome::OutOfSteps),
        Err(Halt::Unknown) => Ok(Outcome::Unknown),
        Err(Halt::Memory) => Err(AllocError),
    }
}
