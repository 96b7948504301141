//! The steps of a tree, as the commentary shows them.
ghost use Rattle.std.specs.Prelude.{◌≡◌, All, IfOk};
ghost use Rattle.nq_comment.specs.ReportViews.{step_of, steps_of};
ghost use Rattle.nq_answers.specs.Shown.{cause_shown, shown_kind, shown_step, shown_steps};
ghost use Rattle.nq_waterfall.specs.Kinds.{goal_cause, goal_kind};
ghost use Rattle.nq_waterfall.specs.Trails.{StepStands, step_at, steps_at};

use nq_bank::Bank;
use nq_comment::{Cause, Move, ShownStep};
use nq_first_goal::goal_text;
use nq_kernel::{Cause as GoalCause, MoveKind, PathStep};
use std::alloc::AllocError;

/// The kind of a move, as it is shown.
fn shown_kind(kind: MoveKind) -> Move
    ensures { result ≡ shown_kind (goal_kind kind) }
{
    match kind {
        MoveKind::Simp => Move::Simp,
        MoveKind::Subst => Move::Subst,
        MoveKind::Elim => Move::Elim,
        MoveKind::Fert => Move::Fert,
        MoveKind::Gen => Move::Gen,
        MoveKind::Irr => Move::Irr,
        MoveKind::Ind => Move::Ind,
    }
}

/// The cause of a goal that is left over, as it is shown.
pub fn shown_cause(cause: GoalCause) -> Cause
    ensures { cause_shown result ≡ goal_cause cause }
{
    match cause {
        GoalCause::False => Cause::False,
        GoalCause::NoInduction => Cause::NoInduction,
        GoalCause::Loop => Cause::Loop,
        GoalCause::Forbidden => Cause::Forbidden,
        GoalCause::Depth => Cause::Depth,
    }
}

/// A step, as it is shown.
fn shown_step(bank: &Bank, step: &PathStep) -> Result<ShownStep, AllocError>
    requires { StepStands bank.now step.now }
    ensures { IfOk result (λ s. step_of s ≡ shown_step (step_at bank.now step.now)) }
{
    let goal = goal_text(bank, step.goal.as_slice())?;
    Ok(ShownStep {
        parent: step.parent,
        led_by: shown_kind(step.kind),
        goal,
    })
}

/// The steps, as they are shown.
pub fn shown_steps(bank: &Bank, steps: &[PathStep]) -> Result<Vec<ShownStep>, AllocError>
    requires { All (StepStands bank.now) steps.now }
    ensures { IfOk result (λ v. steps_of v.items ≡ shown_steps (steps_at bank.now steps.now)) }
{
    let mut shown = Vec::new(bank.alloc());
    for step in steps {
        let one = shown_step(bank, step)?;
        shown.push(one)?;
    }
    Ok(shown)
}
