//! The steps from a first goal to a clause, and from there down to its last literal.
ghost use Rattle.std.specs.Prelude.{◌≡◌, ◌++◌, ◌∷◌, [], All, List, OnOk};
ghost use Rattle.nq_bank.specs.Content.{Stands, terms_at};
ghost use Rattle.nq_comment.specs.ReportViews.{steps_of};
ghost use Rattle.nq_goals.specs.Trees.{Step};
ghost use Rattle.nq_answers.specs.Goals.{goal_text};
ghost use Rattle.nq_answers.specs.Shown.{shown_steps};
ghost use Rattle.nq_decided.specs.FailedFalsehoods.{clause_steps, dropping_steps, steps_below};

use crate::texts::goal_text;
use nq_bank::{Bank, TermId};
use nq_comment::{Move, ShownStep};
use std::alloc::AllocError;

/// Pushes the step that leads from the goal of a number to a goal.
fn push_step(
    bank: &Bank,
    parent: u64,
    led_by: Move,
    goal: &[TermId],
    steps: &mut Vec<ShownStep>,
) -> Result<(), AllocError>
    requires { All (Stands bank.now) goal.now }
    ensures { OnOk result (steps_of steps.new.items ≡ steps_of steps.old.items ++ record { parent = parent; led_by = led_by; goal = goal_text (terms_at bank.now goal.now) } ∷ []) }
{
    let goal = goal_text(bank, goal)?;
    steps.push(ShownStep {
        parent,
        led_by,
        goal,
    })?;
    Ok(())
}

/// Pushes the step from the last goal to this one by IRR, the step from there to what is left of it without its first literal, and
/// so on.
fn push_dropped(bank: &Bank, goal: &[TermId], steps: &mut Vec<ShownStep>) -> Result<(), AllocError>
    requires { All (Stands bank.now) goal.now }
    ensures { OnOk result ((old : List Step) → steps_of steps.old.items ≡ shown_steps old → steps_of steps.new.items ≡ shown_steps (dropping_steps (terms_at bank.now goal.now) old)) }
{
    match goal {
        [] => Ok(()),
        [_, rest @ ..] => {
            let parent = steps.len() as u64;
            push_step(bank, parent, Move::Irr, goal, steps)?;
            push_dropped(bank, rest, steps)
        }
    }
}

/// The same from the last goal on, which this is.
fn push_below(bank: &Bank, goal: &[TermId], steps: &mut Vec<ShownStep>) -> Result<(), AllocError>
    requires { All (Stands bank.now) goal.now }
    ensures { OnOk result ((old : List Step) → steps_of steps.old.items ≡ shown_steps old → steps_of steps.new.items ≡ shown_steps (steps_below (terms_at bank.now goal.now) old)) }
{
    match goal {
        [] => Ok(()),
        [_, rest @ ..] => push_dropped(bank, rest, steps),
    }
}

/// Pushes the step from the first goal to a clause by SIMP, and the steps from there down to its last literal.
pub(crate) fn push_clause(
    bank: &Bank,
    literals: &[TermId],
    steps: &mut Vec<ShownStep>,
) -> Result<(), AllocError>
    requires { All (Stands bank.now) literals.now }
    ensures { OnOk result ((old : List Step) → steps_of steps.old.items ≡ shown_steps old → steps_of steps.new.items ≡ shown_steps (clause_steps (terms_at bank.now literals.now) old)) }
{
    push_step(bank, 0, Move::Simp, literals, steps)?;
    push_below(bank, literals, steps)
}
