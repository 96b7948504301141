// The lines of a first goal and of the steps from it.
ghost use Rattle.std.specs.Prelude.{◌≡◌, ◌++◌, codes, IfOk, take};
ghost use Rattle.nq_comment.specs.ReportViews.{step_of, steps_of};
ghost use Rattle.nq_comment.specs.Text.{cause_words, failed_line, first_line, goal_lines, move_word, step_line, step_line_by, step_lines_from};

use crate::text::joined;
use crate::{Cause, Move, ShownStep};
use std::alloc::{AllocError, Global};

/// The lines of a lemma that was proved by moves from this goal.
pub(crate) fn proved_lines(
    alloc: Global,
    goal: &[u8],
    steps: &[ShownStep],
) -> Result<Vec<u8>, AllocError>
    ensures { IfOk result (λ text. text.items ≡ goal_lines goal.now (steps_of steps.now) ++ codes "   Proved.\n") }
{
    let mut text = goal_lines(alloc, goal, steps)?;
    text.extend_from_slice(b"   Proved.\n")?;
    Ok(text)
}

/// The lines of a lemma whose moves from this goal lead to one that is left over for the cause.
pub(crate) fn failed_lines(
    alloc: Global,
    goal: &[u8],
    steps: &[ShownStep],
    cause: Cause,
) -> Result<Vec<u8>, AllocError>
    ensures { IfOk result (λ text. text.items ≡ goal_lines goal.now (steps_of steps.now) ++ failed_line cause) }
{
    let mut text = goal_lines(alloc, goal, steps)?;
    let last = failed_line(alloc, cause)?;
    text.extend_from_slice(last.as_slice())?;
    Ok(text)
}

fn failed_line(alloc: Global, cause: Cause) -> Result<Vec<u8>, AllocError>
    ensures { IfOk result (λ text. text.items ≡ failed_line cause) }
{
    let pieces = [
        b"   Failed, ".as_slice(),
        cause_words(cause),
        b".\n".as_slice(),
    ];
    joined(alloc, pieces.as_slice())
}

fn goal_lines(alloc: Global, goal: &[u8], steps: &[ShownStep]) -> Result<Vec<u8>, AllocError>
    ensures { IfOk result (λ text. text.items ≡ goal_lines goal.now (steps_of steps.now)) }
{
    let mut text = first_line(alloc, goal)?;
    let lines = step_lines(alloc, steps)?;
    text.extend_from_slice(lines.as_slice())?;
    Ok(text)
}

fn first_line(alloc: Global, goal: &[u8]) -> Result<Vec<u8>, AllocError>
    ensures { IfOk result (λ text. text.items ≡ first_line goal.now) }
{
    let pieces = [b"   0. GOAL: ".as_slice(), goal, b"\n".as_slice()];
    joined(alloc, pieces.as_slice())
}

fn step_lines(alloc: Global, steps: &[ShownStep]) -> Result<Vec<u8>, AllocError>
    ensures { IfOk result (λ text. text.items ≡ step_lines_from 1 (steps_of steps.now)) }
{
    let mut text = Vec::new(alloc);
    let mut number: u64 = 1;
    for step in steps {
        let line = step_line(alloc, number, step)?;
        text.extend_from_slice(line.as_slice())?;
        number += 1;
    }
    Ok(text)
}

fn step_line(alloc: Global, number: u64, step: &ShownStep) -> Result<Vec<u8>, AllocError>
    ensures { IfOk result (λ text. text.items ≡ step_line number (step_of step.now)) }
{
    let digits = number.to_string(alloc)?;
    let parent = step.parent.to_string(alloc)?;
    step_line_by(
        alloc,
        digits.as_bytes(),
        move_word(step.led_by),
        parent.as_bytes(),
        step.goal.as_slice(),
    )
}

fn step_line_by(
    alloc: Global,
    number: &[u8],
    led_by: &[u8],
    parent: &[u8],
    goal: &[u8],
) -> Result<Vec<u8>, AllocError>
    ensures { IfOk result (λ text. text.items ≡ step_line_by number.now led_by.now parent.now goal.now) }
{
    let pieces = [
        b"   ".as_slice(),
        number,
        b". ".as_slice(),
        led_by,
        b" from ".as_slice(),
        parent,
        b": ".as_slice(),
        goal,
        b"\n".as_slice(),
    ];
    joined(alloc, pieces.as_slice())
}

fn move_word(led_by: Move) -> &'static [u8]
    ensures { result.now ≡ move_word led_by }
{
    match led_by {
        Move::Simp => b"SIMP".as_slice(),
        Move::Subst => b"SUBST".as_slice(),
        Move::Elim => b"ELIM".as_slice(),
        Move::Fert => b"FERT".as_slice(),
        Move::Gen => b"GEN".as_slice(),
        Move::Irr => b"IRR".as_slice(),
        Move::Ind => b"IND".as_slice(),
    }
}

fn cause_words(cause: Cause) -> &'static [u8]
    ensures { result.now ≡ cause_words cause }
{
    match cause {
        Cause::False => b"false".as_slice(),
        Cause::NoInduction => b"no induction".as_slice(),
        Cause::Loop => b"loop".as_slice(),
        Cause::Forbidden => b"induction forbidden".as_slice(),
        Cause::Depth => b"too many inductions".as_slice(),
    }
}
