// The lines of a recursive definition of which no measure is proved.
ghost use Rattle.std.specs.Prelude.{◌≡◌, IfOk, take};
ghost use Rattle.std.specs.List.{flat_map};
ghost use Rattle.nq_comment.specs.ReportViews.{trial_of, trials_of};
ghost use Rattle.nq_comment.specs.Text.{trial_end, trial_line, trial_line_by, unmeasured_lines};

use crate::Trial;
use crate::text::joined;
use std::alloc::{AllocError, Global};

/// The lines of the measures that were tried, and of the refusal.
pub(crate) fn unmeasured_lines(alloc: Global, trials: &[Trial]) -> Result<Vec<u8>, AllocError>
    ensures { IfOk result (λ text. text.items ≡ unmeasured_lines (trials_of trials.now)) }
{
    let mut text = trial_lines(alloc, trials)?;
    text.extend_from_slice(b"   Refused 64 NoMeasure.\n")?;
    Ok(text)
}

fn trial_lines(alloc: Global, trials: &[Trial]) -> Result<Vec<u8>, AllocError>
    ensures { IfOk result (λ text. text.items ≡ flat_map trial_line (trials_of trials.now)) }
{
    let mut text = Vec::new(alloc);
    for trial in trials {
        let line = trial_line(alloc, trial)?;
        text.extend_from_slice(line.as_slice())?;
    }
    Ok(text)
}

fn trial_line(alloc: Global, trial: &Trial) -> Result<Vec<u8>, AllocError>
    ensures { IfOk result (λ text. text.items ≡ trial_line (trial_of trial.now)) }
{
    trial_line_by(
        alloc,
        trial.measure.as_slice(),
        trial.goal.as_slice(),
        trial_end(trial.out_of_steps),
    )
}

fn trial_line_by(
    alloc: Global,
    measure: &[u8],
    goal: &[u8],
    end: &[u8],
) -> Result<Vec<u8>, AllocError>
    ensures { IfOk result (λ text. text.items ≡ trial_line_by measure.now goal.now end.now) }
{
    let pieces = [
        b"   Tried ".as_slice(),
        measure,
        b": ".as_slice(),
        goal,
        end,
    ];
    joined(alloc, pieces.as_slice())
}

fn trial_end(out_of_steps: bool) -> &'static [u8]
    ensures { result.now ≡ trial_end out_of_steps }
{
    if out_of_steps {
        b" out of steps.\n".as_slice()
    } else {
        b" failed.\n".as_slice()
    }
}
