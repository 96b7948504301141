//! Goals with literals in the place of one.
ghost use Rattle.std.specs.Prelude.{◌≡◌, ◌<◌, IfOk, Err, length};
ghost use Rattle.nq_simplify.specs.Simplified.{put_in};

use nq_bank::TermId;
use nq_kernel::Stop;
use std::alloc::{AllocError, Global};

/// The goal with these in the place of the literal at an index, where only memory can be wanting.
fn in_place_or_fail(
    alloc: Global,
    goal: &[TermId],
    at: usize,
    these: &[TermId],
) -> Result<Vec<TermId>, AllocError>
    requires { at < length goal.now }
    ensures { IfOk result (λ c. c.items ≡ put_in at these.now goal.now) }
{
    let mut clause = Vec::from_slice(alloc, &goal[..at])?;
    clause.extend_from_slice(these)?;
    clause.extend_from_slice(&goal[at + 1..])?;
    Ok(clause)
}

/// The goal with these in the place of the literal at an index.
pub fn in_place(
    alloc: Global,
    goal: &[TermId],
    at: usize,
    these: &[TermId],
) -> Result<Vec<TermId>, Stop>
    requires { at < length goal.now }
    ensures clause { IfOk result (λ c. c.items ≡ put_in at these.now goal.now) }
    ensures out { result ≡ Err Stop.OutOfSteps → ⊥ }
{
    match in_place_or_fail(alloc, goal, at, these) {
        Ok(clause) => Ok(clause),
        Err(_) => Err(Stop::Memory),
    }
}
