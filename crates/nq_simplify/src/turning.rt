//! A literal of a goal is rewritten.
ghost use Rattle.std.specs.Prelude.{◌≡◌, ◌<◌, ◌≤◌, IfOk, Err, length};
ghost use Rattle.nq_bank.specs.Content.{terms_at};
ghost use Rattle.nq_history.specs.Events.{events_at};
ghost use Rattle.nq_kernel.specs.Growing.{WorkStands, WorkGrows};
ghost use Rattle.nq_lines.specs.OwnTerms.{HasOwnTerms};
ghost use Rattle.nq_simplify.specs.Simplified.{AreTermsIn, BasisStands, IsOutcome};

use crate::basis::Basis;
use crate::placing::in_place;
use crate::rewriter::Rewriter;
use crate::splitting::split_here;
use crate::steps::{Outcome, Turn};
use nq_bank::TermId;
use nq_history::History;
use nq_kernel::{Stop, Work};
use nq_lines::from_equal_true;

/// Rewrites the literal at an index, under the negations of the others. A literal that becomes T closes the goal.
fn rewrite_at<R: Rewriter>(
    work: &mut Work,
    history: &History,
    basis: &Basis,
    rewriter: &mut R,
    goal: &[TermId],
    at: usize,
) -> Result<Outcome, Stop>
    requires stands { WorkStands history.now work.old }
    requires ready { HasOwnTerms (events_at work.old.bank history.now) }
    requires basis { BasisStands history.now work.old basis.now }
    requires goal { AreTermsIn history.now work.old goal.now }
    requires at { at < length goal.now }
    ensures outcome { IfOk result (λ o. IsOutcome history.now work.new (terms_at work.old.bank goal.now) o) }
    ensures grows { WorkGrows history.now work.old work.new }
    ensures out { result ≡ Err Stop.OutOfSteps → work.new.counter.used ≡ work.new.counter.limit }
{
    let old = goal[at];
    let others = in_place(work.bank.alloc(), goal, at, &[])?;
    let rewritten = rewriter.rewrite(work, history, others.as_slice(), old)?;
    match rewritten {
        Some(found) => {
            if found.term == basis.truth {
                let line = from_equal_true(work, history, old, found.line)?;
                Ok(Outcome::Closed(line))
            } else {
                let next = in_place(work.bank.alloc(), goal, at, &[found.term])?;
                Ok(Outcome::Turned(Turn {
                    old,
                    new: found.term,
                    line: found.line,
                    next,
                }))
            }
        }
        None => Ok(Outcome::Same),
    }
}

/// Rewrites or splits the literal at an index. Where something is done, the place of what it came to is kept.
fn change_at<R: Rewriter>(
    work: &mut Work,
    history: &History,
    basis: &Basis,
    rewriter: &mut R,
    goal: &[TermId],
    at: usize,
    place: &mut usize,
) -> Result<Outcome, Stop>
    requires stands { WorkStands history.now work.old }
    requires ready { HasOwnTerms (events_at work.old.bank history.now) }
    requires basis { BasisStands history.now work.old basis.now }
    requires goal { AreTermsIn history.now work.old goal.now }
    requires at { at < length goal.now }
    ensures outcome { IfOk result (λ o. IsOutcome history.now work.new (terms_at work.old.bank goal.now) o) }
    ensures grows { WorkGrows history.now work.old work.new }
    ensures out { result ≡ Err Stop.OutOfSteps → work.new.counter.used ≡ work.new.counter.limit }
{
    *place = at;
    let here = rewrite_at(work, history, basis, rewriter, goal, at)?;
    if here.is_same() {
        return split_here(work, history, basis, goal, place);
    }
    Ok(here)
}

/// Rewrites or splits the first literal that changes, from an index on and before another one.
pub fn change_between<R: Rewriter>(
    work: &mut Work,
    history: &History,
    basis: &Basis,
    rewriter: &mut R,
    goal: &[TermId],
    from: usize,
    to: usize,
    place: &mut usize,
) -> Result<Outcome, Stop>
    requires stands { WorkStands history.now work.old }
    requires ready { HasOwnTerms (events_at work.old.bank history.now) }
    requires basis { BasisStands history.now work.old basis.now }
    requires goal { AreTermsIn history.now work.old goal.now }
    requires to { to ≤ length goal.now }
    ensures outcome { IfOk result (λ o. IsOutcome history.now work.new (terms_at work.old.bank goal.now) o) }
    ensures grows { WorkGrows history.now work.old work.new }
    ensures out { result ≡ Err Stop.OutOfSteps → work.new.counter.used ≡ work.new.counter.limit }
{
    for at in from..to {
        let here = change_at(work, history, basis, rewriter, goal, at, place)?;
        if !here.is_same() {
            return Ok(here);
        }
    }
    Ok(Outcome::Same)
}
