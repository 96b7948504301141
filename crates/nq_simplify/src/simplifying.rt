//! One simplification of a goal: literals are rewritten and IFs are split until nothing changes.
//!
//! As with the goal `(EQUAL (IF (LISTP X) (F X) Y) Y)`, which the rewriter leaves: it is split into
//! `(LISTP X), (EQUAL Y Y)` and `(NOT (LISTP X)), (EQUAL (F X) Y)`. In the first `(EQUAL Y Y)` is rewritten to T, which
//! closes it; the second is left.
ghost use Rattle.std.specs.Prelude.{◌≡◌, IfOk, Err};
ghost use Rattle.nq_bank.specs.Content.{terms_at};
ghost use Rattle.nq_history.specs.Events.{events_at};
ghost use Rattle.nq_kernel.specs.Growing.{WorkStands, WorkGrows};
ghost use Rattle.nq_lines.specs.OwnTerms.{HasOwnTerms};
ghost use Rattle.nq_simplify.specs.Simplified.{AreTermsIn, BasisStands, IsOutcome, IsSimplified, IsTurn, IsDivided};

use crate::basis::Basis;
use crate::composing::{divided, turned};
use crate::leaving::{closed_by, leave};
use crate::rewriter::Rewriter;
use crate::splitting::split_here;
use crate::steps::{Outcome, Simplified};
use crate::turning::change_between;
use nq_bank::TermId;
use nq_history::History;
use nq_kernel::{Stop, Work};

/// What is done to a goal next: the literal that changed last is split, or else the next ones are rewritten or split, and then those
/// before it.
fn next_outcome<R: Rewriter>(
    work: &mut Work,
    history: &History,
    basis: &Basis,
    rewriter: &mut R,
    goal: &[TermId],
    place: &mut usize,
) -> Result<Outcome, Stop>
    requires stands { WorkStands history.now work.old }
    requires ready { HasOwnTerms (events_at work.old.bank history.now) }
    requires basis { BasisStands history.now work.old basis.now }
    requires goal { AreTermsIn history.now work.old goal.now }
    ensures outcome { IfOk result (λ o. IsOutcome history.now work.new (terms_at work.old.bank goal.now) o) }
    ensures grows { WorkGrows history.now work.old work.new }
    ensures out { result ≡ Err Stop.OutOfSteps → work.new.counter.used ≡ work.new.counter.limit }
{
    let split = split_here(work, history, basis, goal, place)?;
    if !split.is_same() {
        return Ok(split);
    }
    change_next(work, history, basis, rewriter, goal, place)
}

/// Rewrites or splits the first literal that changes, from the one after a place on, and then from the first on.
fn change_next<R: Rewriter>(
    work: &mut Work,
    history: &History,
    basis: &Basis,
    rewriter: &mut R,
    goal: &[TermId],
    place: &mut usize,
) -> Result<Outcome, Stop>
    requires stands { WorkStands history.now work.old }
    requires ready { HasOwnTerms (events_at work.old.bank history.now) }
    requires basis { BasisStands history.now work.old basis.now }
    requires goal { AreTermsIn history.now work.old goal.now }
    ensures outcome { IfOk result (λ o. IsOutcome history.now work.new (terms_at work.old.bank goal.now) o) }
    ensures grows { WorkGrows history.now work.old work.new }
    ensures out { result ≡ Err Stop.OutOfSteps → work.new.counter.used ≡ work.new.counter.limit }
{
    let count = goal.len();
    let from = if *place < count { *place + 1 } else { 0 };
    let later = change_between(work, history, basis, rewriter, goal, from, count, place)?;
    if !later.is_same() {
        return Ok(later);
    }
    change_between(work, history, basis, rewriter, goal, 0, from, place)
}

/// Simplifies a goal in at most so many steps in a row. The way leads from the goal to the goals that are left, and so back
/// from lines of them to a line with only the goal's literals.
pub fn simplify_goal<R: Rewriter>(
    work: &mut Work,
    history: &History,
    basis: &Basis,
    rewriter: &mut R,
    goal: &[TermId],
    rounds: u64,
) -> Result<Simplified, Stop>
    requires stands { WorkStands history.now work.old }
    requires ready { HasOwnTerms (events_at work.old.bank history.now) }
    requires basis { BasisStands history.now work.old basis.now }
    requires goal { AreTermsIn history.now work.old goal.now }
    ensures simplified { IfOk result (λ s. IsSimplified history.now work.new (terms_at work.old.bank goal.now) s) }
    ensures grows { WorkGrows history.now work.old work.new }
    ensures out { result ≡ Err Stop.OutOfSteps → work.new.counter.used ≡ work.new.counter.limit }
{
    simplify_from(work, history, basis, rewriter, goal, goal.len(), rounds)
}

/// The same, where the literal at a place changed last.
fn simplify_from<R: Rewriter>(
    work: &mut Work,
    history: &History,
    basis: &Basis,
    rewriter: &mut R,
    goal: &[TermId],
    place: usize,
    rounds: u64,
) -> Result<Simplified, Stop>
    requires stands { WorkStands history.now work.old }
    requires ready { HasOwnTerms (events_at work.old.bank history.now) }
    requires basis { BasisStands history.now work.old basis.now }
    requires goal { AreTermsIn history.now work.old goal.now }
    ensures simplified { IfOk result (λ s. IsSimplified history.now work.new (terms_at work.old.bank goal.now) s) }
    ensures grows { WorkGrows history.now work.old work.new }
    ensures out { result ≡ Err Stop.OutOfSteps → work.new.counter.used ≡ work.new.counter.limit }
{
    if rounds == 0 {
        return leave(work, history, basis, goal);
    }
    let mut place = place;
    let outcome = next_outcome(work, history, basis, rewriter, goal, &mut place)?;
    match outcome {
        Outcome::Same => leave(work, history, basis, goal),
        Outcome::Closed(line) => Ok(closed_by(work, history, goal, line)),
        Outcome::Turned(turn) => {
            let rest = simplify_from(
                work,
                history,
                basis,
                rewriter,
                turn.next.as_slice(),
                place,
                rounds - 1,
            )?;
            turned(work, history, goal, turn, rest)
        }
        Outcome::Divided(split) => {
            let with_test = simplify_from(
                work,
                history,
                basis,
                rewriter,
                split.with_test.next.as_slice(),
                place,
                rounds - 1,
            )?;
            let without_test = simplify_from(
                work,
                history,
                basis,
                rewriter,
                split.without_test.next.as_slice(),
                place,
                rounds - 1,
            )?;
            divided(work, history, goal, split, with_test, without_test)
        }
    }
}
