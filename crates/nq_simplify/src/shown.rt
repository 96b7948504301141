//! Goals that one literal closes, which is shown to be true where the others are false.
//!
//! A rewriter of literals keeps what a literal equals, but of a literal it is enough to know that it is not F. So the NOT of its
//! NOT is rewritten, which says no more than that: where `(NOT (NOT p))` becomes T, p holds.
ghost use Rattle.std.specs.Prelude.{◌≡◌, ◌<◌, ◌∷◌, All, IfOk, IfSome, Err, length};
ghost use Rattle.nq_logic.specs.Words.{not_term, true_term};
ghost use Rattle.nq_bank.specs.Content.{term_at, terms_at};
ghost use Rattle.nq_history.specs.Events.{events_at};
ghost use Rattle.nq_kernel.specs.Growing.{WorkStands, WorkGrows};
ghost use Rattle.nq_lines.specs.Lines.{IsTermIn, LineHasOnly};
ghost use Rattle.nq_lines.specs.OwnTerms.{HasOwnTerms};
ghost use Rattle.nq_simplify.specs.Simplified.{AreTermsIn, IsNewLiteral};

use crate::placing::in_place;
use crate::rewriter::{NewLiteral, Rewriter};
use nq_bank::TermId;
use nq_history::History;
use nq_kernel::{Stop, Work};
use nq_lines::{deny, from_equal_true, truth, undeny};

/// Makes the NOT of the NOT of a term.
fn denied_twice(work: &mut Work, history: &History, t: TermId) -> Result<TermId, Stop>
    requires stands { WorkStands history.now work.old }
    requires term { IsTermIn history.now work.old t }
    ensures is { IfOk result (λ d. term_at work.new.bank d ≡ not_term (not_term (term_at work.old.bank t))) }
    ensures over { IfOk result (λ d. IsTermIn history.now work.new d) }
    ensures grows { WorkGrows history.now work.old work.new }
    ensures out { result ≡ Err Stop.OutOfSteps → work.new.counter.used ≡ work.new.counter.limit }
{
    let once = deny(work, history, t)?;
    deny(work, history, once)
}

/// The line of a term, where the NOT of its NOT was rewritten to T.
fn undenied(
    work: &mut Work,
    history: &History,
    others: &[TermId],
    t: TermId,
    twice: TermId,
    found: NewLiteral,
) -> Result<u64, Stop>
    requires stands { WorkStands history.now work.old }
    requires others { AreTermsIn history.now work.old others.now }
    requires term { IsTermIn history.now work.old t }
    requires twice { IsTermIn history.now work.old twice }
    requires is { term_at work.old.bank twice ≡ not_term (not_term (term_at work.old.bank t)) }
    requires found { IsNewLiteral history.now work.old (terms_at work.old.bank others.now) (term_at work.old.bank twice) found }
    requires truth { term_at work.old.bank found.term ≡ true_term }
    ensures line { IfOk result (λ n. LineHasOnly work.new n (term_at work.old.bank t ∷ terms_at work.old.bank others.now)) }
    ensures grows { WorkGrows history.now work.old work.new }
    ensures out { result ≡ Err Stop.OutOfSteps → work.new.counter.used ≡ work.new.counter.limit }
{
    let line = from_equal_true(work, history, twice, found.line)?;
    undeny(work, history, t, line)
}

/// The line of a term and others, where the rewriter shows that the term is true beside them.
fn shown_beside<R: Rewriter>(
    work: &mut Work,
    history: &History,
    rewriter: &mut R,
    others: &[TermId],
    t: TermId,
) -> Result<Option<u64>, Stop>
    requires stands { WorkStands history.now work.old }
    requires ready { HasOwnTerms (events_at work.old.bank history.now) }
    requires others { AreTermsIn history.now work.old others.now }
    requires term { IsTermIn history.now work.old t }
    ensures line { IfOk result (λ o. IfSome o (λ n. LineHasOnly work.new n (term_at work.old.bank t ∷ terms_at work.old.bank others.now))) }
    ensures grows { WorkGrows history.now work.old work.new }
    ensures out { result ≡ Err Stop.OutOfSteps → work.new.counter.used ≡ work.new.counter.limit }
{
    let yes = truth(work, history)?;
    let twice = denied_twice(work, history, t)?;
    match rewriter.rewrite(work, history, others, twice)? {
        Some(found) => {
            if found.term == yes {
                let line = undenied(work, history, others, t, twice, found)?;
                Ok(Some(line))
            } else {
                Ok(None)
            }
        }
        None => Ok(None),
    }
}

/// The line of a goal, where the rewriter shows that the literal at an index is true beside the others.
pub fn line_of_literal<R: Rewriter>(
    work: &mut Work,
    history: &History,
    rewriter: &mut R,
    goal: &[TermId],
    at: usize,
) -> Result<Option<u64>, Stop>
    requires stands { WorkStands history.now work.old }
    requires ready { HasOwnTerms (events_at work.old.bank history.now) }
    requires goal { AreTermsIn history.now work.old goal.now }
    requires at { at < length goal.now }
    ensures line { IfOk result (λ o. IfSome o (λ n. LineHasOnly work.new n (terms_at work.old.bank goal.now))) }
    ensures grows { WorkGrows history.now work.old work.new }
    ensures out { result ≡ Err Stop.OutOfSteps → work.new.counter.used ≡ work.new.counter.limit }
{
    let t = goal[at];
    let others = in_place(work.bank.alloc(), goal, at, &[])?;
    shown_beside(work, history, rewriter, others.as_slice(), t)
}
