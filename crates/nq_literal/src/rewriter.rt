//! The rewriter of literals.
ghost use Rattle.std.specs.Prelude.{◌≡◌, All, IfOk, IfSome, Err};
ghost use Rattle.nq_bank.specs.Content.{term_at, terms_at};
ghost use Rattle.nq_history.specs.Events.{events_at};
ghost use Rattle.nq_kernel.specs.Growing.{WorkGrows, WorkStands};
ghost use Rattle.nq_lines.specs.Lines.{IsTermIn};
ghost use Rattle.nq_lines.specs.OwnTerms.{HasOwnTerms};
ghost use Rattle.nq_simplify.specs.Simplified.{IsNewLiteral};
ghost use Rattle.nq_literal.specs.Literals.{IsFoundIn};

use crate::others::rewrite_from;
use crate::truths::closed_by_truth;
use nq_bank::TermId;
use nq_history::{Hints, History};
use nq_kernel::{Stop, Work};
use nq_reduce::Rewritten;
use nq_rewrite::Learnt;
use nq_rule_table::Rules;
use nq_simplify::{NewLiteral, Rewriter};
use std::alloc::Global;

/// Rewrites the literals of a goal as these hints ask.
#[derive(Drop)]
pub struct LiteralRewriter<'a> {
    /// The hints.
    pub hints: &'a Hints,
    /// The rules of the history.
    pub rules: &'a Rules,
    /// The count of used steps from which on no literal is rewritten.
    pub until: u64,
    /// What the rewritings of this proof learnt.
    pub learnt: Learnt,
}

impl<'a> LiteralRewriter<'a> {
    /// A rewriter by these rules as these hints ask, which rewrites no literal from this count of used steps on. Nothing is learnt yet.
    pub fn new(
        alloc: Global,
        hints: &'a Hints,
        rules: &'a Rules,
        until: u64,
    ) -> LiteralRewriter<'a> {
        LiteralRewriter {
            hints,
            rules,
            until,
            learnt: Learnt::new(alloc),
        }
    }
}

impl<'a> Rewriter for LiteralRewriter<'a> {
    fn rewrite(
        &mut self,
        work: &mut Work,
        history: &History,
        others: &[TermId],
        literal: TermId,
    ) -> Result<Option<NewLiteral>, Stop> {
        if is_past(work, self.until) {
            return Ok(None);
        }
        rewrite_beside(
            work,
            history,
            self.hints,
            self.rules,
            &mut self.learnt,
            others,
            literal,
        )
    }
}

/// Are this many steps used?
fn is_past(work: &Work, until: u64) -> bool {
    work.counter.used() >= until
}

/// Rewrites a literal under the negations of the others. Where T is one of the literals, it closes the goal.
fn rewrite_beside(
    work: &mut Work,
    history: &History,
    hints: &Hints,
    rules: &Rules,
    learnt: &mut Learnt,
    others: &[TermId],
    literal: TermId,
) -> Result<Option<NewLiteral>, Stop>
    requires stands { WorkStands history.now work.old }
    requires ready { HasOwnTerms (events_at work.old.bank history.now) }
    requires others { All (IsTermIn history.now work.old) others.now }
    requires literal { IsTermIn history.now work.old literal }
    ensures new { IfOk result (λ o. IfSome o (λ r. IsNewLiteral history.now work.new (terms_at work.old.bank others.now) (term_at work.old.bank literal) r)) }
    ensures grows { WorkGrows history.now work.old work.new }
    ensures out { result ≡ Err Stop.OutOfSteps → work.new.counter.used ≡ work.new.counter.limit }
{
    match closed_by_truth(work, history, others, literal)? {
        Some(new) => Ok(Some(new)),
        None => rewrite_open(work, history, hints, rules, learnt, others, literal),
    }
}

/// Rewrites a literal under the negations of the others.
fn rewrite_open(
    work: &mut Work,
    history: &History,
    hints: &Hints,
    rules: &Rules,
    learnt: &mut Learnt,
    others: &[TermId],
    literal: TermId,
) -> Result<Option<NewLiteral>, Stop>
    requires stands { WorkStands history.now work.old }
    requires ready { HasOwnTerms (events_at work.old.bank history.now) }
    requires others { All (IsTermIn history.now work.old) others.now }
    requires literal { IsTermIn history.now work.old literal }
    ensures new { IfOk result (λ o. IfSome o (λ r. IsNewLiteral history.now work.new (terms_at work.old.bank others.now) (term_at work.old.bank literal) r)) }
    ensures grows { WorkGrows history.now work.old work.new }
    ensures out { result ≡ Err Stop.OutOfSteps → work.new.counter.used ≡ work.new.counter.limit }
{
    let new = rewrite_from(work, history, hints, rules, learnt, others, 0, &[], literal)?;
    Ok(changed(literal, new))
}

/// The literal that another was rewritten to, if it is another one.
fn changed(literal: TermId, new: Rewritten) -> Option<NewLiteral>
    ensures { IfSome result (IsFoundIn new) }
{
    match new.line {
        None => None,
        Some(line) => {
            if new.term.0 == literal.0 {
                None
            } else {
                Some(NewLiteral {
                    term: new.term,
                    line,
                })
            }
        }
    }
}
