//! What is assumed of a goal where its variable gives way: the denials of the facts, and of the opposites of the cases.
ghost use Rattle.std.specs.Prelude.{◌≡◌, All, IfOk, Err};
ghost use Rattle.nq_bank.specs.Content.{terms_at};
ghost use Rattle.nq_kernel.specs.Growing.{WorkStands, WorkGrows};
ghost use Rattle.nq_lines.specs.Lines.{IsTermIn};
ghost use Rattle.nq_elim.specs.Reasons.{IsReason, denied_at, whole_at};

use crate::lists::{joined, push_id};
use crate::reasons::Reason;
use nq_bank::TermId;
use nq_history::History;
use nq_kernel::{Stop, Work};
use nq_lines::{Fact, deny};

/// The denials of facts.
fn denied_facts(work: &mut Work, history: &History, facts: &[Fact]) -> Result<Vec<TermId>, Stop>
    requires stands { WorkStands history.now work.old }
    requires facts { All (λ f. IsTermIn history.now work.old f.term) facts.now }
    ensures literals { IfOk result (λ v. terms_at work.new.bank v.items ≡ denied_at work.old.bank facts.now) }
    ensures over { IfOk result (λ v. All (IsTermIn history.now work.new) v.items) }
    ensures grows { WorkGrows history.now work.old work.new }
    ensures out { result ≡ Err Stop.OutOfSteps → work.new.counter.used ≡ work.new.counter.limit }
{
    let mut denials = Vec::new(work.bank.alloc());
    for fact in facts {
        let denied = deny(work, history, fact.term)?;
        push_id(&mut denials, denied)?;
    }
    Ok(denials)
}

/// The denials of the facts of a reason, and then the rest.
pub fn whole_goal(
    work: &mut Work,
    history: &History,
    goal: &[TermId],
    reason: &Reason,
) -> Result<Vec<TermId>, Stop>
    requires stands { WorkStands history.now work.old }
    requires goal { All (IsTermIn history.now work.old) goal.now }
    requires reason { IsReason history.now work.old goal.now reason.now }
    ensures literals { IfOk result (λ v. terms_at work.new.bank v.items ≡ whole_at work.old.bank reason.now) }
    ensures over { IfOk result (λ v. All (IsTermIn history.now work.new) v.items) }
    ensures grows { WorkGrows history.now work.old work.new }
    ensures out { result ≡ Err Stop.OutOfSteps → work.new.counter.used ≡ work.new.counter.limit }
{
    let _ = goal.len();
    let denials = denied_facts(work, history, reason.facts.as_slice())?;
    joined(
        work.bank.alloc(),
        denials.as_slice(),
        reason.rest.as_slice(),
    )
}
