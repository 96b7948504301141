//! Denials of denials, and what a denial is equal to.
ghost use Rattle.std.specs.Prelude.{◌≡◌, IfOk, Err};
ghost use Rattle.nq_logic.specs.Words.{not_term, equal_term, false_term};
ghost use Rattle.nq_bank.specs.Content.{term_at};
ghost use Rattle.nq_kernel.specs.Growing.{WorkStands, WorkGrows, LineStands};
ghost use Rattle.nq_lines.specs.Lines.{IsTermIn, MakesOf};

use crate::conditions::true_or_false;
use crate::rules::{cut, deny, opposites};
use nq_bank::TermId;
use nq_history::History;
use nq_kernel::{Stop, Work};

/// Adds a line of `(NOT (NOT p))`, from one of p.
pub fn deny_twice(work: &mut Work, history: &History, p: TermId, line: u64) -> Result<u64, Stop>
    requires stands { WorkStands history.now work.old }
    requires term { IsTermIn history.now work.old p }
    requires line { LineStands work.old line }
    ensures line { IfOk result (λ n. MakesOf work.old work.new (term_at work.old.bank p) (not_term (not_term (term_at work.old.bank p))) line n) }
    ensures stands { IfOk result (λ n. LineStands work.new n) }
    ensures grows { WorkGrows history.now work.old work.new }
    ensures out { result ≡ Err Stop.OutOfSteps → work.new.counter.used ≡ work.new.counter.limit }
{
    let denied = deny(work, history, p)?;
    let law = opposites(work, history, denied)?;
    cut(work, history, line, law, p)
}

/// Adds a line of p, from one of `(NOT (NOT p))`.
pub fn undeny(work: &mut Work, history: &History, p: TermId, line: u64) -> Result<u64, Stop>
    requires stands { WorkStands history.now work.old }
    requires term { IsTermIn history.now work.old p }
    requires line { LineStands work.old line }
    ensures line { IfOk result (λ n. MakesOf work.old work.new (not_term (not_term (term_at work.old.bank p))) (term_at work.old.bank p) line n) }
    ensures stands { IfOk result (λ n. LineStands work.new n) }
    ensures grows { WorkGrows history.now work.old work.new }
    ensures out { result ≡ Err Stop.OutOfSteps → work.new.counter.used ≡ work.new.counter.limit }
{
    let denied = deny(work, history, p)?;
    let law = opposites(work, history, p)?;
    cut(work, history, law, line, denied)
}

/// Adds a line that `(NOT p)` equals F, from one of p.
pub fn denial_false(work: &mut Work, history: &History, p: TermId, line: u64) -> Result<u64, Stop>
    requires stands { WorkStands history.now work.old }
    requires term { IsTermIn history.now work.old p }
    requires line { LineStands work.old line }
    ensures line { IfOk result (λ n. MakesOf work.old work.new (term_at work.old.bank p) (equal_term (not_term (term_at work.old.bank p)) false_term) line n) }
    ensures stands { IfOk result (λ n. LineStands work.new n) }
    ensures grows { WorkGrows history.now work.old work.new }
    ensures out { result ≡ Err Stop.OutOfSteps → work.new.counter.used ≡ work.new.counter.limit }
{
    let denied = deny(work, history, p)?;
    let law = true_or_false(work, history, denied)?;
    cut(work, history, line, law, p)
}
