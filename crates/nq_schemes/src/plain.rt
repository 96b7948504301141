//! Literals without double denials, as linear arithmetic reads them, and the way back.
ghost use Rattle.std.specs.Prelude.{◌≡◌, All, IfOk, Err};
ghost use Rattle.nq_kernel.specs.Growing.{WorkStands, WorkGrows, LineStands};
ghost use Rattle.nq_lines.specs.Lines.{IsTermIn};

use crate::own::is_own;
use crate::starting::add_literal;
use crate::terms::{argument_of, is_call_of};
use nq_bank::{Bank, TermId, ground};
use nq_history::History;
use nq_kernel::{Stop, Work};
use nq_lines::deny_twice;

/// What stands under the NOT of a term.
fn denied(bank: &Bank, t: TermId) -> Option<TermId> {
    if t.0 < bank.len() {
        if is_call_of(bank, ground::NOT, t) {
            return argument_of(bank, t, 0);
        }
    }
    None
}

/// What stands under two NOTs of a term.
fn denied_twice(bank: &Bank, t: TermId) -> Option<TermId> {
    let once = denied(bank, t)?;
    denied(bank, once)
}

/// What stands under two NOTs of a literal, or the literal itself.
fn plain_of(work: &Work, history: &History, literal: TermId) -> TermId
    requires stands { WorkStands history.now work.now }
    requires literal { IsTermIn history.now work.now literal }
    ensures { IsTermIn history.now work.now result }
{
    match denied_twice(&work.bank, literal) {
        Some(t) => { if is_own(work, history, t) { t } else { literal } }
        None => literal,
    }
}

/// The literals without double denials.
pub fn plain_goal(work: &Work, history: &History, goal: &[TermId]) -> Result<Vec<TermId>, Stop>
    requires stands { WorkStands history.now work.now }
    requires goal { All (IsTermIn history.now work.now) goal.now }
    ensures plain { IfOk result (λ v. All (IsTermIn history.now work.now) v.items) }
    ensures memory { result ≡ Err Stop.OutOfSteps → ⊥ }
{
    let mut plain = Vec::new(work.bank.alloc());
    for literal in goal {
        let t = plain_of(work, history, *literal);
        add_literal(&mut plain, t)?;
    }
    Ok(plain)
}

/// A line with a literal in the place of what stands under its two NOTs.
fn spelled(work: &mut Work, history: &History, literal: TermId, line: u64) -> Result<u64, Stop>
    requires stands { WorkStands history.now work.old }
    requires literal { IsTermIn history.now work.old literal }
    requires line { LineStands work.old line }
    ensures line { IfOk result (λ n. LineStands work.new n) }
    ensures grows { WorkGrows history.now work.old work.new }
    ensures out { result ≡ Err Stop.OutOfSteps → work.new.counter.used ≡ work.new.counter.limit }
{
    let plain = plain_of(work, history, literal);
    if plain == literal {
        return Ok(line);
    }
    deny_twice(work, history, plain, line)
}

/// A line of the literals, from one of the literals without double denials.
pub fn spelled_line(
    work: &mut Work,
    history: &History,
    goal: &[TermId],
    line: u64,
) -> Result<u64, Stop>
    requires stands { WorkStands history.now work.old }
    requires goal { All (IsTermIn history.now work.old) goal.now }
    requires line { LineStands work.old line }
    ensures line { IfOk result (λ n. LineStands work.new n) }
    ensures grows { WorkGrows history.now work.old work.new }
    ensures out { result ≡ Err Stop.OutOfSteps → work.new.counter.used ≡ work.new.counter.limit }
{
    let mut last = line;
    for literal in goal {
        last = spelled(work, history, *literal, last)?;
    }
    Ok(last)
}
