//! What prescriptions say of a call: lines that the work knows of its function, as `(NUMBERP (F X))`.
ghost use Rattle.std.specs.Prelude.{◌≡◌, IfOk, IfSome, Err};
ghost use Rattle.nq_bank.specs.Content.{IsNamed};
ghost use Rattle.nq_history.specs.Events.{events_at};
ghost use Rattle.nq_kernel.specs.Growing.{LineStands, WorkGrows, WorkStands};
ghost use Rattle.nq_kernel.specs.Ready.{IsReady};
ghost use Rattle.nq_lines.specs.Lines.{IsTermIn};
ghost use Rattle.nq_lines.specs.OwnTerms.{HasOwnTerms};
ghost use Rattle.nq_lines.specs.Facts.{IsFact};

use crate::numbers::instance_of;
use nq_bank::{Sym, TermId};
use nq_history::History;
use nq_kernel::{Stop, Work};
use nq_lines::{Fact, match_pairs, row_fact, sides_of};
use nq_ready::own_terms;

/// The line that is known of a function.
fn known_line(work: &Work, history: &History, f: Sym) -> Option<u64>
    requires { WorkStands history.now work.now }
    ensures { IfSome result (LineStands work.now) }
{
    for p in work.known.as_slice() {
        if p.function.0 == f.0 {
            return Some(p.line);
        }
    }
    None
}

/// Adds the instance of a line that takes the call of a function on its formals to another of its calls.
fn instance_at(
    work: &mut Work,
    history: &History,
    line: u64,
    pattern: TermId,
    t: TermId,
) -> Result<Option<u64>, Stop>
    requires stands { WorkStands history.now work.old }
    requires line { LineStands work.old line }
    requires pattern { IsTermIn history.now work.old pattern }
    requires term { IsTermIn history.now work.old t }
    ensures line { IfOk result (λ found. IfSome found (LineStands work.new)) }
    ensures grows { WorkGrows history.now work.old work.new }
    ensures out { result ≡ Err Stop.OutOfSteps → work.new.counter.used ≡ work.new.counter.limit }
{
    match match_pairs(work, history, pattern, t)? {
        Some(pairs) => instance_of(work, history, line, pairs),
        None => Ok(None),
    }
}

/// The same, where the definition of the function is known.
fn defined_at(
    work: &mut Work,
    history: &History,
    line: u64,
    definition: Fact,
    t: TermId,
) -> Result<Option<u64>, Stop>
    requires stands { WorkStands history.now work.old }
    requires line { LineStands work.old line }
    requires definition { IsFact history.now work.old definition }
    requires term { IsTermIn history.now work.old t }
    ensures line { IfOk result (λ found. IfSome found (LineStands work.new)) }
    ensures grows { WorkGrows history.now work.old work.new }
    ensures out { result ≡ Err Stop.OutOfSteps → work.new.counter.used ≡ work.new.counter.limit }
{
    match sides_of(work, history, definition.term) {
        Some(sides) => instance_at(work, history, line, sides.left, t),
        None => Ok(None),
    }
}

/// The same, by a line that is known of the function.
fn known_at(
    work: &mut Work,
    history: &History,
    f: Sym,
    line: u64,
    t: TermId,
) -> Result<Option<u64>, Stop>
    requires stands { WorkStands history.now work.old }
    requires own { HasOwnTerms (events_at work.old.bank history.now) }
    requires function { IsNamed work.old.bank f }
    requires line { LineStands work.old line }
    requires term { IsTermIn history.now work.old t }
    ensures line { IfOk result (λ found. IfSome found (LineStands work.new)) }
    ensures grows { WorkGrows history.now work.old work.new }
    ensures out { result ≡ Err Stop.OutOfSteps → work.new.counter.used ≡ work.new.counter.limit }
{
    match row_fact(work, history, f)? {
        Some(definition) => defined_at(work, history, line, definition, t),
        None => Ok(None),
    }
}

/// Adds what the line that is known of the function of a call says of this call.
pub fn prescribed(
    work: &mut Work,
    history: &History,
    f: Sym,
    t: TermId,
) -> Result<Option<u64>, Stop>
    requires stands { WorkStands history.now work.old }
    requires ready { IsReady (events_at work.old.bank history.now) }
    requires function { IsNamed work.old.bank f }
    requires term { IsTermIn history.now work.old t }
    ensures line { IfOk result (λ found. IfSome found (LineStands work.new)) }
    ensures grows { WorkGrows history.now work.old work.new }
    ensures out { result ≡ Err Stop.OutOfSteps → work.new.counter.used ≡ work.new.counter.limit }
{
    own_terms();
    match known_line(work, history, f) {
        Some(line) => known_at(work, history, f, line, t),
        None => Ok(None),
    }
}
