//! What T and F are, as lines: a term that is not F holds, one that is F does not.
ghost use Rattle.std.specs.Prelude.{◌≡◌, IfOk, Err};
ghost use Rattle.nq_kernel.specs.Growing.{LineStands, WorkGrows, WorkStands};
ghost use Rattle.nq_lines.specs.Lines.{IsTermIn};

use crate::constants::by_equation;
use nq_bank::TermId;
use nq_history::History;
use nq_kernel::{Stop, Work};
use nq_lines::{falsity, true_or_false, truth};

/// Adds a line that a term is T or F, from one that it equals one of these.
pub fn truth_value(work: &mut Work, history: &History, t: TermId, line: u64) -> Result<u64, Stop>
    requires stands { WorkStands history.now work.old }
    requires term { IsTermIn history.now work.old t }
    requires line { LineStands work.old line }
    ensures line { IfOk result (LineStands work.new) }
    ensures grows { WorkGrows history.now work.old work.new }
    ensures out { result ≡ Err Stop.OutOfSteps → work.new.counter.used ≡ work.new.counter.limit }
{
    let c = truth(work, history)?;
    let first = by_equation(work, history, true, t, c, line)?;
    let d = falsity(work, history)?;
    by_equation(work, history, false, t, d, first)
}

/// Adds the line that a term holds or is F.
pub fn true_or_recognized(work: &mut Work, history: &History, t: TermId) -> Result<u64, Stop>
    requires stands { WorkStands history.now work.old }
    requires term { IsTermIn history.now work.old t }
    ensures line { IfOk result (LineStands work.new) }
    ensures grows { WorkGrows history.now work.old work.new }
    ensures out { result ≡ Err Stop.OutOfSteps → work.new.counter.used ≡ work.new.counter.limit }
{
    let line = true_or_false(work, history, t)?;
    let c = falsity(work, history)?;
    by_equation(work, history, false, t, c, line)
}
