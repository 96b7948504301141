//! Work with only the lines that one of its lines rests on.
ghost use Rattle.std.specs.Prelude.{◌≡◌, [], IfOk};
ghost use Rattle.nq_kernel.specs.Over.{IsVariable, RulesAreOver};
ghost use Rattle.nq_kernel.specs.Growing.{LogGrows, WorkStands};
ghost use Rattle.nq_needed.specs.Keeping.{IsShortened};

use crate::comparing::is_same_line;
use crate::keeping::keep_lines;
use crate::marks::marks_of;
use crate::numbers::number_at;
use nq_history::History;
use nq_kernel::{Log, Work};
use std::alloc::AllocError;

/// What is left of work, and the number that the line which shows the lemma has there.
#[derive(Drop)]
pub struct Shortened {
    /// The work, with a log of fewer lines or with the one that it had.
    pub work: Work,
    /// The number of that line in the log.
    pub line: u64,
}

/// Work with only the lines that a line rests on, under new numbers. Where a rule is not allowed so, or the line gets another
/// clause, the work keeps its log, and the line its number. Fails only for want of memory.
pub fn with_needed_lines(work: Work, history: &History, line: u64) -> Result<Shortened, AllocError>
    requires stands { WorkStands history.now work }
    requires legal { LogGrows work.bank history.now [] work.log }
    requires over { RulesAreOver IsVariable work.bank history.now 0 work.log }
    ensures { IfOk result (IsShortened history.now work line) }
{
    let alloc = work.bank.alloc();
    let Work {
        bank,
        log,
        counter,
        known,
    } = work;
    let marks = marks_of(alloc, &log, line)?;
    let mut kept = Work::new(bank, Log::new(alloc), u64::MAX);
    let numbers = keep_lines(&mut kept, history, &log, marks.as_slice())?;
    let n = number_at(numbers.as_slice(), line);
    if is_same_line(&log, line, &kept.log, n) {
        let work = Work {
            bank: kept.bank,
            log: kept.log,
            counter,
            known: kept.known,
        };
        Ok(Shortened { work, line: n })
    } else {
        let work = Work {
            bank: kept.bank,
            log,
            counter,
            known,
        };
        Ok(Shortened { work, line })
    }
}
