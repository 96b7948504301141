//! The marked lines of a log, in a log of their own.
ghost use Rattle.std.specs.Prelude.{◌≡◌, Some};
ghost use Rattle.nq_kernel.specs.Meaning.{RuleStands};
ghost use Rattle.nq_kernel.specs.Over.{RuleIsIn};
ghost use Rattle.nq_kernel.specs.Growing.{WorkStands, WorkGrows};
ghost use Rattle.nq_needed.specs.Keeping.{RulesStandIn};

use crate::renumbering::renumbered;
use nq_history::History;
use nq_kernel::{Log, Rule, Stop, Work};
use std::alloc::AllocError;

/// Adds the line of a rule with these new numbers for the lines that it cites, and tells the line's own; 0 where the rule is not
/// allowed so.
fn keep_rule(
    kept: &mut Work,
    history: &History,
    numbers: &[u64],
    rule: &Rule,
) -> Result<u64, AllocError>
    requires stands { WorkStands history.now kept.old }
    requires rule { RuleStands kept.old.bank rule.now }
    requires over { RuleIsIn kept.old.bank history.now rule.now }
    ensures { WorkGrows history.now kept.old kept.new }
{
    let made = renumbered(kept.bank.alloc(), numbers, rule)?;
    if !kept.log.allowed(&kept.bank, history, &made)? {
        return Ok(0);
    }
    match kept.add(history, made) {
        Ok(n) => Ok(n),
        Err(Stop::OutOfSteps) => Ok(0),
        Err(Stop::Memory) => Err(AllocError),
    }
}

/// Keeps a line of a log, and tells its new number; 0 where it is not kept.
fn keep_line(
    kept: &mut Work,
    history: &History,
    log: &Log,
    numbers: &[u64],
    line: u64,
) -> Result<u64, AllocError>
    requires stands { WorkStands history.now kept.old }
    requires rules { RulesStandIn kept.old.bank history.now log.now }
    ensures { WorkGrows history.now kept.old kept.new }
{
    if !log.stands(line) {
        return Ok(0);
    }
    keep_rule(kept, history, numbers, log.rule(line))
}

/// Keeps a line where it is marked.
fn keep_if(
    kept: &mut Work,
    history: &History,
    log: &Log,
    numbers: &[u64],
    marked: bool,
) -> Result<u64, AllocError>
    requires stands { WorkStands history.now kept.old }
    requires rules { RulesStandIn kept.old.bank history.now log.now }
    ensures { WorkGrows history.now kept.old kept.new }
{
    if marked {
        keep_line(kept, history, log, numbers, numbers.len() as u64 + 1)
    } else {
        Ok(0)
    }
}

/// Keeps the marked lines of a log behind the lines that are kept, and tells the new number of each line of the log; 0 where it
/// is not kept.
pub fn keep_lines(
    kept: &mut Work,
    history: &History,
    log: &Log,
    marks: &[bool],
) -> Result<Vec<u64>, AllocError>
    requires stands { WorkStands history.now kept.old }
    requires rules { RulesStandIn kept.old.bank history.now log.now }
    ensures { WorkGrows history.now kept.old kept.new }
{
    let mut numbers = Vec::new(kept.bank.alloc());
    for marked in marks {
        let number = keep_if(kept, history, log, numbers.as_slice(), *marked)?;
        numbers.push(number)?;
    }
    Ok(numbers)
}
