//! Lines that are added without counting steps.
ghost use Rattle.std.specs.Prelude.{◌≡◌, IfOk, IsSome};
ghost use Rattle.nq_kernel.specs.Meaning.{RuleStands, clause_at, conclusion_at};
ghost use Rattle.nq_kernel.specs.Over.{RuleIsIn};
ghost use Rattle.nq_kernel.specs.Growing.{WorkStands};
ghost use Rattle.nq_replay.specs.Uncounted.{IsShallow, GrowsUncounted};

use nq_bank::BankFault;
use nq_history::History;
use nq_kernel::{Rule, Work};
use std::alloc::AllocError;

/// Adds the line of an allowed rule whose clause has no term that is too deep.
pub fn add_line(work: &mut Work, history: &History, rule: Rule) -> Result<u64, AllocError>
    requires stands { WorkStands history.now work.old }
    requires rule { RuleStands work.old.bank rule }
    requires over { RuleIsIn work.old.bank history.now rule }
    requires allowed { IsSome (conclusion_at work.old.bank history.now work.old.log rule) }
    requires shallow { IsShallow (conclusion_at work.old.bank history.now work.old.log rule) }
    ensures line { IfOk result (λ n. clause_at work.new.bank work.new.log n ≡ conclusion_at work.old.bank history.now work.old.log rule) }
    ensures grows { GrowsUncounted history.now work.old work.new }
{
    match work.log.add(&mut work.bank, history, rule) {
        Ok(n) => Ok(n),
        Err(BankFault::Memory) => Err(AllocError),
        Err(BankFault::Deep) => unreachable!(),
    }
}
