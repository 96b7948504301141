//! Lines over the history's own functions, with a term in the place of X, and constants.
ghost use Rattle.std.specs.Prelude.{◌≡◌, ◌≤◌, ◌∷◌, [], IfOk, codes};
ghost use Rattle.nq_logic.specs.Terms.{Function, IsAmong};
ghost use Rattle.nq_logic.specs.Ground.{symbols_of};
ghost use Rattle.nq_logic.specs.Sizes.{depth_of};
ghost use Rattle.nq_bank.specs.Content.{IsIdOf, IsNamed, term_at, text_at};
ghost use Rattle.nq_history.specs.Events.{events_at};
ghost use Rattle.nq_kernel.specs.Growing.{WorkStands};
ghost use Rattle.nq_lines.specs.Instances.{InstancesTo};
ghost use Rattle.nq_replay.specs.Uncounted.{GrowsUncounted};
ghost use Rattle.nq_part_lines.specs.Own.{IsOwnLine};
ghost use Rattle.nq_part_lines.specs.Small.{IsSmallIn};

use crate::lines::{instance, symbol};
use nq_bank::{BankFault, Sym, TermId};
use nq_clause::Pair;
use nq_history::History;
use nq_kernel::Work;
use std::alloc::AllocError;

/// Adds a line over the variable X of which no literal is deep, with a term in the place of X.
pub fn at_own(work: &mut Work, history: &History, line: u64, y: TermId) -> Result<u64, AllocError>
    requires stands { WorkStands history.now work.old }
    requires line { IsOwnLine history.now work.old line }
    requires term { IsSmallIn history.now work.old y }
    ensures line { IfOk result (λ n. InstancesTo work.old work.new ((codes "X", term_at work.old.bank y) ∷ []) line n) }
    ensures grows { GrowsUncounted history.now work.old work.new }
{
    let variable = symbol(work, history, b"X")?;
    let pairs = vec![in work.bank.alloc(); Pair { variable, term: y }]?;
    instance(work, history, line, pairs)
}

/// Makes a constant.
pub fn base_term(work: &mut Work, history: &History, b: Sym) -> Result<TermId, AllocError>
    requires stands { WorkStands history.now work.old }
    requires named { IsNamed work.old.bank b }
    requires symbol { IsAmong (text_at work.old.bank b, 0) (symbols_of (events_at work.old.bank history.now)) }
    ensures constant { IfOk result (λ t. IsIdOf work.new.bank t (Function (text_at work.old.bank b))) }
    ensures small { IfOk result (λ t. IsSmallIn history.now work.new t) }
    ensures grows { GrowsUncounted history.now work.old work.new }
{
    match work.bank.app(b, &[]) {
        Ok(t) => Ok(t),
        Err(BankFault::Memory) => Err(AllocError),
        Err(BankFault::Deep) => unreachable!(),
    }
}
