//! The lines of single laws: calls of connectives, opened and put together. They are printed.
ghost use Rattle.std.specs.Prelude.{◌≡◌, ◌∷◌, [], IfOk, Some};
ghost use Rattle.nq_kernel.specs.Growing.{WorkStands, LineHolds};
ghost use Rattle.nq_replay.specs.Uncounted.{GrowsUncounted};
ghost use Rattle.nq_replay.specs.Replaying.{law_clause};
ghost use Rattle.nq_replay.specs.LawClauses.{implication_opens_clause, choice_opens_clause, pair_holds_clause, first_of_pair_clause, second_of_pair_clause};

use crate::replaying::replay;
use crate::table::Law;
use crate::tables::choice_opens::CHOICE_OPENS;
use crate::tables::first_of_pair::FIRST_OF_PAIR;
use crate::tables::implication_opens::IMPLICATION_OPENS;
use crate::tables::pair_holds::PAIR_HOLDS;
use crate::tables::second_of_pair::SECOND_OF_PAIR;
use nq_history::History;
use nq_kernel::Work;
use std::alloc::AllocError;

/// The table of `Y`, `(NOT X)`, `(NOT (IMPLIES X Y))`.
fn implication_opens_law() -> Law
    ensures { law_clause result [] ≡ Some implication_opens_clause }
{
    IMPLICATION_OPENS
}

/// Adds the line of `Y`, `(NOT X)`, `(NOT (IMPLIES X Y))`.
pub fn implication_opens(work: &mut Work, history: &History) -> Result<u64, AllocError>
    requires stands { WorkStands history.now work.old }
    ensures line { IfOk result (λ n. LineHolds work.new n implication_opens_clause) }
    ensures grows { GrowsUncounted history.now work.old work.new }
{
    let law = implication_opens_law();
    replay(work, history, law, &[])
}

/// The table of `Y`, `X`, `(NOT (OR X Y))`.
fn choice_opens_law() -> Law
    ensures { law_clause result [] ≡ Some choice_opens_clause }
{
    CHOICE_OPENS
}

/// Adds the line of `Y`, `X`, `(NOT (OR X Y))`.
pub fn choice_opens(work: &mut Work, history: &History) -> Result<u64, AllocError>
    requires stands { WorkStands history.now work.old }
    ensures line { IfOk result (λ n. LineHolds work.new n choice_opens_clause) }
    ensures grows { GrowsUncounted history.now work.old work.new }
{
    let law = choice_opens_law();
    replay(work, history, law, &[])
}

/// The table of `(NOT Y)`, `(NOT X)`, `(AND X Y)`.
fn pair_holds_law() -> Law
    ensures { law_clause result [] ≡ Some pair_holds_clause }
{
    PAIR_HOLDS
}

/// Adds the line of `(NOT Y)`, `(NOT X)`, `(AND X Y)`.
pub fn pair_holds(work: &mut Work, history: &History) -> Result<u64, AllocError>
    requires stands { WorkStands history.now work.old }
    ensures line { IfOk result (λ n. LineHolds work.new n pair_holds_clause) }
    ensures grows { GrowsUncounted history.now work.old work.new }
{
    let law = pair_holds_law();
    replay(work, history, law, &[])
}

/// The table of `X`, `(NOT (AND X Y))`.
fn first_of_pair_law() -> Law
    ensures { law_clause result [] ≡ Some first_of_pair_clause }
{
    FIRST_OF_PAIR
}

/// Adds the line of `X`, `(NOT (AND X Y))`.
pub fn first_of_pair(work: &mut Work, history: &History) -> Result<u64, AllocError>
    requires stands { WorkStands history.now work.old }
    ensures line { IfOk result (λ n. LineHolds work.new n first_of_pair_clause) }
    ensures grows { GrowsUncounted history.now work.old work.new }
{
    let law = first_of_pair_law();
    replay(work, history, law, &[])
}

/// The table of `Y`, `(NOT (AND X Y))`.
fn second_of_pair_law() -> Law
    ensures { law_clause result [] ≡ Some second_of_pair_clause }
{
    SECOND_OF_PAIR
}

/// Adds the line of `Y`, `(NOT (AND X Y))`.
pub fn second_of_pair(work: &mut Work, history: &History) -> Result<u64, AllocError>
    requires stands { WorkStands history.now work.old }
    ensures line { IfOk result (λ n. LineHolds work.new n second_of_pair_clause) }
    ensures grows { GrowsUncounted history.now work.old work.new }
{
    let law = second_of_pair_law();
    replay(work, history, law, &[])
}
