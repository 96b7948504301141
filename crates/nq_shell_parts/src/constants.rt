//! The lines of laws: denied equations. They are printed.
ghost use Rattle.std.specs.Prelude.{◌≡◌, [], IfOk, Some};
ghost use Rattle.nq_kernel.specs.Growing.{WorkStands, LineHolds};
ghost use Rattle.nq_replay.specs.Uncounted.{GrowsUncounted};
ghost use Rattle.nq_replay.specs.Replaying.{law_clause};
ghost use Rattle.nq_shell_parts.specs.LawClauses.{equation_by_turned_clause, equation_by_itself_clause};

use crate::tables::equation_by_itself::EQUATION_BY_ITSELF;
use crate::tables::equation_by_turned::EQUATION_BY_TURNED;
use nq_history::History;
use nq_kernel::Work;
use nq_replay::{Law, replay};
use std::alloc::AllocError;

/// The table of `(NOT (EQUAL X Y))`, `(NOT (NOT (EQUAL Y X)))`.
fn equation_by_turned_law() -> Law
    ensures { law_clause result [] ≡ Some equation_by_turned_clause }
{
    EQUATION_BY_TURNED
}

/// Adds the line of `(NOT (EQUAL X Y))`, `(NOT (NOT (EQUAL Y X)))`.
pub fn equation_by_turned(work: &mut Work, history: &History) -> Result<u64, AllocError>
    requires stands { WorkStands history.now work.old }
    ensures line { IfOk result (λ n. LineHolds work.new n equation_by_turned_clause) }
    ensures grows { GrowsUncounted history.now work.old work.new }
{
    let law = equation_by_turned_law();
    replay(work, history, law, &[])
}

/// The table of `(NOT (EQUAL X Y))`, `(NOT (NOT (EQUAL X Y)))`.
fn equation_by_itself_law() -> Law
    ensures { law_clause result [] ≡ Some equation_by_itself_clause }
{
    EQUATION_BY_ITSELF
}

/// Adds the line of `(NOT (EQUAL X Y))`, `(NOT (NOT (EQUAL X Y)))`.
pub fn equation_by_itself(work: &mut Work, history: &History) -> Result<u64, AllocError>
    requires stands { WorkStands history.now work.old }
    ensures line { IfOk result (λ n. LineHolds work.new n equation_by_itself_clause) }
    ensures grows { GrowsUncounted history.now work.old work.new }
{
    let law = equation_by_itself_law();
    replay(work, history, law, &[])
}
