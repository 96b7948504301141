//! The lines of laws of numbers. No step is counted.
ghost use Rattle.std.specs.Prelude.{IfOk};
ghost use Rattle.nq_kernel.specs.Growing.{LineHolds, LineStands, WorkStands};
ghost use Rattle.nq_replay.specs.LawClauses.{size_falls_clause};
ghost use Rattle.nq_replay.specs.Uncounted.{GrowsUncounted};

use crate::laws::{InductiveLaw, PlainLaw, inductive_table, plain_table};
use nq_history::History;
use nq_kernel::Work;
use nq_replay::{replay, size_falls};
use std::alloc::AllocError;

/// Adds the line of a law from axioms alone.
pub fn plain_line(work: &mut Work, history: &History, law: PlainLaw) -> Result<u64, AllocError>
    requires stands { WorkStands history.now work.old }
    ensures line { IfOk result (λ n. LineStands work.new n) }
    ensures grows { GrowsUncounted history.now work.old work.new }
{
    let table = plain_table(law);
    replay(work, history, table, &[])
}

/// Adds the line of a law by induction, after the line that a size falls.
fn inductive_line_after(
    work: &mut Work,
    history: &History,
    law: InductiveLaw,
    falls: u64,
) -> Result<u64, AllocError>
    requires stands { WorkStands history.now work.old }
    requires falls { LineHolds work.old falls size_falls_clause }
    ensures line { IfOk result (λ n. LineStands work.new n) }
    ensures grows { GrowsUncounted history.now work.old work.new }
{
    let table = inductive_table(law);
    replay(work, history, table, &[falls])
}

/// Adds the line of a law by induction.
pub fn inductive_line(
    work: &mut Work,
    history: &History,
    law: InductiveLaw,
) -> Result<u64, AllocError>
    requires stands { WorkStands history.now work.old }
    ensures line { IfOk result (λ n. LineStands work.new n) }
    ensures grows { GrowsUncounted history.now work.old work.new }
{
    let falls = size_falls(work, history)?;
    inductive_line_after(work, history, law, falls)
}
