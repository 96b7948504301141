//! The lines of laws of remainders.
ghost use Rattle.std.specs.Prelude.{IfOk};
ghost use Rattle.nq_division_laws.specs.LawClauses.{difference_falls_clause, difference_is_less_clause, difference_keeps_less_clause};
ghost use Rattle.nq_kernel.specs.Growing.{LineHolds, LineStands, WorkStands};
ghost use Rattle.nq_replay.specs.LawClauses.{less_is_transitive_clause, size_falls_clause};
ghost use Rattle.nq_replay.specs.Uncounted.{GrowsUncounted};

use crate::laws::{DivisionLaw, division_table};
use crate::steps::{difference_falls, difference_is_less, difference_keeps_less};
use nq_history::History;
use nq_kernel::Work;
use nq_replay::{less_is_transitive, replay, size_falls};
use std::alloc::AllocError;

/// Adds the line of a law, after the two lines on which the laws stand.
fn line_after(
    work: &mut Work,
    history: &History,
    law: DivisionLaw,
    falls: u64,
    keeps: u64,
) -> Result<u64, AllocError>
    requires stands { WorkStands history.now work.old }
    requires falls { LineHolds work.old falls difference_falls_clause }
    requires keeps { LineHolds work.old keeps difference_keeps_less_clause }
    ensures line { IfOk result (λ n. LineStands work.new n) }
    ensures grows { GrowsUncounted history.now work.old work.new }
{
    let table = division_table(law);
    replay(work, history, table, &[falls, keeps])
}

/// The same, after the lines that a size falls, that LESSP is transitive, and that a difference is smaller.
fn line_from(
    work: &mut Work,
    history: &History,
    law: DivisionLaw,
    falls: u64,
    chain: u64,
    less: u64,
) -> Result<u64, AllocError>
    requires stands { WorkStands history.now work.old }
    requires falls { LineHolds work.old falls size_falls_clause }
    requires chain { LineHolds work.old chain less_is_transitive_clause }
    requires less { LineHolds work.old less difference_is_less_clause }
    ensures line { IfOk result (λ n. LineStands work.new n) }
    ensures grows { GrowsUncounted history.now work.old work.new }
{
    let difference = difference_falls(work, history, falls, less)?;
    let keeps = difference_keeps_less(work, history, less, chain)?;
    line_after(work, history, law, difference, keeps)
}

/// The same, after the lines that a size falls, and that LESSP is transitive.
fn line_by(
    work: &mut Work,
    history: &History,
    law: DivisionLaw,
    falls: u64,
    chain: u64,
) -> Result<u64, AllocError>
    requires stands { WorkStands history.now work.old }
    requires falls { LineHolds work.old falls size_falls_clause }
    requires chain { LineHolds work.old chain less_is_transitive_clause }
    ensures line { IfOk result (λ n. LineStands work.new n) }
    ensures grows { GrowsUncounted history.now work.old work.new }
{
    let less = difference_is_less(work, history, falls, chain)?;
    line_from(work, history, law, falls, chain, less)
}

/// Adds the line of a law of remainders.
pub fn division_line(
    work: &mut Work,
    history: &History,
    law: DivisionLaw,
) -> Result<u64, AllocError>
    requires stands { WorkStands history.now work.old }
    ensures line { IfOk result (λ n. LineStands work.new n) }
    ensures grows { GrowsUncounted history.now work.old work.new }
{
    let falls = size_falls(work, history)?;
    let chain = less_is_transitive(work, history, falls)?;
    line_by(work, history, law, falls, chain)
}
