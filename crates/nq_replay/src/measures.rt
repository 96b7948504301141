//! The lines of single laws: ordinals that serve as measures, and that they fall. They are printed.
ghost use Rattle.std.specs.Prelude.{◌≡◌, ◌∷◌, [], IfOk, Some};
ghost use Rattle.nq_kernel.specs.Growing.{WorkStands, LineHolds};
ghost use Rattle.nq_replay.specs.Uncounted.{GrowsUncounted};
ghost use Rattle.nq_replay.specs.Replaying.{law_clause};
ghost use Rattle.nq_replay.specs.LawClauses.{size_is_ordinal_clause, measure_is_ordinal_clause, measure_falls_clause, smaller_is_below_clause};

use crate::replaying::replay;
use crate::table::Law;
use crate::tables::measure_falls::MEASURE_FALLS;
use crate::tables::measure_is_ordinal::MEASURE_IS_ORDINAL;
use crate::tables::size_is_ordinal::SIZE_IS_ORDINAL;
use crate::tables::smaller_is_below::SMALLER_IS_BELOW;
use nq_history::History;
use nq_kernel::Work;
use std::alloc::AllocError;

/// The table of `(ORDINALP (COUNT X))`.
fn size_is_ordinal_law() -> Law
    ensures { law_clause result [] ≡ Some size_is_ordinal_clause }
{
    SIZE_IS_ORDINAL
}

/// Adds the line of `(ORDINALP (COUNT X))`.
pub fn size_is_ordinal(work: &mut Work, history: &History) -> Result<u64, AllocError>
    requires stands { WorkStands history.now work.old }
    ensures line { IfOk result (λ n. LineHolds work.new n size_is_ordinal_clause) }
    ensures grows { GrowsUncounted history.now work.old work.new }
{
    let law = size_is_ordinal_law();
    replay(work, history, law, &[])
}

/// The table of `(ORDINALP (IF (ORDINALP X) X 0))`.
fn measure_is_ordinal_law() -> Law
    ensures { law_clause result [] ≡ Some measure_is_ordinal_clause }
{
    MEASURE_IS_ORDINAL
}

/// Adds the line of `(ORDINALP (IF (ORDINALP X) X 0))`.
pub fn measure_is_ordinal(work: &mut Work, history: &History) -> Result<u64, AllocError>
    requires stands { WorkStands history.now work.old }
    ensures line { IfOk result (λ n. LineHolds work.new n measure_is_ordinal_clause) }
    ensures grows { GrowsUncounted history.now work.old work.new }
{
    let law = measure_is_ordinal_law();
    replay(work, history, law, &[])
}

/// The table of `(NOT (ORDINALP X))`, `(NOT (ORDINALP Y))`, `(ORD-LESSP (IF (ORDINALP X) X 0) (IF (ORDINALP Y) Y 0))`, `(NOT (ORD-LESSP X Y))`.
fn measure_falls_law() -> Law
    ensures { law_clause result [] ≡ Some measure_falls_clause }
{
    MEASURE_FALLS
}

/// Adds the line of `(NOT (ORDINALP X))`, `(NOT (ORDINALP Y))`, `(ORD-LESSP (IF (ORDINALP X) X 0) (IF (ORDINALP Y) Y 0))`, `(NOT (ORD-LESSP X Y))`.
pub fn measure_falls(work: &mut Work, history: &History) -> Result<u64, AllocError>
    requires stands { WorkStands history.now work.old }
    ensures line { IfOk result (λ n. LineHolds work.new n measure_falls_clause) }
    ensures grows { GrowsUncounted history.now work.old work.new }
{
    let law = measure_falls_law();
    replay(work, history, law, &[])
}

/// The table of `(NOT (LESSP (COUNT X) (COUNT Y)))`, `(ORD-LESSP (COUNT X) (COUNT Y))`.
fn smaller_is_below_law() -> Law
    ensures { law_clause result [] ≡ Some smaller_is_below_clause }
{
    SMALLER_IS_BELOW
}

/// Adds the line of `(NOT (LESSP (COUNT X) (COUNT Y)))`, `(ORD-LESSP (COUNT X) (COUNT Y))`.
pub fn smaller_is_below(work: &mut Work, history: &History) -> Result<u64, AllocError>
    requires stands { WorkStands history.now work.old }
    ensures line { IfOk result (λ n. LineHolds work.new n smaller_is_below_clause) }
    ensures grows { GrowsUncounted history.now work.old work.new }
{
    let law = smaller_is_below_law();
    replay(work, history, law, &[])
}
