//! The lines on which the laws of remainders stand: that a difference is smaller. They are printed.
ghost use Rattle.std.specs.Prelude.{◌≡◌, ◌∷◌, [], IfOk, Some};
ghost use Rattle.nq_division_laws.specs.LawClauses.{difference_falls_clause, difference_is_less_clause, difference_keeps_less_clause};
ghost use Rattle.nq_kernel.specs.Growing.{WorkStands, LineHolds};
ghost use Rattle.nq_replay.specs.LawClauses.{less_is_transitive_clause, size_falls_clause};
ghost use Rattle.nq_replay.specs.Replaying.{law_clause};
ghost use Rattle.nq_replay.specs.Uncounted.{GrowsUncounted};

use crate::tables::difference_falls::DIFFERENCE_FALLS;
use crate::tables::difference_is_less::DIFFERENCE_IS_LESS;
use crate::tables::difference_keeps_less::DIFFERENCE_KEEPS_LESS;
use nq_history::History;
use nq_kernel::Work;
use nq_replay::{Law, replay};
use std::alloc::AllocError;

/// The table of `(ZEROP Y)`, `(ZEROP X)`, `(LESSP (DIFFERENCE X Y) X)`.
fn difference_is_less_law() -> Law
    ensures { law_clause result (size_falls_clause ∷ less_is_transitive_clause ∷ []) ≡ Some difference_is_less_clause }
{
    DIFFERENCE_IS_LESS
}

/// Adds the line of `(ZEROP Y)`, `(ZEROP X)`, `(LESSP (DIFFERENCE X Y) X)`, after those of `size_falls` and `less_is_transitive`.
pub fn difference_is_less(
    work: &mut Work,
    history: &History,
    first: u64,
    second: u64,
) -> Result<u64, AllocError>
    requires stands { WorkStands history.now work.old }
    requires first { LineHolds work.old first size_falls_clause }
    requires second { LineHolds work.old second less_is_transitive_clause }
    ensures line { IfOk result (λ n. LineHolds work.new n difference_is_less_clause) }
    ensures grows { GrowsUncounted history.now work.old work.new }
{
    let law = difference_is_less_law();
    replay(work, history, law, &[first, second])
}

/// The table of `(ORD-LESSP (COUNT (DIFFERENCE X Y)) (COUNT X))`, `(NOT (IF (ZEROP Y) F (IF (LESSP X Y) F T)))`.
fn difference_falls_law() -> Law
    ensures { law_clause result (size_falls_clause ∷ difference_is_less_clause ∷ []) ≡ Some difference_falls_clause }
{
    DIFFERENCE_FALLS
}

/// Adds the line of `(ORD-LESSP (COUNT (DIFFERENCE X Y)) (COUNT X))`, `(NOT (IF (ZEROP Y) F (IF (LESSP X Y) F T)))`, after those of `size_falls` and `difference_is_less`.
pub fn difference_falls(
    work: &mut Work,
    history: &History,
    first: u64,
    second: u64,
) -> Result<u64, AllocError>
    requires stands { WorkStands history.now work.old }
    requires first { LineHolds work.old first size_falls_clause }
    requires second { LineHolds work.old second difference_is_less_clause }
    ensures line { IfOk result (λ n. LineHolds work.new n difference_falls_clause) }
    ensures grows { GrowsUncounted history.now work.old work.new }
{
    let law = difference_falls_law();
    replay(work, history, law, &[first, second])
}

/// The table of `(ZEROP Y)`, `(ZEROP X)`, `(NOT (LESSP X Z))`, `(LESSP (DIFFERENCE X Y) Z)`.
fn difference_keeps_less_law() -> Law
    ensures { law_clause result (difference_is_less_clause ∷ less_is_transitive_clause ∷ []) ≡ Some difference_keeps_less_clause }
{
    DIFFERENCE_KEEPS_LESS
}

/// Adds the line of `(ZEROP Y)`, `(ZEROP X)`, `(NOT (LESSP X Z))`, `(LESSP (DIFFERENCE X Y) Z)`, after those of `difference_is_less` and `less_is_transitive`.
pub fn difference_keeps_less(
    work: &mut Work,
    history: &History,
    first: u64,
    second: u64,
) -> Result<u64, AllocError>
    requires stands { WorkStands history.now work.old }
    requires first { LineHolds work.old first difference_is_less_clause }
    requires second { LineHolds work.old second less_is_transitive_clause }
    ensures line { IfOk result (λ n. LineHolds work.new n difference_keeps_less_clause) }
    ensures grows { GrowsUncounted history.now work.old work.new }
{
    let law = difference_keeps_less_law();
    replay(work, history, law, &[first, second])
}
