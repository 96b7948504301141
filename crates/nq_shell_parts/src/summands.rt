//! The lines of laws: sums, and the sizes of the parts of an object. They are printed.
ghost use Rattle.std.specs.Prelude.{◌≡◌, [], IfOk, Some};
ghost use Rattle.nq_kernel.specs.Growing.{WorkStands, LineHolds};
ghost use Rattle.nq_replay.specs.Uncounted.{GrowsUncounted};
ghost use Rattle.nq_replay.specs.Replaying.{law_clause};
ghost use Rattle.nq_shell_parts.specs.LawClauses.{less_than_sum_clause, allowed_is_smaller_clause, base_is_smaller_clause};

use crate::tables::allowed_is_smaller::ALLOWED_IS_SMALLER;
use crate::tables::base_is_smaller::BASE_IS_SMALLER;
use crate::tables::less_than_sum::LESS_THAN_SUM;
use nq_history::History;
use nq_kernel::Work;
use nq_replay::{Law, replay};
use std::alloc::AllocError;

/// The table of `(LESSP X (ADD1 (PLUS X Y)))`.
fn less_than_sum_law() -> Law
    ensures { law_clause result [] ≡ Some less_than_sum_clause }
{
    LESS_THAN_SUM
}

/// Adds the line of `(LESSP X (ADD1 (PLUS X Y)))`.
pub fn less_than_sum(work: &mut Work, history: &History) -> Result<u64, AllocError>
    requires stands { WorkStands history.now work.old }
    ensures line { IfOk result (λ n. LineHolds work.new n less_than_sum_clause) }
    ensures grows { GrowsUncounted history.now work.old work.new }
{
    let law = less_than_sum_law();
    replay(work, history, law, &[])
}

/// The table of `(NOT Y)`, `(LESSP (COUNT A) (COUNT B))`, `(NOT (LESSP (IF Y (COUNT X) 0) (ADD1 Z)))`, `(NOT (EQUAL (COUNT B) (ADD1 Z)))`, `(NOT (EQUAL A X))`.
fn allowed_is_smaller_law() -> Law
    ensures { law_clause result [] ≡ Some allowed_is_smaller_clause }
{
    ALLOWED_IS_SMALLER
}

/// Adds the line of `(NOT Y)`, `(LESSP (COUNT A) (COUNT B))`, `(NOT (LESSP (IF Y (COUNT X) 0) (ADD1 Z)))`, `(NOT (EQUAL (COUNT B) (ADD1 Z)))`, `(NOT (EQUAL A X))`.
pub fn allowed_is_smaller(work: &mut Work, history: &History) -> Result<u64, AllocError>
    requires stands { WorkStands history.now work.old }
    ensures line { IfOk result (λ n. LineHolds work.new n allowed_is_smaller_clause) }
    ensures grows { GrowsUncounted history.now work.old work.new }
{
    let law = allowed_is_smaller_law();
    replay(work, history, law, &[])
}

/// The table of `(LESSP (COUNT A) (COUNT B))`, `(NOT (EQUAL (COUNT X) 0))`, `(NOT (EQUAL (COUNT B) (ADD1 Z)))`, `(NOT (EQUAL A X))`.
fn base_is_smaller_law() -> Law
    ensures { law_clause result [] ≡ Some base_is_smaller_clause }
{
    BASE_IS_SMALLER
}

/// Adds the line of `(LESSP (COUNT A) (COUNT B))`, `(NOT (EQUAL (COUNT X) 0))`, `(NOT (EQUAL (COUNT B) (ADD1 Z)))`, `(NOT (EQUAL A X))`.
pub fn base_is_smaller(work: &mut Work, history: &History) -> Result<u64, AllocError>
    requires stands { WorkStands history.now work.old }
    ensures line { IfOk result (λ n. LineHolds work.new n base_is_smaller_clause) }
    ensures grows { GrowsUncounted history.now work.old work.new }
{
    let law = base_is_smaller_law();
    replay(work, history, law, &[])
}
