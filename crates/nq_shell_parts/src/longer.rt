//! The line of the law of longer sums.
ghost use Rattle.std.specs.Prelude.{◌≡◌, ◌∷◌, [], IfOk, Some};
ghost use Rattle.nq_kernel.specs.Growing.{WorkStands, LineHolds};
ghost use Rattle.nq_replay.specs.LawClauses.{less_is_transitive_clause, less_than_one_more_clause, size_falls_clause};
ghost use Rattle.nq_replay.specs.Uncounted.{GrowsUncounted};
ghost use Rattle.nq_replay.specs.Replaying.{law_clause};
ghost use Rattle.nq_shell_parts.specs.LawClauses.{less_than_longer_sum_clause};

use crate::tables::less_than_longer_sum::LESS_THAN_LONGER_SUM;
use nq_history::History;
use nq_kernel::Work;
use nq_replay::{Law, less_is_transitive, less_than_one_more, replay, size_falls};
use std::alloc::AllocError;

/// The table of `(NOT (LESSP X (ADD1 Z)))`, `(LESSP X (ADD1 (PLUS Y Z)))`, after the lines that the size of a lesser number is less, that
/// LESSP is transitive, and that a number is less than one more.
fn less_than_longer_sum_law() -> Law
    ensures { law_clause result (size_falls_clause ∷ less_is_transitive_clause ∷ less_than_one_more_clause ∷ []) ≡ Some less_than_longer_sum_clause }
{
    LESS_THAN_LONGER_SUM
}

/// Adds the line of `(NOT (LESSP X (ADD1 Z)))`, `(LESSP X (ADD1 (PLUS Y Z)))`, after the lines on which it stands.
fn longer_by(
    work: &mut Work,
    history: &History,
    falls: u64,
    transitive: u64,
    one: u64,
) -> Result<u64, AllocError>
    requires stands { WorkStands history.now work.old }
    requires falls { LineHolds work.old falls size_falls_clause }
    requires transitive { LineHolds work.old transitive less_is_transitive_clause }
    requires one { LineHolds work.old one less_than_one_more_clause }
    ensures line { IfOk result (λ n. LineHolds work.new n less_than_longer_sum_clause) }
    ensures grows { GrowsUncounted history.now work.old work.new }
{
    let law = less_than_longer_sum_law();
    replay(work, history, law, &[falls, transitive, one])
}

/// Adds the line of `(NOT (LESSP X (ADD1 Z)))`, `(LESSP X (ADD1 (PLUS Y Z)))`.
pub fn less_than_longer_sum(work: &mut Work, history: &History) -> Result<u64, AllocError>
    requires stands { WorkStands history.now work.old }
    ensures line { IfOk result (λ n. LineHolds work.new n less_than_longer_sum_clause) }
    ensures grows { GrowsUncounted history.now work.old work.new }
{
    let falls = size_falls(work, history)?;
    let transitive = less_is_transitive(work, history, falls)?;
    let one = less_than_one_more(work, history)?;
    longer_by(work, history, falls, transitive, one)
}
