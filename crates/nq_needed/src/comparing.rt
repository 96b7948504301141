//! Whether lines of two logs have the same clause.
ghost use Rattle.std.specs.Prelude.{◌≡◌, IsTrue};
ghost use Rattle.nq_kernel.specs.Lines.{ids_at};

use nq_kernel::{Log, is_same_clause};

/// Do two lines stand, and have they the same clause?
pub fn is_same_line(log: &Log, line: u64, other: &Log, n: u64) -> bool
    ensures { IsTrue result → ids_at other.now n ≡ ids_at log.now line }
{
    match log.cited(line) {
        Some(clause) => match other.cited(n) {
            Some(found) => is_same_clause(found, clause),
            None => false,
        },
        None => false,
    }
}
