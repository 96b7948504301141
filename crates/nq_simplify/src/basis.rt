//! Lines and terms that each simplification uses, made once for an event.
ghost use Rattle.std.specs.Prelude.{◌≡◌, IfOk, Err};
ghost use Rattle.nq_kernel.specs.Growing.{WorkStands, WorkGrows};
ghost use Rattle.nq_simplify.specs.Simplified.{BasisStands};

use crate::rows::{IfRows, add_if_rows};
use nq_bank::TermId;
use nq_history::History;
use nq_kernel::{Stop, Work};
use nq_lines::{falsity, from_equal_false, reflexive, truth};

/// What each simplification uses.
#[derive(Clone, Copy)]
pub struct Basis {
    /// The lines of the axioms for IF.
    pub rows: IfRows,
    /// The term T.
    pub truth: TermId,
    /// The term F.
    pub falsity: TermId,
    /// The line of `(NOT F)`.
    pub not_false: u64,
}

/// Makes what each simplification uses.
pub fn make_basis(work: &mut Work, history: &History) -> Result<Basis, Stop>
    requires stands { WorkStands history.now work.old }
    ensures basis { IfOk result (λ b. BasisStands history.now work.new b) }
    ensures grows { WorkGrows history.now work.old work.new }
    ensures out { result ≡ Err Stop.OutOfSteps → work.new.counter.used ≡ work.new.counter.limit }
{
    let rows = add_if_rows(work, history)?;
    let t = truth(work, history)?;
    let f = falsity(work, history)?;
    let same = reflexive(work, history, f)?;
    let not_false = from_equal_false(work, history, f, same)?;
    Ok(Basis {
        rows,
        truth: t,
        falsity: f,
        not_false,
    })
}
