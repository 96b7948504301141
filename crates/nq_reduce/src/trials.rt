//! Rows of shells about a term.
ghost use Rattle.std.specs.Prelude.{◌≡◌, IfOk, Err};
ghost use Rattle.nq_bank.specs.Content.{term_at, terms_at};
ghost use Rattle.nq_kernel.specs.Growing.{WorkGrows};
ghost use Rattle.nq_reduce.specs.Rewriting.{CanRewrite, IsRewritten};

use crate::kinds::constructor_at;
use crate::results::{Rewritten, unchanged};
use crate::rows::{Chosen, by_row};
use nq_bank::TermId;
use nq_history::History;
use nq_kernel::{Stop, Work};

/// A row of the shell at a place, and which of its literals rewrites.
#[derive(Clone, Copy, Debug, PartialEq, Eq)]
pub struct Trial {
    /// The place of the shell.
    pub place: usize,
    /// The row.
    pub row: u64,
    /// The part.
    pub part: u64,
    /// The literal.
    pub chosen: Chosen,
}

/// Where the parts of an object just made are what it was made of.
pub const PART_OF_MADE: u64 = 6;
/// Where they are defaults.
pub const WRONG_PART_OF_MADE: u64 = 7;
/// Where the object is of another kind.
pub const PART_OF_OTHER: u64 = 8;
/// Where the default takes the place of a part that the object may not have.
pub const DEFAULT_FOR_WRONG_PART: u64 = 10;
/// Where it is the base.
pub const PART_OF_BASE: u64 = 9;
/// Where an object is made of its own parts.
pub const REMADE_IS_SAME: u64 = 5;
/// Where what a constructor makes is no base.
pub const BASE_IS_NOT_MADE: u64 = 4;
/// Where T is of no shell's kind.
pub const TRUTH_IS_NONE: u64 = 11;
/// Where F is of no shell's kind.
pub const FALSITY_IS_NONE: u64 = 12;
/// Where two kinds differ.
pub const KINDS_DIFFER: u64 = 13;
/// Where the size of an object just made is told.
pub const SIZE_OF_MADE: u64 = 14;
/// Where that of a base is told.
pub const SIZE_OF_BASE: u64 = 15;

/// What the row of a shell makes of a term.
pub fn by_trial(
    work: &mut Work,
    history: &History,
    assumed: &[TermId],
    trial: Trial,
    t: TermId,
) -> Result<Rewritten, Stop>
    requires can { CanRewrite history.now work.old assumed.now t }
    ensures ok { IfOk result (λ r. IsRewritten history.now work.new (terms_at work.old.bank assumed.now) (term_at work.old.bank t) r) }
    ensures grows { WorkGrows history.now work.old work.new }
    ensures out { result ≡ Err Stop.OutOfSteps → work.new.counter.used ≡ work.new.counter.limit }
{
    match constructor_at(work, history, trial.place) {
        Some(name) => by_row(
            work,
            history,
            assumed,
            name,
            trial.row,
            trial.part,
            trial.chosen,
            t,
        ),
        None => Ok(unchanged(t)),
    }
}
