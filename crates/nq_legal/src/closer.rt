//! What closes goals of which all is proved to which a move led, where no way back is kept of the move.
ghost use Rattle.std.specs.Prelude.{◌≡◌, IfOk, IfSome, Err};
ghost use Rattle.nq_bank.specs.Content.{terms_at};
ghost use Rattle.nq_kernel.specs.Growing.{WorkGrows};
ghost use Rattle.nq_lines.specs.Lines.{LineHasOnly};
ghost use Rattle.nq_waterfall.specs.Ready.{CanMove, IsGoalIn};

use nq_bank::TermId;
use nq_history::{Hints, History};
use nq_kernel::{Stop, Work};

/// What closes goals of which all is proved to which a move led, where no way back is kept of the move.
pub trait Closer {
    /// A line with only literals of a goal, where one is found.
    fn close(
        &mut self,
        work: &mut Work,
        history: &History,
        hints: &Hints,
        goal: &[TermId],
    ) -> Result<Option<u64>, Stop>
        requires ready { CanMove history.now hints.now work.old }
        requires goal { IsGoalIn history.now work.old goal.now }
        ensures line { IfOk result (λ found. IfSome found (λ n. LineHasOnly work.new n (terms_at work.new.bank goal.now))) }
        ensures grows { WorkGrows history.now work.old work.new }
        ensures out { result ≡ Err Stop.OutOfSteps → work.new.counter.used ≡ work.new.counter.limit };
}

/// What closes no goal.
#[derive(Clone, Copy, Debug)]
pub struct NoCloser;

impl Closer for NoCloser {
    fn close(
        &mut self,
        work: &mut Work,
        history: &History,
        hints: &Hints,
        goal: &[TermId],
    ) -> Result<Option<u64>, Stop> {
        Ok(None)
    }
}
