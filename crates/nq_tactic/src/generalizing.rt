//! The generalization of a goal that is small enough to be looked through.
ghost use Rattle.std.specs.Prelude.{◌≡◌, IfOk, IfSome, Err};
ghost use Rattle.nq_kernel.specs.Growing.{WorkStands, WorkGrows};
ghost use Rattle.nq_moves.specs.Ways.{IsMove};
ghost use Rattle.nq_search.specs.Goals.{IsGoalIn};

use nq_bank::TermId;
use nq_generalize::generalize_move;
use nq_history::{Hints, History};
use nq_kernel::{Stop, Work};
use nq_moves::Moved;

/// How many nodes the literals of a goal have in all that is too large: to look for calls that stand twice takes time that grows
/// with the square of them.
const NODE_LIMIT: u64 = 2000;

/// Have the literals of a goal fewer nodes than that?
fn is_small(work: &Work, history: &History, goal: &[TermId]) -> bool
    requires { IsGoalIn history.now work.now goal.now }
{
    let _ = history.len();
    let mut size: u64 = 0;
    for t in goal {
        size = size.saturating_add(work.bank.size(*t));
    }
    size < NODE_LIMIT
}

/// The generalization of a goal, where it is small and there is one.
pub fn generalized(
    work: &mut Work,
    history: &History,
    hints: &Hints,
    goal: &[TermId],
) -> Result<Option<Moved>, Stop>
    requires stands { WorkStands history.now work.old }
    requires goal { IsGoalIn history.now work.old goal.now }
    ensures moved { IfOk result (λ found. IfSome found (IsMove history.now work.new goal.now)) }
    ensures grows { WorkGrows history.now work.old work.new }
    ensures out { result ≡ Err Stop.OutOfSteps → work.new.counter.used ≡ work.new.counter.limit }
{
    if !is_small(work, history, goal) {
        return Ok(None);
    }
    generalize_move(work, history, hints, &[], goal)
}
