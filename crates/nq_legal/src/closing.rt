//! The way back from lines of the goals to which a move led.
ghost use Rattle.std.specs.Prelude.{◌≡◌, IfOk, IfSome, Err};
ghost use Rattle.nq_bank.specs.Content.{terms_at};
ghost use Rattle.nq_kernel.specs.Growing.{WorkStands, WorkGrows};
ghost use Rattle.nq_lines.specs.Lines.{LineHasOnly};
ghost use Rattle.nq_moves.specs.Ways as moves;
ghost use Rattle.nq_simplify.specs.Ways.{WayStands, LeadsTo};
ghost use Rattle.nq_waterfall.specs.Ready.{IsGoalIn};
ghost use Rattle.nq_waterfall.specs.Trails.{goals_at};
ghost use Rattle.nq_waterfall.specs.Turns.{HaveLines};
ghost use Rattle.nq_legal.specs.Legal.{AreCopies, IsWay};

use crate::way::Way;
use nq_bank::TermId;
use nq_history::History;
use nq_kernel::{Stop, Work};
use nq_moves::{Moved, close_move};
use nq_simplify::{Way as Steps, close};

/// The line of a goal that was simplified to these.
fn close_simplified(
    work: &mut Work,
    history: &History,
    goal: &[TermId],
    nexts: &[Vec<TermId>],
    steps: &Steps,
    lines: &[u64],
) -> Result<u64, Stop>
    requires stands { WorkStands history.now work.old }
    requires goal { IsGoalIn history.now work.old goal.now }
    requires way { WayStands history.now work.old steps.now }
    requires leads { LeadsTo work.old steps.now (terms_at work.old.bank goal.now) (goals_at work.old.bank nexts.now) }
    requires lines { HaveLines work.old (goals_at work.old.bank nexts.now) lines.now }
    ensures line { IfOk result (λ n. LineHasOnly work.new n (terms_at work.old.bank goal.now)) }
    ensures grows { WorkGrows history.now work.old work.new }
    ensures out { result ≡ Err Stop.OutOfSteps → work.new.counter.used ≡ work.new.counter.limit }
{
    let _ = (goal.len(), nexts.len());
    close(work, history, steps, lines)
}

/// The line of a goal that a move led on to these.
fn close_moved(
    work: &mut Work,
    history: &History,
    goal: &[TermId],
    nexts: &[Vec<TermId>],
    moved: &Moved,
    lines: &[u64],
) -> Result<u64, Stop>
    requires stands { WorkStands history.now work.old }
    requires goal { IsGoalIn history.now work.old goal.now }
    requires way { moves.IsWay history.now work.old goal.now moved.now }
    requires same { AreCopies nexts.now moved.now.children.items }
    requires lines { HaveLines work.old (goals_at work.old.bank nexts.now) lines.now }
    ensures line { IfOk result (λ n. LineHasOnly work.new n (terms_at work.old.bank goal.now)) }
    ensures grows { WorkGrows history.now work.old work.new }
    ensures out { result ≡ Err Stop.OutOfSteps → work.new.counter.used ≡ work.new.counter.limit }
{
    let _ = nexts.len();
    close_move(work, history, goal, moved, lines)
}

/// A line with only literals of a goal, from such lines of the goals to which its move led; none of an induction.
pub fn close_way(
    work: &mut Work,
    history: &History,
    goal: &[TermId],
    nexts: &[Vec<TermId>],
    way: &Way,
    lines: &[u64],
) -> Result<Option<u64>, Stop>
    requires stands { WorkStands history.now work.old }
    requires goal { IsGoalIn history.now work.old goal.now }
    requires way { IsWay history.now work.old goal.now nexts.now way.now }
    requires lines { HaveLines work.old (goals_at work.old.bank nexts.now) lines.now }
    ensures line { IfOk result (λ found. IfSome found (λ n. LineHasOnly work.new n (terms_at work.old.bank goal.now))) }
    ensures grows { WorkGrows history.now work.old work.new }
    ensures out { result ≡ Err Stop.OutOfSteps → work.new.counter.used ≡ work.new.counter.limit }
{
    match way {
        Way::Simplified(steps) => {
            let line = close_simplified(work, history, goal, nexts, steps, lines)?;
            Ok(Some(line))
        }
        Way::Moved(moved) => {
            let line = close_moved(work, history, goal, nexts, moved, lines)?;
            Ok(Some(line))
        }
        Way::Inducted => Ok(None),
    }
}
