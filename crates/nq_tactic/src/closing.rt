//! The ways back to a line of a goal, from lines of the goals to which a way led.
ghost use Rattle.std.specs.Prelude.{◌≡◌, All, IfOk, Err};
ghost use Rattle.nq_bank.specs.Content.{terms_at};
ghost use Rattle.nq_elim.specs.Eliminations.{IsEliminationWay};
ghost use Rattle.nq_kernel.specs.Growing.{WorkStands, WorkGrows};
ghost use Rattle.nq_lines.specs.Lines.{LineHasOnly};
ghost use Rattle.nq_moves.specs.Ways as moves;
ghost use Rattle.nq_search.specs.Goals.{HaveLines, IsGoalIn, goals_at};
ghost use Rattle.nq_simplify.specs.Simplified.{IsSimplified};
ghost use Rattle.nq_tactic.specs.Ways.{IsInduction, IsWay, nexts_of};

use crate::way::{Induction, Way};
use nq_bank::TermId;
use nq_elim::{Elimination, close_elimination};
use nq_history::History;
use nq_induct::close_induction;
use nq_kernel::{Stop, Work};
use nq_moves::{Moved, close_move};
use nq_simplify::{Simplified, close};

/// The line of a goal that was simplified.
fn close_simplified(
    work: &mut Work,
    history: &History,
    goal: &[TermId],
    simplified: &Simplified,
    lines: &[u64],
) -> Result<u64, Stop>
    requires stands { WorkStands history.now work.old }
    requires way { IsSimplified history.now work.old (terms_at work.old.bank goal.now) simplified.now }
    requires lines { HaveLines work.old (goals_at work.old.bank simplified.now.nexts.items) lines.now }
    ensures line { IfOk result (λ n. LineHasOnly work.new n (terms_at work.old.bank goal.now)) }
    ensures grows { WorkGrows history.now work.old work.new }
    ensures out { result ≡ Err Stop.OutOfSteps → work.new.counter.used ≡ work.new.counter.limit }
{
    close(work, history, &simplified.way, lines)
}

/// The line of a goal that a move led on.
fn close_moved(
    work: &mut Work,
    history: &History,
    goal: &[TermId],
    moved: &Moved,
    lines: &[u64],
) -> Result<u64, Stop>
    requires stands { WorkStands history.now work.old }
    requires goal { IsGoalIn history.now work.old goal.now }
    requires way { moves.IsWay history.now work.old goal.now moved.now }
    requires lines { HaveLines work.old (goals_at work.old.bank moved.now.children.items) lines.now }
    ensures line { IfOk result (λ n. LineHasOnly work.new n (terms_at work.old.bank goal.now)) }
    ensures grows { WorkGrows history.now work.old work.new }
    ensures out { result ≡ Err Stop.OutOfSteps → work.new.counter.used ≡ work.new.counter.limit }
{
    close_move(work, history, goal, moved, lines)
}

/// The line of a goal whose destructors were replaced.
fn close_eliminated(
    work: &mut Work,
    history: &History,
    goal: &[TermId],
    elimination: &Elimination,
    lines: &[u64],
) -> Result<u64, Stop>
    requires stands { WorkStands history.now work.old }
    requires goal { IsGoalIn history.now work.old goal.now }
    requires way { IsEliminationWay history.now work.old goal.now elimination.now }
    requires lines { HaveLines work.old (goals_at work.old.bank elimination.now.nexts.items) lines.now }
    ensures line { IfOk result (λ n. LineHasOnly work.new n (terms_at work.old.bank goal.now)) }
    ensures grows { WorkGrows history.now work.old work.new }
    ensures out { result ≡ Err Stop.OutOfSteps → work.new.counter.used ≡ work.new.counter.limit }
{
    close_elimination(work, history, goal, elimination, lines)
}

/// The line of a goal that an induction led on.
fn close_inducted(
    work: &mut Work,
    history: &History,
    goal: &[TermId],
    induction: &Induction,
    lines: &[u64],
) -> Result<u64, Stop>
    requires stands { WorkStands history.now work.old }
    requires goal { IsGoalIn history.now work.old goal.now }
    requires way { IsInduction history.now work.old goal.now induction.now }
    requires lines { HaveLines work.old (goals_at work.old.bank induction.now.nexts.items) lines.now }
    ensures line { IfOk result (λ n. LineHasOnly work.new n (terms_at work.old.bank goal.now)) }
    ensures grows { WorkGrows history.now work.old work.new }
    ensures out { result ≡ Err Stop.OutOfSteps → work.new.counter.used ≡ work.new.counter.limit }
{
    close_induction(work, history, &induction.scheme, goal, lines)
}

/// Makes a line with only literals of a goal from such lines of the goals to which its way led.
pub fn close_way(
    work: &mut Work,
    history: &History,
    goal: &[TermId],
    way: &Way,
    lines: &[u64],
) -> Result<u64, Stop>
    requires stands { WorkStands history.now work.old }
    requires goal { IsGoalIn history.now work.old goal.now }
    requires way { IsWay history.now work.old goal.now way.now }
    requires lines { HaveLines work.old (goals_at work.old.bank (nexts_of way.now)) lines.now }
    ensures line { IfOk result (λ n. LineHasOnly work.new n (terms_at work.old.bank goal.now)) }
    ensures grows { WorkGrows history.now work.old work.new }
    ensures out { result ≡ Err Stop.OutOfSteps → work.new.counter.used ≡ work.new.counter.limit }
{
    match way {
        Way::Simplified(simplified) => close_simplified(work, history, goal, simplified, lines),
        Way::Moved(moved) => close_moved(work, history, goal, moved, lines),
        Way::Eliminated(elimination) => close_eliminated(work, history, goal, elimination, lines),
        Way::Inducted(induction) => close_inducted(work, history, goal, induction, lines),
        Way::Refuted(line) => Ok(*line),
    }
}
