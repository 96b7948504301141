//! SUBST and IRR of the first candidate, and the ways back from the goals to which moves led.
ghost use Rattle.std.specs.Prelude.{◌≡◌, [], All, IfOk, IfSome, MatchOption, Err, None, Ok};
ghost use Rattle.nq_bank.specs.Content.{terms_at};
ghost use Rattle.nq_history.specs.Events.{events_at};
ghost use Rattle.nq_goals.specs.Dropping.{DropMove, droppings_of};
ghost use Rattle.nq_goals.specs.Substituting.{SubstituteMove, substitutions_of};
ghost use Rattle.nq_kernel.specs.Growing.{WorkStands, WorkGrows};
ghost use Rattle.nq_lines.specs.Lines.{IsTermIn, LineHasOnly};
ghost use Rattle.nq_moves.specs.Dropped.{HoldChildren};
ghost use Rattle.nq_moves.specs.Found.{goals_at};
ghost use Rattle.nq_moves.specs.OfTable.{IsOfTable};
ghost use Rattle.nq_moves.specs.Ways.{IsWay, IsMove};

use crate::crossing::close_swapped;
use crate::dropping::{close_left, drop_first};
use crate::eliminating::close_eliminated;
use crate::moved::Moved;
use crate::renaming::close_renamed;
use crate::substituting::{close_substitution, substitute_first};
use nq_bank::TermId;
use nq_history::{Hints, History};
use nq_kernel::{MoveKind, Stop, Work};

/// SUBST: a variable of the goal is replaced by what it equals, and the equation is used up. It is none exactly where there is no
/// candidate, and then uses no steps.
pub fn substitute_move(
    work: &mut Work,
    history: &History,
    _hints: &Hints,
    goal: &[TermId],
) -> Result<Option<Moved>, Stop>
    requires stands { WorkStands history.now work.old }
    requires goal { All (IsTermIn history.now work.old) goal.now }
    ensures moved { IfOk result (λ found. IfSome found (IsMove history.now work.new goal.now)) }
    ensures legal { IfOk result (λ found. MatchOption found (substitutions_of (terms_at work.old.bank goal.now) ≡ []) (IsOfTable (SubstituteMove (events_at work.old.bank history.now)) work.old.bank work.new.bank goal.now)) }
    ensures none { result ≡ Ok None → work.new ≡ work.old }
    ensures candidate { result ≡ Err Stop.OutOfSteps → substitutions_of (terms_at work.old.bank goal.now) ≡ [] → ⊥ }
    ensures grows { WorkGrows history.now work.old work.new }
    ensures out { result ≡ Err Stop.OutOfSteps → work.new.counter.used ≡ work.new.counter.limit }
{
    substitute_first(work, history, goal)
}

/// IRR: literals that have nothing to do with the others are dropped. It is none exactly where there is no candidate, and never uses
/// steps.
pub fn irrelevant_move(
    work: &mut Work,
    history: &History,
    _hints: &Hints,
    goal: &[TermId],
) -> Result<Option<Moved>, Stop>
    requires stands { WorkStands history.now work.old }
    requires goal { All (IsTermIn history.now work.old) goal.now }
    ensures moved { IfOk result (λ found. IfSome found (IsMove history.now work.new goal.now)) }
    ensures legal { IfOk result (λ found. MatchOption found (droppings_of (events_at work.old.bank history.now) (terms_at work.old.bank goal.now) ≡ []) (IsOfTable (DropMove (events_at work.old.bank history.now)) work.old.bank work.new.bank goal.now)) }
    ensures same { work.new ≡ work.old }
    ensures steps { result ≡ Err Stop.OutOfSteps → ⊥ }
    ensures grows { WorkGrows history.now work.old work.new }
    ensures out { result ≡ Err Stop.OutOfSteps → work.new.counter.used ≡ work.new.counter.limit }
{
    drop_first(work, history, goal)
}

/// Adds a line with only literals of a goal, from such lines of the goals to which its move led.
pub fn close_move(
    work: &mut Work,
    history: &History,
    goal: &[TermId],
    moved: &Moved,
    lines: &[u64],
) -> Result<u64, Stop>
    requires stands { WorkStands history.now work.old }
    requires goal { All (IsTermIn history.now work.old) goal.now }
    requires way { IsWay history.now work.old goal.now moved.now }
    requires lines { HoldChildren work.old (goals_at work.old.bank moved.now.children.items) lines.now }
    ensures line { IfOk result (λ n. LineHasOnly work.new n (terms_at work.old.bank goal.now)) }
    ensures grows { WorkGrows history.now work.old work.new }
    ensures out { result ≡ Err Stop.OutOfSteps → work.new.counter.used ≡ work.new.counter.limit }
{
    match moved.why.kind {
        MoveKind::Subst => close_substitution(work, history, goal, moved, lines),
        MoveKind::Fert => close_swapped(work, history, goal, moved, lines),
        MoveKind::Gen => close_renamed(work, history, goal, moved, lines),
        MoveKind::Irr => close_left(work, history, goal, moved, lines),
        MoveKind::Simp => unreachable!(),
        MoveKind::Elim => close_eliminated(work, history, goal, moved, lines),
        MoveKind::Ind => unreachable!(),
    }
}
