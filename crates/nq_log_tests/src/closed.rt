//! Lines of goals that moves led on, in a history with an axiom of which each goal is an instance.
ghost use Rattle.std.specs.Prelude.{◌≡◌, ◌∷◌, [], All, IfSome};
ghost use Rattle.nq_bank.specs.Content.{terms_at};
ghost use Rattle.nq_history.specs.Events.{events_at};
ghost use Rattle.nq_kernel.specs.Growing.{WorkStands, WorkGrows};
ghost use Rattle.nq_kernel.specs.Ready.{IsReady};
ghost use Rattle.nq_lines.specs.Lines.{IsTermIn, LineHasOnly};
ghost use Rattle.nq_moves.specs.Ways.{IsMove};

use nq_bank::TermId;
use nq_history::History;
use nq_kernel::Work;
use nq_moves::laws::ways_last;
use nq_moves::{Moved, close_move};
use nq_quick::quick;

/// Does a line stand, with only these literals?
pub fn has_only(work: &Work, line: Option<u64>, goal: &[TermId]) -> bool {
    match line {
        Some(n) => match work.log.cited(n) {
            Some(clause) => clause.iter().all(|t| goal.contains(t)),
            None => false,
        },
        None => false,
    }
}

/// The line of the first literal of a goal, by the first pass.
fn first_line(work: &mut Work, history: &History, goal: &Vec<TermId>) -> Option<u64>
    requires stands { WorkStands history.now work.old }
    requires ready { IsReady (events_at work.old.bank history.now) }
    requires goal { All (IsTermIn history.now work.old) goal.now.items }
    ensures line { IfSome result (λ n. LineHasOnly work.new n (terms_at work.old.bank goal.now.items)) }
    ensures grows { WorkGrows history.now work.old work.new }
{
    match goal.as_slice() {
        [first, ..] => match quick(work, history, *first) {
            Ok(Some((_, line))) => Some(line),
            Ok(None) => None,
            Err(_) => None,
        },
        [] => None,
    }
}

/// The line of a goal that a move led on to one goal.
fn closed_by_one(
    work: &mut Work,
    history: &History,
    goal: &[TermId],
    moved: &Moved,
    only: &Vec<TermId>,
) -> Option<u64>
    requires stands { WorkStands history.now work.old }
    requires ready { IsReady (events_at work.old.bank history.now) }
    requires goal { All (IsTermIn history.now work.old) goal.now }
    requires moved { IsMove history.now work.old goal.now moved.now }
    requires only { moved.now.children.items ≡ only.now ∷ [] }
{
    ways_last();
    match first_line(work, history, only) {
        Some(line) => close_move(work, history, goal, moved, &[line]).ok(),
        None => None,
    }
}

/// The line of a goal that a move led on to two goals.
fn closed_by_two(
    work: &mut Work,
    history: &History,
    goal: &[TermId],
    moved: &Moved,
    first: &Vec<TermId>,
    second: &Vec<TermId>,
) -> Option<u64>
    requires stands { WorkStands history.now work.old }
    requires ready { IsReady (events_at work.old.bank history.now) }
    requires goal { All (IsTermIn history.now work.old) goal.now }
    requires moved { IsMove history.now work.old goal.now moved.now }
    requires both { moved.now.children.items ≡ first.now ∷ second.now ∷ [] }
{
    ways_last();
    match first_line(work, history, first) {
        Some(a) => match first_line(work, history, second) {
            Some(b) => close_move(work, history, goal, moved, &[a, b]).ok(),
            None => None,
        },
        None => None,
    }
}

/// The line of a goal that a move led on to one goal or to two, from lines of their first literals.
pub fn closed(work: &mut Work, history: &History, goal: &[TermId], moved: &Moved) -> Option<u64>
    requires stands { WorkStands history.now work.old }
    requires ready { IsReady (events_at work.old.bank history.now) }
    requires goal { All (IsTermIn history.now work.old) goal.now }
    requires moved { IsMove history.now work.old goal.now moved.now }
{
    match moved.children.as_slice() {
        [only] => closed_by_one(work, history, goal, moved, only),
        [first, second] => closed_by_two(work, history, goal, moved, first, second),
        _ => None,
    }
}
