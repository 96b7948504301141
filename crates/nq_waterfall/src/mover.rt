//! What moves goals: one move at a time, and the way back from the lines of the goals to which it led.
ghost use Rattle.std.specs.Prelude.{◌≡◌, List, All, IfOk, IfSome, Err, Vec};
ghost use Rattle.std.specs.declared.alloc.Global.{Global};
ghost use Rattle.nq_bank.specs.declared.node.TermId.{TermId};
ghost use Rattle.nq_bank.specs.Content.{terms_at};
ghost use Rattle.nq_kernel.specs.declared.work.Work.{Work};
ghost use Rattle.nq_history.specs.declared.entry.Entry.{Entry};
ghost use Rattle.nq_kernel.specs.Growing.{WorkGrows};
ghost use Rattle.nq_lines.specs.Lines.{LineHasOnly};
ghost use Rattle.nq_waterfall.specs.Trails.{AncestorStands, goals_at};
ghost use Rattle.nq_waterfall.specs.Ready.{CanMove, IsGoalIn, IsPathIn};
ghost use Rattle.nq_waterfall.specs.Turns.{IsTurn, HaveLines};

use crate::trail::Ancestor;
use nq_bank::TermId;
use nq_history::{Hints, History};
use nq_kernel::{Cause, MoveKind, Stop, Work};

/// A move, with what is kept of it for the way back.
#[derive(Drop)]
pub struct Lead<W> {
    /// The kind of the move.
    pub kind: MoveKind,
    /// All goals to which it leads.
    pub nexts: Vec<Vec<TermId>>,
    /// What is kept for the way back.
    pub way: W,
}

/// What is done with a goal.
#[derive(Drop)]
pub enum Turn<W> {
    /// It is led on by a move.
    Led(Lead<W>),
    /// The line of this number has only its literals.
    Closed(u64),
    /// It is left over for this cause.
    Spent(Cause),
    /// Nothing is told of it: no legal move is known that leads it on, and not that there is none.
    Unknown,
}

/// What moves goals.
pub trait Mover {
    /// What it keeps of a move.
    type Way: Drop;

    /// That the kept serves to go back from lines of these goals to a line of the first.
    ghost is_way: { List Entry → Work → List TermId → List (Vec TermId Global) → Self.Way → Type 0 };

    /// Moves a goal under the goals above it.
    fn lead(
        &mut self,
        work: &mut Work,
        history: &History,
        hints: &Hints,
        path: &[Ancestor],
        goal: &[TermId],
    ) -> Result<Turn<Self::Way>, Stop>
        requires ready { CanMove history.now hints.now work.old }
        requires path { All (AncestorStands work.old.bank) path.now }
        requires path_in { IsPathIn history.now work.old path.now }
        requires goal { IsGoalIn history.now work.old goal.now }
        ensures turn { IfOk result (IsTurn is_way history.now hints.now work.new path.now goal.now) }
        ensures grows { WorkGrows history.now work.old work.new }
        ensures out { result ≡ Err Stop.OutOfSteps → work.new.counter.used ≡ work.new.counter.limit };

    /// Makes a line with only literals of a goal from lines with only literals of the goals to which its move led; none where
    /// no way back is kept of the move.
    fn close(
        &mut self,
        work: &mut Work,
        history: &History,
        hints: &Hints,
        goal: &[TermId],
        lead: &Lead<Self::Way>,
        lines: &[u64],
    ) -> Result<Option<u64>, Stop>
        requires ready { CanMove history.now hints.now work.old }
        requires goal { IsGoalIn history.now work.old goal.now }
        requires nexts { All (λ next. IsGoalIn history.now work.old next.items) lead.now.nexts.items }
        requires way { is_way history.now work.old goal.now lead.now.nexts.items lead.now.way }
        requires lines { HaveLines work.old (goals_at work.old.bank lead.now.nexts.items) lines.now }
        ensures line { IfOk result (λ found. IfSome found (λ n. LineHasOnly work.new n (terms_at work.new.bank goal.now))) }
        ensures grows { WorkGrows history.now work.old work.new }
        ensures out { result ≡ Err Stop.OutOfSteps → work.new.counter.used ≡ work.new.counter.limit };
}
