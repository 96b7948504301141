//! What leads goals on: one way at a time, and the way back from the lines of the goals to which it led.
ghost use Rattle.std.specs.Prelude.{◌≡◌, List, All, IfOk, IfSome, Err, Vec};
ghost use Rattle.std.specs.declared.alloc.Global.{Global};
ghost use Rattle.nq_bank.specs.declared.node.TermId.{TermId};
ghost use Rattle.nq_bank.specs.Content.{terms_at};
ghost use Rattle.nq_kernel.specs.declared.work.Work.{Work};
ghost use Rattle.nq_history.specs.declared.entry.Entry.{Entry};
ghost use Rattle.nq_kernel.specs.Growing.{WorkGrows};
ghost use Rattle.nq_lines.specs.Lines.{LineHasOnly};
ghost use Rattle.nq_search.specs.Goals.{CanSearch, HaveLines, IsGoalIn, goals_at};
ghost use Rattle.nq_search.specs.Searching.{IsLed};

use crate::plan::Plan;
use nq_bank::TermId;
use nq_history::{Hints, History};
use nq_kernel::{Stop, Work};

/// A way of a goal, with what is kept of it for the way back.
#[derive(Drop)]
pub struct Led<W> {
    /// The goals to which it leads, and what is kept for the way back.
    pub way: W,
    /// What may be done with these goals.
    pub plan: Plan,
}

/// What leads goals on.
pub trait Tactic {
    /// What it keeps of a way: the goals to which it leads, and what serves to go back.
    type Way: Drop;

    /// The goals to which a way leads.
    ghost nexts_of: { Self.Way → List (Vec TermId Global) };

    /// That a way serves to go back from lines of its goals to a line of this one.
    ghost is_way: { List Entry → Work → List TermId → Self.Way → Type 0 };

    /// A line that may have only literals of a goal, if one was found before. It is a guess, which a test decides.
    fn recall(&self, goal: &[TermId]) -> Option<u64>;

    /// Keeps in mind which line was found of a goal.
    fn remember(&mut self, goal: &[TermId], line: u64);

    /// The goals to which a way leads.
    fn nexts(way: &Self::Way) -> &[Vec<TermId>]
        ensures { result.now ≡ nexts_of way.now };

    /// The way of this number to lead a goal on; none where there is none.
    fn lead(
        &mut self,
        work: &mut Work,
        history: &History,
        hints: &Hints,
        plan: Plan,
        goal: &[TermId],
        turn: u32,
    ) -> Result<Option<Led<Self::Way>>, Stop>
        requires ready { CanSearch history.now hints.now work.old }
        requires goal { IsGoalIn history.now work.old goal.now }
        ensures led { IfOk result (λ found. IfSome found (IsLed nexts_of is_way history.now work.new goal.now)) }
        ensures grows { WorkGrows history.now work.old work.new }
        ensures out { result ≡ Err Stop.OutOfSteps → work.new.counter.used ≡ work.new.counter.limit };

    /// Makes a line with only literals of a goal from lines with only literals of the goals to which its way led.
    fn close(
        &mut self,
        work: &mut Work,
        history: &History,
        hints: &Hints,
        goal: &[TermId],
        way: &Self::Way,
        lines: &[u64],
    ) -> Result<u64, Stop>
        requires ready { CanSearch history.now hints.now work.old }
        requires goal { IsGoalIn history.now work.old goal.now }
        requires nexts { All (λ next. IsGoalIn history.now work.old next.items) (nexts_of way.now) }
        requires way { is_way history.now work.old goal.now way.now }
        requires lines { HaveLines work.old (goals_at work.old.bank (nexts_of way.now)) lines.now }
        ensures line { IfOk result (λ n. LineHasOnly work.new n (terms_at work.old.bank goal.now)) }
        ensures grows { WorkGrows history.now work.old work.new }
        ensures out { result ≡ Err Stop.OutOfSteps → work.new.counter.used ≡ work.new.counter.limit };
}
