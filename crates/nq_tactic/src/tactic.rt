//! The tactic.
ghost use Rattle.std.specs.Prelude.{◌≡◌, IfOk, IfSome, Err};
ghost use Rattle.nq_kernel.specs.Growing.{WorkGrows, WorkStands};
ghost use Rattle.nq_search.specs.Goals.{CanSearch, IsGoalIn};
ghost use Rattle.nq_search.specs.Searching.{IsLed};
ghost use Rattle.nq_tactic.specs.Ways.{IsWay, nexts_of};

use crate::closing::close_way;
use crate::eliminating::lead_eliminated;
use crate::inducting::{lead_hinted, lead_inducted};
use crate::leading::{lead_apart, lead_moved, lead_refuted, lead_simplified};
use crate::order::{Choice, choice_of, plan_after_induction, plan_after_move, share};
use crate::remembered::Remembered;
use crate::substitutions::is_substituted;
use crate::way::{Way, nexts_of};
use nq_bank::TermId;
use nq_history::{Hints, History};
use nq_kernel::{MoveKind, Stop, Work};
use nq_rewrite::Learnt;
use nq_rule_table::Rules;
use nq_search::{Led, Plan, Tactic};
use std::alloc::Global;

/// The waterfall: a goal is simplified, refuted by linear arithmetic, led on by moves, and by inductions.
#[derive(Drop)]
pub struct Waterfall<'a> {
    /// The rules of the history.
    rules: &'a Rules,
    /// The share, in tenths, of the steps that a way gets where others follow.
    share: u64,
    /// What the rewritings learnt.
    learnt: Learnt,
    /// The lines that were found.
    remembered: Remembered,
}

impl<'a> Waterfall<'a> {
    /// The tactic, which rewrites by these rules, and gives a way this share, in tenths, of the steps that are left, where others
    /// follow.
    pub fn new(alloc: Global, rules: &'a Rules, share: u64) -> Waterfall<'a> {
        Waterfall {
            rules,
            share,
            learnt: Learnt::new(alloc),
            remembered: Remembered::new(alloc),
        }
    }

    /// Gives a way this share from now on.
    pub fn give(&mut self, share: u64) {
        self.share = share;
    }

    /// The plan of the goals to which a simplification leads.
    fn plan_after_simplification(&self, work: &Work, plan: Plan) -> Plan {
        let until = if plan.whole {
            share(work, plan, self.share)
        } else {
            plan.until
        };
        Plan {
            whole: false,
            simplified: true,
            until,
            ..plan
        }
    }

    /// The plan of the goals that another is taken apart to.
    fn plan_after_parting(&self, work: &Work, plan: Plan) -> Plan {
        Plan {
            simplified: false,
            ..self.plan_after_simplification(work, plan)
        }
    }

    /// Takes a goal apart.
    fn part(
        &self,
        work: &mut Work,
        history: &History,
        hints: &Hints,
        plan: Plan,
        goal: &[TermId],
    ) -> Result<Option<Led<Way>>, Stop>
        requires can { CanSearch history.now hints.now work.old }
        requires goal { IsGoalIn history.now work.old goal.now }
        ensures led { IfOk result (λ found. IfSome found (IsLed nexts_of IsWay history.now work.new goal.now)) }
        ensures grows { WorkGrows history.now work.old work.new }
        ensures out { result ≡ Err Stop.OutOfSteps → work.new.counter.used ≡ work.new.counter.limit }
    {
        let next = self.plan_after_parting(work, plan);
        let led = lead_apart(work, history, hints, self.rules, goal, next)?;
        Ok(Some(led))
    }

    /// Simplifies a goal.
    fn simplify(
        &mut self,
        work: &mut Work,
        history: &History,
        hints: &Hints,
        plan: Plan,
        goal: &[TermId],
    ) -> Result<Option<Led<Way>>, Stop>
        requires can { CanSearch history.now hints.now work.old }
        requires goal { IsGoalIn history.now work.old goal.now }
        ensures led { IfOk result (λ found. IfSome found (IsLed nexts_of IsWay history.now work.new goal.now)) }
        ensures grows { WorkGrows history.now work.old work.new }
        ensures out { result ≡ Err Stop.OutOfSteps → work.new.counter.used ≡ work.new.counter.limit }
    {
        let next = self.plan_after_simplification(work, plan);
        let led = lead_simplified(
            work,
            history,
            hints,
            self.rules,
            &mut self.learnt,
            goal,
            next,
        )?;
        Ok(Some(led))
    }

    /// Leads a goal on as a choice says.
    fn choose(
        &mut self,
        work: &mut Work,
        history: &History,
        hints: &Hints,
        plan: Plan,
        goal: &[TermId],
        choice: Choice,
    ) -> Result<Option<Led<Way>>, Stop>
        requires can { CanSearch history.now hints.now work.old }
        requires goal { IsGoalIn history.now work.old goal.now }
        ensures led { IfOk result (λ found. IfSome found (IsLed nexts_of IsWay history.now work.new goal.now)) }
        ensures grows { WorkGrows history.now work.old work.new }
        ensures out { result ≡ Err Stop.OutOfSteps → work.new.counter.used ≡ work.new.counter.limit }
    {
        match choice {
            Choice::Part => self.part(work, history, hints, plan, goal),
            Choice::Simplify => self.simplify(work, history, hints, plan, goal),
            Choice::Refute => lead_refuted(work, history, hints, self.rules, goal, plan),
            Choice::Hint => {
                let next = plan_after_induction(work, plan, self.share);
                lead_hinted(work, history, hints, goal, next)
            }
            Choice::Move(MoveKind::Elim) => {
                let next = plan_after_move(work, plan, MoveKind::Elim, self.share);
                lead_eliminated(work, history, hints, goal, next)
            }
            Choice::Move(kind) => {
                let next = plan_after_move(work, plan, kind, self.share);
                lead_moved(work, history, hints, goal, kind, next)
            }
            Choice::Induct(turn) => {
                let next = plan_after_induction(work, plan, self.share);
                lead_inducted(work, history, hints, goal, turn, next)
            }
            Choice::Nothing => Ok(None),
        }
    }

    /// Is a choice worth nothing for this goal?
    fn is_idle(&self, plan: Plan, choice: Choice) -> bool {
        match choice {
            Choice::Part => false,
            Choice::Simplify => false,
            Choice::Refute => false,
            Choice::Hint => plan.inductions == 0,
            Choice::Move(_) => false,
            Choice::Induct(_) => plan.inductions == 0,
            Choice::Nothing => true,
        }
    }
}

/// Does a choice come after SUBST?
fn is_late(choice: Choice) -> bool {
    match choice {
        Choice::Part => false,
        Choice::Simplify => false,
        Choice::Refute => false,
        Choice::Hint => false,
        Choice::Move(kind) => kind != MoveKind::Subst,
        Choice::Induct(_) => true,
        Choice::Nothing => false,
    }
}

/// Does SUBST lead the goal on before this choice? It is always good, so that nothing else is tried then.
fn is_pointless(
    work: &Work,
    history: &History,
    plan: Plan,
    goal: &[TermId],
    choice: Choice,
) -> Result<bool, Stop>
    requires stands { WorkStands history.now work.now }
    requires goal { IsGoalIn history.now work.now goal.now }
    ensures { result ≡ Err Stop.OutOfSteps → ⊥ }
{
    if plan.simplified && is_late(choice) {
        is_substituted(work, history, goal)
    } else {
        Ok(false)
    }
}

impl<'a> Tactic for Waterfall<'a> {
    type Way = Way;

    ghost nexts_of = { nexts_of };

    ghost is_way = { IsWay };

    fn recall(&self, goal: &[TermId]) -> Option<u64> {
        self.remembered.line_of(goal)
    }

    fn remember(&mut self, goal: &[TermId], line: u64) {
        self.remembered.keep(goal, line);
    }

    // with a lifetime of the tactic's own the check does not take over the clause of the trait
    fn nexts(way: &Way) -> &[Vec<TermId>]
        ensures { result.now ≡ nexts_of way.now }
    {
        nexts_of(way)
    }

    fn lead(
        &mut self,
        work: &mut Work,
        history: &History,
        hints: &Hints,
        plan: Plan,
        goal: &[TermId],
        turn: u32,
    ) -> Result<Option<Led<Way>>, Stop> {
        let choice = choice_of(hints, plan, turn);
        if self.is_idle(plan, choice) {
            return Ok(None);
        }
        let pointless = is_pointless(work, history, plan, goal, choice)?;
        if pointless {
            return Ok(None);
        }
        self.choose(work, history, hints, plan, goal, choice)
    }

    fn close(
        &mut self,
        work: &mut Work,
        history: &History,
        hints: &Hints,
        goal: &[TermId],
        way: &Way,
        lines: &[u64],
    ) -> Result<u64, Stop> {
        close_way(work, history, goal, way, lines)
    }
}
