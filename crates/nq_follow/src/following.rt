//! Goals that are followed depth first.
ghost use Rattle.std.specs.Prelude.{◌≡◌, ◌≤◌, ◌<◌, ◌+◌, OnOk, Err};
ghost use Rattle.nq_logic.specs.Sizes.{depth_limit};
ghost use Rattle.nq_kernel.specs.Growing.{WorkStands, WorkGrows};
ghost use Rattle.nq_waterfall.specs.Trails.{TrailStands};
ghost use Rattle.nq_waterfall.specs.Ready.{CanMove, IsGoalIn, IsPathIn};
ghost use Rattle.nq_waterfall.specs.Turns.{IsLead};
ghost use Rattle.nq_waterfall.specs.Solved.{TrailGoesOn, NextGoesOn};

use crate::trail::{add_step, go_down, go_up};
use nq_bank::TermId;
use nq_history::{Hints, History};
use nq_kernel::{MoveKind, Stop, Work};
use nq_waterfall::laws::holding;
use nq_waterfall::{Lead, Mover, Trail, Turn};

/// How much of the stack a level takes, in entries: a path of 1,001 goals uses the counter up.
const LEVEL: u32 = 4;

/// Counts an entry.
fn enter(work: &mut Work, history: &History, depth: u32) -> Result<(), Stop>
    requires stands { WorkStands history.now work.old }
    ensures counted { OnOk result (work.new.counter.used ≡ work.old.counter.used + 1) }
    ensures left { OnOk result (work.old.counter.used < work.old.counter.limit) }
    ensures shallow { OnOk result (depth ≤ depth_limit) }
    ensures grows { WorkGrows history.now work.old work.new }
    ensures out { result ≡ Err Stop.OutOfSteps → work.new.counter.used ≡ work.new.counter.limit }
{
    let _ = work.counter.used();
    work.enter(depth)
}

/// Follows a goal, which stands at this number of the trace, to all goals to which moves lead from it. A goal of which nothing is
/// told, that is closed, or that is left over, is followed no further.
#[cycle(following)]
pub fn follow<M: Mover>(
    work: &mut Work,
    mover: &mut M,
    history: &History,
    hints: &Hints,
    trail: &mut Trail,
    goal: &[TermId],
    number: u64,
    depth: u32,
) -> Result<(), Stop>
    requires ready { CanMove history.now hints.now work.old }
    requires trail { TrailStands work.old.bank trail.old }
    requires path_in { IsPathIn history.now work.old trail.old.path.items }
    requires goal { IsGoalIn history.now work.old goal.now }
    ensures trail { OnOk result (TrailGoesOn history.now hints.now work.new trail.old trail.new goal.now number) }
    ensures grows { WorkGrows history.now work.old work.new }
    ensures out { result ≡ Err Stop.OutOfSteps → work.new.counter.used ≡ work.new.counter.limit }
{
    holding();
    enter(work, history, depth)?;
    match mover.lead(work, history, hints, trail.path.as_slice(), goal)? {
        Turn::Led(lead) => follow_nexts(
            work, mover, history, hints, trail, goal, number, depth, &lead,
        ),
        Turn::Closed(_) => Ok(()),
        Turn::Spent(_) => Ok(()),
        Turn::Unknown => Ok(()),
    }
}

/// Follows the goals to which a goal is led on, one after the other.
#[cycle(following)]
fn follow_nexts<M: Mover>(
    work: &mut Work,
    mover: &mut M,
    history: &History,
    hints: &Hints,
    trail: &mut Trail,
    goal: &[TermId],
    number: u64,
    depth: u32,
    lead: &Lead<M::Way>,
) -> Result<(), Stop>
    requires ready { CanMove history.now hints.now work.old }
    requires trail { TrailStands work.old.bank trail.old }
    requires path_in { IsPathIn history.now work.old trail.old.path.items }
    requires goal { IsGoalIn history.now work.old goal.now }
    requires depth { depth ≤ depth_limit }
    requires lead { IsLead M.is_way history.now hints.now work.old trail.old.path.items goal.now lead.now }
    ensures trail { OnOk result (TrailGoesOn history.now hints.now work.new trail.old trail.new goal.now number) }
    ensures grows { WorkGrows history.now work.old work.new }
    ensures out { result ≡ Err Stop.OutOfSteps → work.new.counter.used ≡ work.new.counter.limit }
{
    holding();
    let alloc = work.bank.alloc();
    go_down(alloc, &mut trail.path, goal, lead.kind)?;
    for next in &lead.nexts {
        follow_next(
            work,
            mover,
            history,
            hints,
            trail,
            next.as_slice(),
            number,
            depth,
            lead.kind,
        )?;
    }
    go_up(&mut trail.path);
    Ok(())
}

/// Follows a goal to which another is led on by a move of this kind.
#[cycle(following)]
fn follow_next<M: Mover>(
    work: &mut Work,
    mover: &mut M,
    history: &History,
    hints: &Hints,
    trail: &mut Trail,
    next: &[TermId],
    number: u64,
    depth: u32,
    kind: MoveKind,
) -> Result<(), Stop>
    requires ready { CanMove history.now hints.now work.old }
    requires trail { TrailStands work.old.bank trail.old }
    requires path_in { IsPathIn history.now work.old trail.old.path.items }
    requires next { IsGoalIn history.now work.old next.now }
    requires depth { depth ≤ depth_limit }
    ensures trail { OnOk result (NextGoesOn history.now hints.now work.new trail.old trail.new number kind next.now) }
    ensures grows { WorkGrows history.now work.old work.new }
    ensures out { result ≡ Err Stop.OutOfSteps → work.new.counter.used ≡ work.new.counter.limit }
{
    let alloc = work.bank.alloc();
    let here = add_step(alloc, &mut trail.trace, number, kind, next)?;
    follow(
        work,
        mover,
        history,
        hints,
        trail,
        next,
        here,
        depth + LEVEL,
    )
}
