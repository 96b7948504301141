//! Goals solved depth first.
ghost use Rattle.std.specs.Prelude.{◌≡◌, ◌≤◌, ◌<◌, ◌+◌, ◌++◌, ◌∷◌, List, [], length, All, IfOk, OnOk, Err, unwrap_or};
ghost use Rattle.nq_logic.specs.Sizes.{depth_limit};
ghost use Rattle.nq_bank.specs.Content.{terms_at};
ghost use Rattle.nq_kernel.specs.Growing.{WorkStands, WorkGrows};
ghost use Rattle.nq_waterfall.specs.Trails.{TrailStands, goals_at, steps_at};
ghost use Rattle.nq_waterfall.specs.Ready.{CanMove, IsGoalIn, IsPathIn};
ghost use Rattle.nq_waterfall.specs.Turns.{IsLead};
ghost use Rattle.nq_waterfall.specs.Solved.{IsSolved, TrailGoesOn, IsNextSolved, NextGoesOn, TriedAt, AreClosed, IsNoted, IsCutBack};

use crate::halt::Halt;
use crate::laws::holding;
use crate::mover::{Lead, Mover, Turn};
use crate::trail::{Trail, add_step, cut_back, go_down, go_up};
use nq_bank::TermId;
use nq_history::{Hints, History};
use nq_kernel::{Cause, MoveKind, PathStep, Stop, Work};

/// How much of the stack a level takes, in entries: a path of 1,001 goals uses the counter up.
const LEVEL: u32 = 4;

/// What became of a goal.
#[derive(Clone, Copy, Debug, PartialEq, Eq)]
pub enum Solved {
    /// The line of this number has only its literals.
    Proved(u64),
    /// It was not solved; the first goal that is left over is so for this cause.
    Unsolved(Cause),
}

/// Where a goal stands: 0 is the number of the first goal.
#[derive(Clone, Copy, Debug)]
pub struct Place {
    /// Its number among the steps to goals that are not proved.
    pub number: u64,
    /// Its number among all steps.
    pub trace: u64,
    /// How deep it is nested, in entries.
    pub depth: u32,
}

/// The lines of goals that were tried, and the cause of the first that was not solved.
#[derive(Drop)]
pub struct Tried {
    /// The lines of those that are proved.
    pub lines: Vec<u64>,
    /// The cause of the first that is not.
    pub cause: Option<Cause>,
}

/// Notes what became of a goal.
fn note(tried: &mut Tried, solved: Solved) -> Result<(), Stop>
    ensures ok { OnOk result (IsNoted tried.old tried.new solved) }
    ensures out { result ≡ Err Stop.OutOfSteps → ⊥ }
{
    match solved {
        Solved::Proved(line) => match tried.lines.push(line) {
            Ok(()) => Ok(()),
            Err(_) => Err(Stop::Memory),
        },
        Solved::Unsolved(cause) => {
            tried.cause = Some(first_of(tried.cause, cause));
            Ok(())
        }
    }
}

/// The cause that was there before, or else this one.
fn first_of(before: Option<Cause>, cause: Cause) -> Cause
    ensures { result ≡ unwrap_or before cause }
{
    match before {
        None => cause,
        Some(earlier) => earlier,
    }
}

/// Takes off the step of a goal that was proved, and with it all behind it.
fn forget_proved(steps: &mut Vec<PathStep>, count: usize, solved: Solved)
    requires { count ≤ length steps.old.items }
    ensures { IsCutBack steps.old.items steps.new.items count solved }
{
    match solved {
        Solved::Proved(_) => cut_back(steps, count),
        Solved::Unsolved(_) => {}
    }
}

/// Counts an entry.
fn enter(work: &mut Work, history: &History, depth: u32) -> Result<(), Stop>
    requires stands { WorkStands history.now work.old }
    ensures counted { OnOk result (work.new.counter.used ≡ work.old.counter.used + 1) }
    ensures left { OnOk result (work.old.counter.used < work.old.counter.limit) }
    ensures shallow { OnOk result (depth ≤ depth_limit) }
    ensures grows { WorkGrows history.now work.old work.new }
    ensures out { result ≡ Err Stop.OutOfSteps → work.new.counter.used ≡ work.new.counter.limit }
{
    let _ = work.counter.used();
    work.enter(depth)
}

/// Solves a goal depth first. It is left where nothing is told of a goal below it, or where no way back is kept of a move whose goals
/// were all proved.
#[cycle(solving)]
pub fn solve<M: Mover>(
    work: &mut Work,
    mover: &mut M,
    history: &History,
    hints: &Hints,
    trail: &mut Trail,
    goal: &[TermId],
    place: Place,
) -> Result<Solved, Halt>
    requires ready { CanMove history.now hints.now work.old }
    requires trail { TrailStands work.old.bank trail.old }
    requires path_in { IsPathIn history.now work.old trail.old.path.items }
    requires goal { IsGoalIn history.now work.old goal.now }
    ensures solved { IfOk result (IsSolved history.now hints.now work.new trail.old trail.new goal.now place.number) }
    ensures trail { OnOk result (TrailGoesOn history.now hints.now work.new trail.old trail.new goal.now place.trace) }
    ensures grows { WorkGrows history.now work.old work.new }
    ensures out { result ≡ Err Halt.OutOfSteps → work.new.counter.used ≡ work.new.counter.limit }
{
    holding();
    enter(work, history, place.depth)?;
    match mover.lead(work, history, hints, trail.path.as_slice(), goal)? {
        Turn::Closed(line) => Ok(Solved::Proved(line)),
        Turn::Spent(cause) => Ok(Solved::Unsolved(cause)),
        Turn::Led(lead) => solve_led(work, mover, history, hints, trail, goal, place, &lead),
        Turn::Unknown => Err(Halt::Unknown),
    }
}

/// Solves a goal that is led on.
#[cycle(solving)]
fn solve_led<M: Mover>(
    work: &mut Work,
    mover: &mut M,
    history: &History,
    hints: &Hints,
    trail: &mut Trail,
    goal: &[TermId],
    place: Place,
    lead: &Lead<M::Way>,
) -> Result<Solved, Halt>
    requires ready { CanMove history.now hints.now work.old }
    requires trail { TrailStands work.old.bank trail.old }
    requires path_in { IsPathIn history.now work.old trail.old.path.items }
    requires goal { IsGoalIn history.now work.old goal.now }
    requires depth { place.depth ≤ depth_limit }
    requires lead { IsLead M.is_way history.now hints.now work.old trail.old.path.items goal.now lead.now }
    ensures solved { IfOk result (IsSolved history.now hints.now work.new trail.old trail.new goal.now place.number) }
    ensures trail { OnOk result (TrailGoesOn history.now hints.now work.new trail.old trail.new goal.now place.trace) }
    ensures grows { WorkGrows history.now work.old work.new }
    ensures out { result ≡ Err Halt.OutOfSteps → work.new.counter.used ≡ work.new.counter.limit }
{
    holding();
    let tried = solve_nexts(work, mover, history, hints, trail, goal, place, lead)?;
    match tried.cause {
        Some(cause) => Ok(Solved::Unsolved(cause)),
        None => {
            let closed = mover.close(work, history, hints, goal, lead, tried.lines.as_slice())?;
            match closed {
                Some(line) => Ok(Solved::Proved(line)),
                None => Err(Halt::Unknown),
            }
        }
    }
}

/// Solves the goals to which a goal is led on, one after the other.
#[cycle(solving)]
fn solve_nexts<M: Mover>(
    work: &mut Work,
    mover: &mut M,
    history: &History,
    hints: &Hints,
    trail: &mut Trail,
    goal: &[TermId],
    place: Place,
    lead: &Lead<M::Way>,
) -> Result<Tried, Halt>
    requires ready { CanMove history.now hints.now work.old }
    requires trail { TrailStands work.old.bank trail.old }
    requires path_in { IsPathIn history.now work.old trail.old.path.items }
    requires goal { IsGoalIn history.now work.old goal.now }
    requires depth { place.depth ≤ depth_limit }
    requires lead { IsLead M.is_way history.now hints.now work.old trail.old.path.items goal.now lead.now }
    ensures tried { IfOk result (λ t. TriedAt work.new.bank history.now hints.now trail.old.path.items goal.now lead.now.kind place.number lead.now.nexts.items (steps_at work.new.bank trail.old.steps.items) (steps_at work.new.bank trail.new.steps.items) t.cause) }
    ensures closed { IfOk result (λ t. AreClosed work.new (goals_at work.new.bank lead.now.nexts.items) t.lines.items t.cause) }
    ensures trail { OnOk result (TrailGoesOn history.now hints.now work.new trail.old trail.new goal.now place.trace) }
    ensures grows { WorkGrows history.now work.old work.new }
    ensures out { result ≡ Err Halt.OutOfSteps → work.new.counter.used ≡ work.new.counter.limit }
{
    holding();
    let alloc = work.bank.alloc();
    go_down(alloc, &mut trail.path, goal, lead.kind)?;
    let mut tried = Tried {
        lines: Vec::new(alloc),
        cause: None,
    };
    for next in &lead.nexts {
        let solved = solve_next(
            work,
            mover,
            history,
            hints,
            trail,
            next.as_slice(),
            place,
            lead.kind,
        )?;
        note(&mut tried, solved)?;
    }
    go_up(&mut trail.path);
    Ok(tried)
}

/// Solves a goal to which another is led on by a move of this kind.
#[cycle(solving)]
fn solve_next<M: Mover>(
    work: &mut Work,
    mover: &mut M,
    history: &History,
    hints: &Hints,
    trail: &mut Trail,
    next: &[TermId],
    place: Place,
    kind: MoveKind,
) -> Result<Solved, Halt>
    requires ready { CanMove history.now hints.now work.old }
    requires trail { TrailStands work.old.bank trail.old }
    requires path_in { IsPathIn history.now work.old trail.old.path.items }
    requires next { IsGoalIn history.now work.old next.now }
    requires depth { place.depth ≤ depth_limit }
    ensures solved { IfOk result (IsNextSolved history.now hints.now work.new trail.old trail.new place.number kind next.now) }
    ensures trail { OnOk result (NextGoesOn history.now hints.now work.new trail.old trail.new place.trace kind next.now) }
    ensures grows { WorkGrows history.now work.old work.new }
    ensures out { result ≡ Err Halt.OutOfSteps → work.new.counter.used ≡ work.new.counter.limit }
{
    let count = trail.steps.len();
    let alloc = work.bank.alloc();
    let number = add_step(alloc, &mut trail.steps, place.number, kind, next)?;
    let trace = add_step(alloc, &mut trail.trace, place.trace, kind, next)?;
    let below = Place {
        number,
        trace,
        depth: place.depth + LEVEL,
    };
    let solved = solve(work, mover, history, hints, trail, next, below)?;
    forget_proved(&mut trail.steps, count, solved);
    Ok(solved)
}
