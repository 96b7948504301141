//! The goals on the way down, and the steps that were made.
ghost use Rattle.std.specs.Prelude.{◌≡◌, ◌≤◌, ◌∷◌, ◌++◌, List, [], length, OnOk, IfOk, Err};
ghost use Rattle.nq_waterfall.specs.Trails.{IsWithAncestor, IsWithStep};

use nq_bank::TermId;
use nq_kernel::{MoveKind, PathStep, Stop};
use nq_waterfall::Ancestor;
use std::alloc::Global;

/// A copy of a goal.
fn copied(alloc: Global, goal: &[TermId]) -> Result<Vec<TermId>, Stop>
    ensures ok { IfOk result (λ v. v.items ≡ goal.now) }
    ensures out { result ≡ Err Stop.OutOfSteps → ⊥ }
{
    match Vec::from_slice(alloc, goal) {
        Ok(v) => Ok(v),
        Err(_) => Err(Stop::Memory),
    }
}

/// Puts a goal on the way down.
pub fn go_down(
    alloc: Global,
    path: &mut Vec<Ancestor>,
    goal: &[TermId],
    kind: MoveKind,
) -> Result<(), Stop>
    ensures ok { OnOk result (IsWithAncestor path.old.items path.new.items goal.now kind) }
    ensures out { result ≡ Err Stop.OutOfSteps → ⊥ }
{
    let goal = copied(alloc, goal)?;
    push_ancestor(path, Ancestor { goal, kind })?;
    Ok(())
}

fn push_ancestor(path: &mut Vec<Ancestor>, a: Ancestor) -> Result<(), Stop>
    ensures ok { OnOk result (IsWithAncestor path.old.items path.new.items a.goal.items a.kind) }
    ensures out { result ≡ Err Stop.OutOfSteps → ⊥ }
{
    match path.push(a) {
        Ok(()) => {}
        Err(_) => return Err(Stop::Memory),
    }
    Ok(())
}

/// Takes the last goal off the way down.
pub fn go_up(path: &mut Vec<Ancestor>)
    requires { 1 ≤ length path.old.items }
    ensures { (before : List Ancestor) → (last : Ancestor) → path.old.items ≡ before ++ last ∷ [] → path.new.items ≡ before }
{
    path.pop();
}

/// Adds the step by a move of this kind from a goal to another, and tells its number.
pub fn add_step(
    alloc: Global,
    steps: &mut Vec<PathStep>,
    parent: u64,
    kind: MoveKind,
    goal: &[TermId],
) -> Result<u64, Stop>
    ensures ok { OnOk result (IsWithStep steps.old.items steps.new.items parent kind goal.now) }
    ensures number { IfOk result (λ n. n ≡ length steps.new.items) }
    ensures out { result ≡ Err Stop.OutOfSteps → ⊥ }
{
    let goal = copied(alloc, goal)?;
    push_step(steps, PathStep { parent, kind, goal })?;
    Ok(steps.len() as u64)
}

fn push_step(steps: &mut Vec<PathStep>, step: PathStep) -> Result<(), Stop>
    ensures ok { OnOk result (IsWithStep steps.old.items steps.new.items step.parent step.kind step.goal.items) }
    ensures out { result ≡ Err Stop.OutOfSteps → ⊥ }
{
    match steps.push(step) {
        Ok(()) => {}
        Err(_) => return Err(Stop::Memory),
    }
    Ok(())
}
