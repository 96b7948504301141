//! The goals of an induction, each of one literal.
ghost use Rattle.std.specs.Prelude.{◌≡◌, ◌∷◌, [], All, IfOk, IfSome, Err};
ghost use Rattle.nq_bank.specs.Content.{term_at};
ghost use Rattle.nq_kernel.specs.Growing.{WorkStands};
ghost use Rattle.nq_waterfall.specs.Ready.{IsGoalIn};
ghost use Rattle.nq_waterfall.specs.Trails.{goals_at};
ghost use Rattle.nq_inductor.specs.Goals.{AreNexts};

use nq_bank::TermId;
use nq_history::History;
use nq_kernel::{Stop, Work};
use nq_own::is_own;
use nq_tracer::Nexts;
use std::alloc::{AllocError, Global};

/// The goal of one literal.
fn goal_of(alloc: Global, literal: TermId) -> Result<Vec<TermId>, AllocError>
    ensures { IfOk result (λ v. v.items ≡ literal ∷ []) }
{
    let mut goal = Vec::new(alloc);
    goal.push(literal)?;
    Ok(goal)
}

/// Two goals.
fn two_of(
    alloc: Global,
    first: Vec<TermId>,
    second: Vec<TermId>,
) -> Result<Vec<Vec<TermId>>, AllocError>
    ensures { IfOk result (λ v. v.items ≡ first ∷ second ∷ []) }
{
    let mut goals = Vec::new(alloc);
    goals.push(first)?;
    goals.push(second)?;
    Ok(goals)
}

/// The goals of an induction, each of one literal.
fn goals_of(alloc: Global, nexts: Nexts) -> Result<Vec<Vec<TermId>>, AllocError>
    ensures { IfOk result (λ v. AreNexts v.items nexts) }
{
    let base = goal_of(alloc, nexts.base)?;
    let step = goal_of(alloc, nexts.step)?;
    two_of(alloc, base, step)
}

/// The goals, where their literals are such as a log can spell.
pub fn own_goals(
    work: &Work,
    history: &History,
    nexts: Nexts,
) -> Result<Option<Vec<Vec<TermId>>>, Stop>
    requires stands { WorkStands history.now work.now }
    ensures goals { IfOk result (λ found. IfSome found (λ goals. goals_at work.now.bank goals.items ≡ (term_at work.now.bank nexts.base ∷ []) ∷ (term_at work.now.bank nexts.step ∷ []) ∷ [])) }
    ensures inside { IfOk result (λ found. IfSome found (λ goals. All (λ next. IsGoalIn history.now work.now next.items) goals.items)) }
    ensures memory { result ≡ Err Stop.OutOfSteps → ⊥ }
{
    let base_in = is_own(work, history, nexts.base);
    if !base_in {
        return Ok(None);
    }
    let step_in = is_own(work, history, nexts.step);
    if !step_in {
        return Ok(None);
    }
    match goals_of(work.bank.alloc(), nexts) {
        Ok(goals) => Ok(Some(goals)),
        Err(_) => Err(Stop::Memory),
    }
}
