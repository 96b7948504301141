//! Goals that are left of a simplification, without copies of literals.
//!
//! Two literals may become the same where each is rewritten under the negation of the other, and stand for neither T nor F: as
//! `(NOT (F X))` and `(NOT (F X))`, where nothing is known of what kind the calls of F are.
ghost use Rattle.std.specs.Prelude.{◌≡◌, ◌++◌, ◌∷◌, [], All, IfOk, OnOk, map, Err};
ghost use Rattle.nq_bank.specs.Content.{terms_at};
ghost use Rattle.nq_proof.specs.Clauses.{distinct};
ghost use Rattle.nq_simplify.specs.Simplified.{IsSimplified};
ghost use Rattle.nq_waterfall.specs.Ready.{IsGoalIn};
ghost use Rattle.nq_waterfall.specs.Trails.{goals_at};

use nq_bank::TermId;
use nq_history::History;
use nq_kernel::{Stop, Work};
use nq_moves::distinct_clause;
use nq_simplify::Simplified;

/// One goal more.
fn add_goal(goals: &mut Vec<Vec<TermId>>, goal: Vec<TermId>) -> Result<(), Stop>
    ensures more { OnOk result (goals.new.items ≡ goals.old.items ++ goal ∷ []) }
    ensures memory { result ≡ Err Stop.OutOfSteps → ⊥ }
{
    match goals.push(goal) {
        Ok(()) => Ok(()),
        Err(_) => Err(Stop::Memory),
    }
}

/// The goals, each without later copies of its literals.
fn without_copies(
    work: &Work,
    history: &History,
    goals: &[Vec<TermId>],
) -> Result<Vec<Vec<TermId>>, Stop>
    requires { All (λ goal. IsGoalIn history.now work.now goal.items) goals.now }
    ensures goals { IfOk result (λ v. goals_at work.now.bank v.items ≡ map distinct (goals_at work.now.bank goals.now)) }
    ensures inside { IfOk result (λ v. All (λ goal. IsGoalIn history.now work.now goal.items) v.items) }
    ensures memory { result ≡ Err Stop.OutOfSteps → ⊥ }
{
    let _ = history.len();
    let mut thin = Vec::new(work.bank.alloc());
    for goal in goals {
        let literals = distinct_clause(&work.bank, goal.as_slice())?;
        add_goal(&mut thin, literals)?;
    }
    Ok(thin)
}

/// The same simplification, to goals without copies of literals.
pub fn thinned(
    work: &Work,
    history: &History,
    goal: &[TermId],
    simplified: Simplified,
) -> Result<Simplified, Stop>
    requires { IsSimplified history.now work.now (terms_at work.now.bank goal.now) simplified }
    ensures simplified { IfOk result (IsSimplified history.now work.now (terms_at work.now.bank goal.now)) }
    ensures memory { result ≡ Err Stop.OutOfSteps → ⊥ }
{
    let _ = goal.len();
    let Simplified { way, nexts } = simplified;
    let nexts = without_copies(work, history, nexts.as_slice())?;
    Ok(Simplified { way, nexts })
}
