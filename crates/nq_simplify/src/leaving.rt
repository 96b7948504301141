//! Goals that are left, and goals that a line closes.
ghost use Rattle.std.specs.Prelude.{◌≡◌, ◌∷◌, [], IfOk, Err};
ghost use Rattle.nq_bank.specs.Content.{terms_at};
ghost use Rattle.nq_lines.specs.Lines.{LineHasOnly};
ghost use Rattle.nq_simplify.specs.Simplified.{AreTermsIn, BasisStands, IsSimplified, literals_but};

use crate::basis::Basis;
use crate::steps::Simplified;
use crate::way::Way;
use nq_bank::TermId;
use nq_history::History;
use nq_kernel::{Stop, Work};
use std::alloc::{AllocError, Global};

/// The goal without a literal that is false.
fn literals_but(alloc: Global, goal: &[TermId], falsity: TermId) -> Result<Vec<TermId>, AllocError>
    ensures { IfOk result (λ c. c.items ≡ literals_but falsity goal.now) }
{
    let mut kept = Vec::new(alloc);
    for t in goal {
        if *t != falsity {
            kept.push(*t)?;
        }
    }
    Ok(kept)
}

/// One goal, in a list.
fn only(alloc: Global, goal: Vec<TermId>) -> Result<Vec<Vec<TermId>>, AllocError>
    ensures { IfOk result (λ goals. goals.items ≡ goal ∷ []) }
{
    let mut goals = Vec::new(alloc);
    goals.push(goal)?;
    Ok(goals)
}

/// The goal is left, without its literals F.
pub fn leave(
    work: &Work,
    history: &History,
    basis: &Basis,
    goal: &[TermId],
) -> Result<Simplified, Stop>
    requires basis { BasisStands history.now work.now basis.now }
    requires goal { AreTermsIn history.now work.now goal.now }
    ensures simplified { IfOk result (λ s. IsSimplified history.now work.now (terms_at work.now.bank goal.now) s) }
    ensures out { result ≡ Err Stop.OutOfSteps → ⊥ }
{
    let alloc = work.bank.alloc();
    match literals_but(alloc, goal, basis.falsity) {
        Ok(kept) => match only(alloc, kept) {
            Ok(nexts) => Ok(Simplified {
                way: Way::Goal,
                nexts,
            }),
            Err(_) => Err(Stop::Memory),
        },
        Err(_) => Err(Stop::Memory),
    }
}

/// A line closes the goal.
pub fn closed_by(work: &Work, history: &History, goal: &[TermId], line: u64) -> Simplified
    requires line { LineHasOnly work.now line (terms_at work.now.bank goal.now) }
    ensures { IsSimplified history.now work.now (terms_at work.now.bank goal.now) result }
{
    let _history = history;
    let _goal = goal;
    Simplified {
        way: Way::Line(line),
        nexts: Vec::new(work.bank.alloc()),
    }
}
