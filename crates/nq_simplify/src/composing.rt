//! What a goal is simplified to, from what its next goals are.
ghost use Rattle.std.specs.Prelude.{◌≡◌, ◌++◌, IfOk, Err};
ghost use Rattle.nq_bank.specs.Content.{terms_at};
ghost use Rattle.nq_simplify.specs.Simplified.{IsTurn, IsDivided, IsSimplified, TurnsFirst, DividesFirst};

use crate::steps::{Simplified, Split, Turn};
use crate::way::Way;
use nq_bank::TermId;
use nq_history::History;
use nq_kernel::{Stop, Work};
use std::alloc::{AllocError, Global};

/// A way in a box.
fn boxed(alloc: Global, way: Way) -> Result<Box<Way>, Stop>
    ensures value { IfOk result (λ b. b.value ≡ way) }
    ensures out { result ≡ Err Stop.OutOfSteps → ⊥ }
{
    match Box::new(alloc, way) {
        Ok(b) => Ok(b),
        Err(_) => Err(Stop::Memory),
    }
}

/// The way that replaces a literal and goes on.
fn turned_way(alloc: Global, turn: &Turn, rest: Way) -> Result<Way, Stop>
    ensures way { IfOk result (λ way. TurnsFirst way turn.now rest) }
    ensures out { result ≡ Err Stop.OutOfSteps → ⊥ }
{
    let rest = boxed(alloc, rest)?;
    Ok(Way::Rewritten(turn.old, turn.new, turn.line, rest))
}

/// The goal is simplified to what its next goal is.
pub fn turned(
    work: &Work,
    history: &History,
    goal: &[TermId],
    turn: Turn,
    rest: Simplified,
) -> Result<Simplified, Stop>
    requires turn { IsTurn history.now work.now (terms_at work.now.bank goal.now) turn }
    requires rest { IsSimplified history.now work.now (terms_at work.now.bank turn.next.items) rest }
    ensures simplified { IfOk result (λ s. IsSimplified history.now work.now (terms_at work.now.bank goal.now) s) }
    ensures out { result ≡ Err Stop.OutOfSteps → ⊥ }
{
    let _history = history;
    let _goal = goal;
    let way = turned_way(work.bank.alloc(), &turn, rest.way)?;
    Ok(Simplified {
        way,
        nexts: rest.nexts,
    })
}

/// The first goals, and then the others.
fn both(first: Vec<Vec<TermId>>, second: Vec<Vec<TermId>>) -> Result<Vec<Vec<TermId>>, AllocError>
    ensures { IfOk result (λ all. all.items ≡ first.items ++ second.items) }
{
    let mut all = first;
    let mut second = second;
    all.append(&mut second)?;
    Ok(all)
}

/// The same, where only memory can be wanting.
fn both_lists(first: Vec<Vec<TermId>>, second: Vec<Vec<TermId>>) -> Result<Vec<Vec<TermId>>, Stop>
    ensures all { IfOk result (λ all. all.items ≡ first.items ++ second.items) }
    ensures out { result ≡ Err Stop.OutOfSteps → ⊥ }
{
    match both(first, second) {
        Ok(all) => Ok(all),
        Err(_) => Err(Stop::Memory),
    }
}

/// The way that cuts by a test, and goes on on each side.
fn divided_way(alloc: Global, split: &Split, with_test: Way, without_test: Way) -> Result<Way, Stop>
    ensures way { IfOk result (λ way. DividesFirst way split.now with_test without_test) }
    ensures out { result ≡ Err Stop.OutOfSteps → ⊥ }
{
    let first = turned_way(alloc, &split.with_test, with_test)?;
    let second = turned_way(alloc, &split.without_test, without_test)?;
    let first = boxed(alloc, first)?;
    let second = boxed(alloc, second)?;
    Ok(Way::Cut(split.test, first, second))
}

/// The goal is simplified to what the goals on the two sides of a test are.
pub fn divided(
    work: &Work,
    history: &History,
    goal: &[TermId],
    split: Split,
    with_test: Simplified,
    without_test: Simplified,
) -> Result<Simplified, Stop>
    requires split { IsDivided history.now work.now (terms_at work.now.bank goal.now) split }
    requires with_test { IsSimplified history.now work.now (terms_at work.now.bank split.with_test.next.items) with_test }
    requires without_test { IsSimplified history.now work.now (terms_at work.now.bank split.without_test.next.items) without_test }
    ensures simplified { IfOk result (λ s. IsSimplified history.now work.now (terms_at work.now.bank goal.now) s) }
    ensures out { result ≡ Err Stop.OutOfSteps → ⊥ }
{
    let _history = history;
    let _goal = goal;
    let way = divided_way(work.bank.alloc(), &split, with_test.way, without_test.way)?;
    let nexts = both_lists(with_test.nexts, without_test.nexts)?;
    Ok(Simplified { way, nexts })
}
