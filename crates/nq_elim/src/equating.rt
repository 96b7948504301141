//! Numbers of a goal of which neither is below the other: they are one number.
//!
//! Where the goal says so of a variable, or linear arithmetic does, the variable gives way, as an equation in the goal would let it:
//! beside `(LESSP X Y)` and `(LESSP Y X)`, of numbers X and Y, Y stands for X.
ghost use Rattle.std.specs.Prelude.{◌≡◌, All, IfOk, IfSome, Err};
ghost use Rattle.nq_bank.specs.Content.{terms_at};
ghost use Rattle.nq_elim.specs.Eliminations.{IsEliminationWay};
ghost use Rattle.nq_elim.specs.Reasons.{FactHolds};
ghost use Rattle.nq_kernel.specs.Growing.{WorkStands, WorkGrows};
ghost use Rattle.nq_lines.specs.Lines.{IsTermIn};

use crate::calls::is_variable;
use crate::eliminating::eliminate_by;
use crate::lists::{has_id, with_first};
use crate::making::Elimination;
use nq_arithmetic::arithmetic_line;
use nq_bank::{TermId, ground};
use nq_history::{Hints, History};
use nq_instances::two_in;
use nq_kernel::{Stop, Work};
use nq_lines::{Fact, Sides, deny, equate};

/// A term that linear arithmetic shows beside a goal.
pub fn fact_beside(
    work: &mut Work,
    history: &History,
    hints: &Hints,
    goal: &[TermId],
    t: TermId,
) -> Result<Option<Fact>, Stop>
    requires stands { WorkStands history.now work.old }
    requires goal { All (IsTermIn history.now work.old) goal.now }
    requires term { IsTermIn history.now work.old t }
    ensures fact { IfOk result (λ found. IfSome found (FactHolds history.now work.new (terms_at work.new.bank goal.now))) }
    ensures grows { WorkGrows history.now work.old work.new }
    ensures out { result ≡ Err Stop.OutOfSteps → work.new.counter.used ≡ work.new.counter.limit }
{
    let more = with_first(work.bank.alloc(), t, goal)?;
    match arithmetic_line(work, history, hints, more.as_slice(), &[])? {
        Some(line) => Ok(Some(Fact { term: t, line })),
        None => Ok(None),
    }
}

/// The equation of two numbers, unless its denial stands in the goal.
fn equation_of(
    work: &mut Work,
    history: &History,
    hints: &Hints,
    goal: &[TermId],
    sides: Sides,
) -> Result<Option<Fact>, Stop>
    requires stands { WorkStands history.now work.old }
    requires goal { All (IsTermIn history.now work.old) goal.now }
    requires left { IsTermIn history.now work.old sides.left }
    requires right { IsTermIn history.now work.old sides.right }
    ensures fact { IfOk result (λ found. IfSome found (FactHolds history.now work.new (terms_at work.new.bank goal.now))) }
    ensures grows { WorkGrows history.now work.old work.new }
    ensures out { result ≡ Err Stop.OutOfSteps → work.new.counter.used ≡ work.new.counter.limit }
{
    let t = equate(work, history, sides.left, sides.right)?;
    let denied = deny(work, history, t)?;
    if has_id(&work.bank, goal, denied) {
        return Ok(None);
    }
    fact_beside(work, history, hints, goal, t)
}

/// Is one of two terms a variable?
fn has_variable(work: &Work, history: &History, sides: Sides) -> bool
    requires left { IsTermIn history.now work.now sides.left }
    requires right { IsTermIn history.now work.now sides.right }
{
    let _ = history.len();
    is_variable(&work.bank, sides.left) || is_variable(&work.bank, sides.right)
}

/// The same, where one of the numbers is a variable.
fn equation_of_variable(
    work: &mut Work,
    history: &History,
    hints: &Hints,
    goal: &[TermId],
    sides: Sides,
) -> Result<Option<Fact>, Stop>
    requires stands { WorkStands history.now work.old }
    requires goal { All (IsTermIn history.now work.old) goal.now }
    requires left { IsTermIn history.now work.old sides.left }
    requires right { IsTermIn history.now work.old sides.right }
    ensures fact { IfOk result (λ found. IfSome found (FactHolds history.now work.new (terms_at work.new.bank goal.now))) }
    ensures grows { WorkGrows history.now work.old work.new }
    ensures out { result ≡ Err Stop.OutOfSteps → work.new.counter.used ≡ work.new.counter.limit }
{
    if has_variable(work, history, sides) {
        equation_of(work, history, hints, goal, sides)
    } else {
        Ok(None)
    }
}

/// The equation of the sides of a literal that says that one is not below the other.
fn equation_at(
    work: &mut Work,
    history: &History,
    hints: &Hints,
    goal: &[TermId],
    literal: TermId,
) -> Result<Option<Fact>, Stop>
    requires stands { WorkStands history.now work.old }
    requires goal { All (IsTermIn history.now work.old) goal.now }
    requires literal { IsTermIn history.now work.old literal }
    ensures fact { IfOk result (λ found. IfSome found (FactHolds history.now work.new (terms_at work.new.bank goal.now))) }
    ensures grows { WorkGrows history.now work.old work.new }
    ensures out { result ≡ Err Stop.OutOfSteps → work.new.counter.used ≡ work.new.counter.limit }
{
    match two_in(work, history, ground::LESSP, literal) {
        Some(sides) => equation_of_variable(work, history, hints, goal, sides),
        None => Ok(None),
    }
}

/// The elimination by the equation of the sides of a literal.
fn by_literal(
    work: &mut Work,
    history: &History,
    hints: &Hints,
    goal: &[TermId],
    literal: TermId,
) -> Result<Option<Elimination>, Stop>
    requires stands { WorkStands history.now work.old }
    requires goal { All (IsTermIn history.now work.old) goal.now }
    requires literal { IsTermIn history.now work.old literal }
    ensures way { IfOk result (λ found. IfSome found (IsEliminationWay history.now work.new goal.now)) }
    ensures grows { WorkGrows history.now work.old work.new }
    ensures out { result ≡ Err Stop.OutOfSteps → work.new.counter.used ≡ work.new.counter.limit }
{
    match equation_at(work, history, hints, goal, literal)? {
        Some(fact) => eliminate_by(work, history, hints, goal, fact),
        None => Ok(None),
    }
}

/// A number that is a variable gives way to one of which linear arithmetic shows that it is the same, where a literal of the goal
/// compares them.
pub fn equate_numbers(
    work: &mut Work,
    history: &History,
    hints: &Hints,
    goal: &[TermId],
) -> Result<Option<Elimination>, Stop>
    requires stands { WorkStands history.now work.old }
    requires goal { All (IsTermIn history.now work.old) goal.now }
    ensures way { IfOk result (λ found. IfSome found (IsEliminationWay history.now work.new goal.now)) }
    ensures grows { WorkGrows history.now work.old work.new }
    ensures out { result ≡ Err Stop.OutOfSteps → work.new.counter.used ≡ work.new.counter.limit }
{
    for literal in goal {
        if let Some(found) = by_literal(work, history, hints, goal, *literal)? {
            return Ok(Some(found));
        }
    }
    Ok(None)
}
