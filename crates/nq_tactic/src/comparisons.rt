//! What linear arithmetic is told of the literals of a goal that deny that a comparison is T: where `(EQUAL (LESSP A B) T)` is assumed,
//! so is `(LESSP A B)`.
ghost use Rattle.std.specs.Prelude.{◌≡◌, All, IfOk, OnOk, Err};
ghost use Rattle.nq_bank.specs.Content.{Stands};
ghost use Rattle.nq_kernel.specs.Growing.{WorkGrows, WorkStands};
ghost use Rattle.nq_lines.specs.Facts.{IsEquation};
ghost use Rattle.nq_lines.specs.Lines.{IsTermIn};
ghost use Rattle.nq_instances.specs.Parts.{IsLine};

use crate::numbers::push;
use crate::reading::{denied_term, is_call_of};
use nq_bank::{Bank, TermId, ground};
use nq_history::History;
use nq_kernel::{Stop, Work};
use nq_lines::{Fact, Sides, from_equal_true, opposites, sides_of};

/// Are these the sides of the equation of a comparison and T?
fn is_truth_of_comparison(bank: &Bank, sides: Sides) -> bool
    requires left { Stands bank.now sides.left }
    requires right { Stands bank.now sides.right }
{
    is_call_of(bank, ground::LESSP, sides.left) && is_call_of(bank, ground::TRUE, sides.right)
}

/// The line of a comparison, where the equation of it with T is assumed.
fn comparison_fact(work: &mut Work, history: &History, e: TermId, p: TermId) -> Result<Fact, Stop>
    requires stands { WorkStands history.now work.old }
    requires equation { IsTermIn history.now work.old e }
    requires comparison { IsTermIn history.now work.old p }
    ensures fact { IfOk result (IsLine history.now work.new) }
    ensures grows { WorkGrows history.now work.old work.new }
    ensures out { result ≡ Err Stop.OutOfSteps → work.new.counter.used ≡ work.new.counter.limit }
{
    let law = opposites(work, history, e)?;
    let line = from_equal_true(work, history, p, law)?;
    Ok(Fact { term: p, line })
}

/// Adds the line of a comparison.
fn add_comparison(
    work: &mut Work,
    history: &History,
    facts: &mut Vec<Fact>,
    e: TermId,
    sides: Sides,
) -> Result<(), Stop>
    requires stands { WorkStands history.now work.old }
    requires facts { All (IsLine history.now work.old) facts.old.items }
    requires equation { IsTermIn history.now work.old e }
    requires sides { IsEquation history.now work.old e sides }
    ensures facts { OnOk result (All (IsLine history.now work.new) facts.new.items) }
    ensures grows { WorkGrows history.now work.old work.new }
    ensures out { result ≡ Err Stop.OutOfSteps → work.new.counter.used ≡ work.new.counter.limit }
{
    if is_truth_of_comparison(&work.bank, sides) {
        let fact = comparison_fact(work, history, e, sides.left)?;
        push(facts, fact)?;
        Ok(())
    } else {
        Ok(())
    }
}

/// The same, where an equation is assumed.
fn add_equation(
    work: &mut Work,
    history: &History,
    facts: &mut Vec<Fact>,
    e: TermId,
) -> Result<(), Stop>
    requires stands { WorkStands history.now work.old }
    requires facts { All (IsLine history.now work.old) facts.old.items }
    requires equation { IsTermIn history.now work.old e }
    ensures facts { OnOk result (All (IsLine history.now work.new) facts.new.items) }
    ensures grows { WorkGrows history.now work.old work.new }
    ensures out { result ≡ Err Stop.OutOfSteps → work.new.counter.used ≡ work.new.counter.limit }
{
    match sides_of(work, history, e) {
        Some(sides) => add_comparison(work, history, facts, e, sides),
        None => Ok(()),
    }
}

/// Adds the line of the comparison that a literal denies to be T, if it does.
pub fn add_compared(
    work: &mut Work,
    history: &History,
    facts: &mut Vec<Fact>,
    t: TermId,
) -> Result<(), Stop>
    requires stands { WorkStands history.now work.old }
    requires facts { All (IsLine history.now work.old) facts.old.items }
    requires term { IsTermIn history.now work.old t }
    ensures facts { OnOk result (All (IsLine history.now work.new) facts.new.items) }
    ensures grows { WorkGrows history.now work.old work.new }
    ensures out { result ≡ Err Stop.OutOfSteps → work.new.counter.used ≡ work.new.counter.limit }
{
    match denied_term(work, history, t) {
        Some(e) => add_equation(work, history, facts, e),
        None => Ok(()),
    }
}
