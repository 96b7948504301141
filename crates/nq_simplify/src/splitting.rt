//! A goal split on the test of an IF in one of its literals.
ghost use Rattle.std.specs.Prelude.{◌≡◌, ◌<◌, IfOk, OnOk, Err, length, get_or};
ghost use Rattle.nq_bank.specs.Content.{terms_at};
ghost use Rattle.nq_kernel.specs.Growing.{WorkStands, WorkGrows};
ghost use Rattle.nq_lines.specs.Lines.{IsTermIn};
ghost use Rattle.nq_cases.specs.Counts.{HasCounts};
ghost use Rattle.nq_simplify.specs.BranchRows.{RowsStand};
ghost use Rattle.nq_simplify.specs.Simplified.{AreTermsIn, BasisStands, IsOutcome, IsDivided};
ghost use Rattle.nq_simplify.specs.Splitting.{IsChoiceIn, RowsShow, LinesShow};

use crate::basis::Basis;
use crate::choosing::choose_in;
use crate::inside::equation_inside;
use crate::placing::in_place;
use crate::rows::{IfRows, add_row_at};
use crate::steps::{Outcome, Split, Turn};
use nq_bank::TermId;
use nq_cases::Choice;
use nq_history::History;
use nq_kernel::{Stop, Work};
use nq_lines::deny;
use std::collections::HashMap;

/// Two lines, for a test that is true and for one that is false.
#[derive(Clone, Copy)]
pub struct Sides {
    /// The line for a test that is true.
    pub first: u64,
    /// The line for a test that is false.
    pub second: u64,
}

/// Adds the lines that say which branch an IF is equal to.
fn add_rows(
    work: &mut Work,
    history: &History,
    rows: &IfRows,
    choice: &Choice,
    t: TermId,
) -> Result<Sides, Stop>
    requires stands { WorkStands history.now work.old }
    requires rows { RowsStand work.old rows.now }
    requires choice { IsChoiceIn history.now work.old t choice.now }
    ensures rows { IfOk result (λ s. RowsShow work.new choice.now s.first s.second) }
    ensures grows { WorkGrows history.now work.old work.new }
    ensures out { result ≡ Err Stop.OutOfSteps → work.new.counter.used ≡ work.new.counter.limit }
{
    let first = add_row_at(
        work,
        history,
        rows.first,
        rows.names,
        true,
        choice.test,
        choice.first_branch,
        choice.second_branch,
    )?;
    let second = add_row_at(
        work,
        history,
        rows.second,
        rows.names,
        false,
        choice.test,
        choice.first_branch,
        choice.second_branch,
    )?;
    Ok(Sides { first, second })
}

/// Adds the lines that say which choice a literal is equal to, on each side of the test.
fn add_sides(
    work: &mut Work,
    history: &History,
    t: TermId,
    choice: &Choice,
    rows: Sides,
) -> Result<Sides, Stop>
    requires stands { WorkStands history.now work.old }
    requires term { IsTermIn history.now work.old t }
    requires choice { IsChoiceIn history.now work.old t choice.now }
    requires rows { RowsShow work.old choice.now rows.first rows.second }
    ensures sides { IfOk result (λ s. LinesShow work.new t choice.now s.first s.second) }
    ensures grows { WorkGrows history.now work.old work.new }
    ensures out { result ≡ Err Stop.OutOfSteps → work.new.counter.used ≡ work.new.counter.limit }
{
    let first = equation_inside(
        work,
        history,
        t,
        choice.path.as_slice(),
        choice.whole,
        choice.first_branch,
        rows.first,
    )?;
    let second = equation_inside(
        work,
        history,
        t,
        choice.path.as_slice(),
        choice.whole,
        choice.second_branch,
        rows.second,
    )?;
    Ok(Sides { first, second })
}

/// The split of a goal by a choice of the literal at an index: beside the test, the literal is its second choice, and beside
/// the NOT of the test its first.
fn split_by(
    work: &mut Work,
    history: &History,
    basis: &Basis,
    goal: &[TermId],
    at: usize,
    choice: &Choice,
) -> Result<Split, Stop>
    requires stands { WorkStands history.now work.old }
    requires basis { BasisStands history.now work.old basis.now }
    requires goal { AreTermsIn history.now work.old goal.now }
    requires at { at < length goal.now }
    requires choice { IsChoiceIn history.now work.old (get_or goal.now at (record { 0 = 0 })) choice.now }
    ensures split { IfOk result (λ s. IsDivided history.now work.new (terms_at work.old.bank goal.now) s) }
    ensures grows { WorkGrows history.now work.old work.new }
    ensures out { result ≡ Err Stop.OutOfSteps → work.new.counter.used ≡ work.new.counter.limit }
{
    let t = goal[at];
    let rows = add_rows(work, history, &basis.rows, choice, t)?;
    let sides = add_sides(work, history, t, choice, rows)?;
    let denial = deny(work, history, choice.test)?;
    let second = in_place(work.bank.alloc(), goal, at, &[choice.test, choice.second])?;
    let first = in_place(work.bank.alloc(), goal, at, &[denial, choice.first])?;
    Ok(Split {
        test: choice.test,
        with_test: Turn {
            old: t,
            new: choice.second,
            line: sides.second,
            next: second,
        },
        without_test: Turn {
            old: t,
            new: choice.first,
            line: sides.first,
            next: first,
        },
    })
}

/// Splits a goal on an IF of the literal at an index, where it has one.
fn split_at(
    work: &mut Work,
    history: &History,
    basis: &Basis,
    known: &mut HashMap<u64, u128>,
    goal: &[TermId],
    at: usize,
) -> Result<Outcome, Stop>
    requires stands { WorkStands history.now work.old }
    requires basis { BasisStands history.now work.old basis.now }
    requires counts { HasCounts work.old.bank 2 known.old }
    requires goal { AreTermsIn history.now work.old goal.now }
    requires at { at < length goal.now }
    ensures outcome { IfOk result (λ o. IsOutcome history.now work.new (terms_at work.old.bank goal.now) o) }
    ensures counts { OnOk result (HasCounts work.new.bank 2 known.new) }
    ensures grows { WorkGrows history.now work.old work.new }
    ensures out { result ≡ Err Stop.OutOfSteps → work.new.counter.used ≡ work.new.counter.limit }
{
    let t = goal[at];
    let found = choose_in(work, history, known, t)?;
    match found {
        Some(choice) => {
            let split = split_by(work, history, basis, goal, at, &choice)?;
            Ok(Outcome::Divided(split))
        }
        None => Ok(Outcome::Same),
    }
}

/// Splits a goal on an IF of the literal at a place, where it has one. What is left of the literal stands then at the next place.
pub fn split_here(
    work: &mut Work,
    history: &History,
    basis: &Basis,
    goal: &[TermId],
    place: &mut usize,
) -> Result<Outcome, Stop>
    requires stands { WorkStands history.now work.old }
    requires basis { BasisStands history.now work.old basis.now }
    requires goal { AreTermsIn history.now work.old goal.now }
    ensures outcome { IfOk result (λ o. IsOutcome history.now work.new (terms_at work.old.bank goal.now) o) }
    ensures grows { WorkGrows history.now work.old work.new }
    ensures out { result ≡ Err Stop.OutOfSteps → work.new.counter.used ≡ work.new.counter.limit }
{
    let at = *place;
    if at >= goal.len() {
        return Ok(Outcome::Same);
    }
    let mut known = HashMap::new(work.bank.alloc());
    let here = split_at(work, history, basis, &mut known, goal, at)?;
    if !here.is_same() {
        *place = at + 1;
    }
    Ok(here)
}
