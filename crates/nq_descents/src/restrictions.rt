//! A part that is T or F because it does not meet its restriction meets it: the default of a part always does.
ghost use Rattle.nq_kernel.specs.Growing.{WorkStands};
ghost use Rattle.nq_replay.specs.Uncounted.{GrowsUncounted};

use crate::choices::{by_first, by_neither, by_second};
use crate::halt::Halt;
use crate::reading::{argument, depth_of, is_call, literal_at};
use crate::rules::ground_row;
use crate::truths::tested_part;
use nq_bank::{Bank, TermId, ground};
use nq_history::History;
use nq_kernel::Work;

/// Adds a term to others.
fn add_term(terms: &mut Vec<TermId>, t: TermId) -> Result<(), Halt> {
    match terms.push(t) {
        Ok(()) => Ok(()),
        Err(_) => Err(Halt::Memory),
    }
}

/// The choices within a nest of OR, the outermost first, and then its last test.
fn choices_of(bank: &Bank, nest: TermId) -> Result<Vec<TermId>, Halt> {
    let mut choices = Vec::new(bank.alloc());
    let mut here = nest;
    for _ in 0..depth_of(bank, nest) {
        add_term(&mut choices, here)?;
        if !is_call(bank, ground::OR, here) {
            return Ok(choices);
        }
        here = argument(bank, here, 1)?;
    }
    Err(Halt::Stuck)
}

/// The first test of a choice, or the last test of all.
fn first_test(bank: &Bank, choice: TermId) -> Result<TermId, Halt> {
    if is_call(bank, ground::OR, choice) {
        argument(bank, choice, 0)
    } else {
        Ok(choice)
    }
}

/// Adds a line of the first test of a choice at a part, or of its NOT.
fn first_tested(
    work: &mut Work,
    history: &History,
    choice: TermId,
    part: TermId,
    constant: TermId,
) -> Result<u64, Halt>
    requires { WorkStands history.now work.old }
    ensures { GrowsUncounted history.now work.old work.new }
{
    let test = first_test(&work.bank, choice)?;
    tested_part(work, history, test, part, constant)
}

/// Does a line deny?
fn is_denial(work: &Work, line: u64) -> bool {
    match literal_at(work, line, 0) {
        Ok(literal) => is_call(&work.bank, ground::NOT, literal),
        Err(_) => false,
    }
}

/// Adds the line of a choice, or of its NOT, from those of its first test and of its second part, each of which is denied or not.
fn one_more(
    work: &mut Work,
    history: &History,
    choice: TermId,
    first: u64,
    is_first_denied: bool,
    second: u64,
    is_second_denied: bool,
) -> Result<u64, Halt>
    requires { WorkStands history.now work.old }
    ensures { GrowsUncounted history.now work.old work.new }
{
    if !is_call(&work.bank, ground::OR, choice) {
        return Ok(first);
    }
    if !is_first_denied {
        return by_first(work, history, choice, first);
    }
    if is_second_denied {
        by_neither(work, history, choice, first, second)
    } else {
        by_second(work, history, choice, second)
    }
}

/// Are both so?
fn are_both(left: bool, right: bool) -> bool {
    left && right
}

/// Adds the line of a nest of OR of tests at a part, or of its NOT, and the denial that the part is the constant.
fn nest_tested(
    work: &mut Work,
    history: &History,
    nest: TermId,
    part: TermId,
    constant: TermId,
) -> Result<u64, Halt>
    requires { WorkStands history.now work.old }
    ensures { GrowsUncounted history.now work.old work.new }
{
    let choices = choices_of(&work.bank, nest)?;
    let mut line = ground_row(work, history, ground::TRUE, 1)?;
    let mut is_denied = true;
    for k in 0..choices.len() {
        let choice = choices[choices.len() - 1 - k];
        let first = first_tested(work, history, choice, part, constant)?;
        let is_here_denied = is_denial(work, first);
        line = one_more(
            work,
            history,
            choice,
            first,
            is_here_denied,
            line,
            is_denied,
        )?;
        is_denied = are_both(is_denied, is_here_denied);
    }
    Ok(line)
}

/// The nest of a restriction that is one of tests, or the NOT of one.
fn nest_of(bank: &Bank, restriction: TermId) -> Result<TermId, Halt> {
    if is_call(bank, ground::NOT, restriction) {
        argument(bank, restriction, 0)
    } else {
        Ok(restriction)
    }
}

/// Adds the line of a restriction of a part, and the denial that the part is its default, which is T or F.
pub fn restriction_met(
    work: &mut Work,
    history: &History,
    restriction: TermId,
    part: TermId,
    constant: TermId,
) -> Result<u64, Halt>
    requires { WorkStands history.now work.old }
    ensures { GrowsUncounted history.now work.old work.new }
{
    let nest = nest_of(&work.bank, restriction)?;
    nest_tested(work, history, nest, part, constant)
}
