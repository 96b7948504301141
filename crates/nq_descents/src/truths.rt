//! The recognizers of a part that is T or F: each is true of it or not, by the shell's axioms or by the table of values.
ghost use Rattle.nq_kernel.specs.Growing.{WorkStands};
ghost use Rattle.nq_replay.specs.Uncounted.{GrowsUncounted};

use crate::halt::Halt;
use crate::making::call_at;
use crate::reading::{argument, function_of, is_call, last_literal};
use crate::rules::{cut, ground_row, replace, shell_row, value};
use crate::shells::shell_of_recognizer;
use nq_bank::{Bank, TermId, ground};
use nq_history::History;
use nq_kernel::Work;
use nq_rule::Side;

/// The rows that say that T, and F, are no objects of a shell.
const TRUTH_IS_NONE: u64 = 11;

const FALSITY_IS_NONE: u64 = 12;

/// Adds the line of a call that has the value T, by the equation that says so.
fn shown(work: &mut Work, history: &History, test: TermId, line: u64) -> Result<u64, Halt>
    requires { WorkStands history.now work.old }
    ensures { GrowsUncounted history.now work.old work.new }
{
    let equation = last_literal(work, line)?;
    let row = ground_row(work, history, ground::TRUE, 1)?;
    let moved = replace(work, history, row, 1, &[], test, Side::Backwards)?;
    cut(work, history, line, moved, equation)
}

/// Adds the line of the NOT of a call that has the value F, by the equation that says so.
fn denied(work: &mut Work, history: &History, test: TermId, line: u64) -> Result<u64, Halt>
    requires { WorkStands history.now work.old }
    ensures { GrowsUncounted history.now work.old work.new }
{
    let equation = last_literal(work, line)?;
    let row = ground_row(work, history, ground::FALSE, 1)?;
    let moved = replace(work, history, row, 1, &[1], test, Side::Backwards)?;
    cut(work, history, line, moved, equation)
}

/// Has a line the equation of a call and T?
fn is_truth(work: &Work, line: u64) -> bool {
    match last_literal(work, line) {
        Ok(equation) => match argument(&work.bank, equation, 1) {
            Ok(v) => is_call(&work.bank, ground::TRUE, v),
            Err(_) => false,
        },
        Err(_) => false,
    }
}

/// Adds the line of a test of T or of F that the table of values decides, or of its NOT.
fn valued(work: &mut Work, history: &History, test: TermId) -> Result<u64, Halt>
    requires { WorkStands history.now work.old }
    ensures { GrowsUncounted history.now work.old work.new }
{
    let line = value(work, history, test)?;
    if is_truth(work, line) {
        shown(work, history, test, line)
    } else {
        denied(work, history, test, line)
    }
}

/// The shell of whose recognizer a test is a call.
fn shell_of_test(bank: &Bank, history: &History, test: TermId) -> Option<usize> {
    match function_of(bank, test) {
        Some(f) => shell_of_recognizer(history, f),
        None => None,
    }
}

/// The row that says of T, or of F, that it is no object of a shell.
fn row_of(bank: &Bank, constant: TermId) -> u64 {
    if is_call(bank, ground::TRUE, constant) {
        TRUTH_IS_NONE
    } else {
        FALSITY_IS_NONE
    }
}

/// Adds the line of a test of T or of F, or of its NOT.
fn decided(work: &mut Work, history: &History, test: TermId, constant: TermId) -> Result<u64, Halt>
    requires { WorkStands history.now work.old }
    ensures { GrowsUncounted history.now work.old work.new }
{
    match shell_of_test(&work.bank, history, test) {
        Some(shell) => {
            let row = row_of(&work.bank, constant);
            shell_row(work, history, shell, row, 0)
        }
        None => valued(work, history, test),
    }
}

/// Puts a part in the place of the constant in a line of a test, or of its NOT.
fn about_part(work: &mut Work, history: &History, line: u64, part: TermId) -> Result<u64, Halt>
    requires { WorkStands history.now work.old }
    ensures { GrowsUncounted history.now work.old work.new }
{
    let literal = last_literal(work, line)?;
    if is_call(&work.bank, ground::NOT, literal) {
        replace(work, history, line, 1, &[1, 1], part, Side::Backwards)
    } else {
        replace(work, history, line, 1, &[1], part, Side::Backwards)
    }
}

/// Adds the line of a test of a part, or of its NOT, and the denial that the part is the constant.
pub fn tested_part(
    work: &mut Work,
    history: &History,
    test: TermId,
    part: TermId,
    constant: TermId,
) -> Result<u64, Halt>
    requires { WorkStands history.now work.old }
    ensures { GrowsUncounted history.now work.old work.new }
{
    let there = call_at(work, history, test, constant)?;
    let line = decided(work, history, there, constant)?;
    about_part(work, history, line, part)
}
