//! A value that is made of its parts, and rows of its shell at these parts.
ghost use Rattle.nq_kernel.specs.Growing.{WorkStands};
ghost use Rattle.nq_replay.specs.Uncounted.{GrowsUncounted};

use crate::bases::tested;
use crate::halt::Halt;
use crate::instances::{instance, instance_at};
use crate::reading::{argument, last_literal, literal_count};
use crate::rules::{cut, replace, shell_row};
use nq_bank::TermId;
use nq_history::History;
use nq_kernel::Work;
use nq_rule::Side;

/// The row that says that an object is made of its parts.
const REMADE_IS_SAME: u64 = 5;

/// A value that is made of its parts.
#[derive(Clone, Copy)]
pub struct Apart {
    /// The place of its shell.
    pub shell: usize,
    /// The value.
    pub whole: TermId,
    /// That it is the constructor's call of its parts.
    pub again: TermId,
    /// The line that it is, with the denials of the tests that say so.
    pub line: u64,
}

/// Adds the line that a value is made of its parts, is its shell's base, or is no such value.
fn remade_line(work: &mut Work, history: &History, shell: usize, whole: TermId) -> Result<u64, Halt>
    requires { WorkStands history.now work.old }
    ensures { GrowsUncounted history.now work.old work.new }
{
    let row = shell_row(work, history, shell, REMADE_IS_SAME, 0)?;
    let same = last_literal(work, row)?;
    let variable = argument(&work.bank, same, 1)?;
    instance(work, history, row, &[variable], &[whole])
}

/// Takes a value apart, under the tests that the wanted literals deny.
pub fn take_apart(
    work: &mut Work,
    history: &History,
    shell: usize,
    whole: TermId,
    wanted: &[TermId],
) -> Result<Apart, Halt>
    requires { WorkStands history.now work.old }
    ensures { GrowsUncounted history.now work.old work.new }
{
    let row = remade_line(work, history, shell, whole)?;
    let again = last_literal(work, row)?;
    let line = tested(work, history, row, again, wanted)?;
    Ok(Apart {
        shell,
        whole,
        again,
        line,
    })
}

/// Adds a row of the value's shell, with the parts of the value in the place of the parts.
pub fn row_at_parts(
    work: &mut Work,
    history: &History,
    apart: Apart,
    row: u64,
    part: u64,
) -> Result<u64, Halt>
    requires { WorkStands history.now work.old }
    ensures { GrowsUncounted history.now work.old work.new }
{
    let line = shell_row(work, history, apart.shell, row, part)?;
    let equation = last_literal(work, line)?;
    let taken = argument(&work.bank, equation, 0)?;
    let made = argument(&work.bank, taken, 0)?;
    let remade = argument(&work.bank, apart.again, 0)?;
    instance_at(work, history, line, made, remade)
}

/// Puts the value in the place of what is made of its parts, in the last literal of a line, which is an equation about that.
pub fn about_whole(work: &mut Work, history: &History, apart: Apart, line: u64) -> Result<u64, Halt>
    requires { WorkStands history.now work.old }
    ensures { GrowsUncounted history.now work.old work.new }
{
    let last = literal_count(work, line) as u64;
    let replaced = replace(
        work,
        history,
        line,
        last,
        &[1, 1],
        apart.whole,
        Side::Forwards,
    )?;
    cut(work, history, apart.line, replaced, apart.again)
}
