//! A choice of which one part is shown, and one of which each part is denied.
ghost use Rattle.std.specs.Prelude.{[], IsSome};
ghost use Rattle.nq_kernel.specs.Growing.{WorkStands};
ghost use Rattle.nq_replay.specs.Replaying.{law_clause};
ghost use Rattle.nq_replay.specs.Uncounted.{GrowsUncounted};

use crate::halt::Halt;
use crate::instances::instance_at;
use crate::reading::{argument, last_literal};
use crate::rules::cut;
use crate::tables::first_of_choice::FIRST_OF_CHOICE;
use crate::tables::second_of_choice::SECOND_OF_CHOICE;
use nq_bank::TermId;
use nq_history::History;
use nq_kernel::Work;
use nq_replay::{Law, choice_opens, first_of_pair, replay, second_of_pair};

/// The table of `(NOT X)`, `(OR X Y)`.
fn first_of_choice() -> Law
    ensures { IsSome (law_clause result []) }
{
    FIRST_OF_CHOICE
}

/// The table of `(NOT Y)`, `(OR X Y)`.
fn second_of_choice() -> Law
    ensures { IsSome (law_clause result []) }
{
    SECOND_OF_CHOICE
}

/// Adds the line of the first law.
fn first_line(work: &mut Work, history: &History) -> Result<u64, Halt>
    requires { WorkStands history.now work.old }
    ensures { GrowsUncounted history.now work.old work.new }
{
    let law = first_of_choice();
    let line = replay(work, history, law, &[])?;
    Ok(line)
}

/// Adds the line of the second law.
fn second_line(work: &mut Work, history: &History) -> Result<u64, Halt>
    requires { WorkStands history.now work.old }
    ensures { GrowsUncounted history.now work.old work.new }
{
    let law = second_of_choice();
    let line = replay(work, history, law, &[])?;
    Ok(line)
}

/// Adds the law that opens a choice.
fn opening_line(work: &mut Work, history: &History) -> Result<u64, Halt>
    requires { WorkStands history.now work.old }
    ensures { GrowsUncounted history.now work.old work.new }
{
    let line = choice_opens(work, history)?;
    Ok(line)
}

/// Adds a line with a choice for its first part.
pub fn by_first(work: &mut Work, history: &History, choice: TermId, line: u64) -> Result<u64, Halt>
    requires { WorkStands history.now work.old }
    ensures { GrowsUncounted history.now work.old work.new }
{
    let part = argument(&work.bank, choice, 0)?;
    let law = first_line(work, history)?;
    let pattern = last_literal(work, law)?;
    let here = instance_at(work, history, law, pattern, choice)?;
    cut(work, history, line, here, part)
}

/// Adds a line with a choice for its second part.
pub fn by_second(work: &mut Work, history: &History, choice: TermId, line: u64) -> Result<u64, Halt>
    requires { WorkStands history.now work.old }
    ensures { GrowsUncounted history.now work.old work.new }
{
    let part = argument(&work.bank, choice, 1)?;
    let law = second_line(work, history)?;
    let pattern = last_literal(work, law)?;
    let here = instance_at(work, history, law, pattern, choice)?;
    cut(work, history, line, here, part)
}

/// Adds a line with the NOT of a choice, from lines with the NOTs of its parts.
pub fn by_neither(
    work: &mut Work,
    history: &History,
    choice: TermId,
    first: u64,
    second: u64,
) -> Result<u64, Halt>
    requires { WorkStands history.now work.old }
    ensures { GrowsUncounted history.now work.old work.new }
{
    let one = argument(&work.bank, choice, 0)?;
    let other = argument(&work.bank, choice, 1)?;
    let law = opening_line(work, history)?;
    let denied = last_literal(work, law)?;
    let pattern = argument(&work.bank, denied, 0)?;
    let here = instance_at(work, history, law, pattern, choice)?;
    let rest = cut(work, history, here, first, one)?;
    cut(work, history, rest, second, other)
}

/// Adds a line with the NOT of a pair for that of its first part.
pub fn by_first_of_pair(
    work: &mut Work,
    history: &History,
    pair: TermId,
    line: u64,
) -> Result<u64, Halt>
    requires { WorkStands history.now work.old }
    ensures { GrowsUncounted history.now work.old work.new }
{
    let part = argument(&work.bank, pair, 0)?;
    let law = first_of_pair(work, history)?;
    let denied = last_literal(work, law)?;
    let pattern = argument(&work.bank, denied, 0)?;
    let here = instance_at(work, history, law, pattern, pair)?;
    cut(work, history, here, line, part)
}

/// Adds a line with the NOT of a pair for that of its second part.
pub fn by_second_of_pair(
    work: &mut Work,
    history: &History,
    pair: TermId,
    line: u64,
) -> Result<u64, Halt>
    requires { WorkStands history.now work.old }
    ensures { GrowsUncounted history.now work.old work.new }
{
    let part = argument(&work.bank, pair, 1)?;
    let law = second_of_pair(work, history)?;
    let denied = last_literal(work, law)?;
    let pattern = argument(&work.bank, denied, 0)?;
    let here = instance_at(work, history, law, pattern, pair)?;
    cut(work, history, here, line, part)
}
