//! The line of an obligation that the axioms of shells show.
ghost use Rattle.std.specs.Prelude.{◌≡◌, All, IfOk, IfSome};
ghost use Rattle.nq_bank.specs.Content.{Stands, terms_at};
ghost use Rattle.nq_kernel.specs.Growing.{WorkStands};
ghost use Rattle.nq_lines.specs.Lines.{LineHasOnly};
ghost use Rattle.nq_replay.specs.Uncounted.{GrowsUncounted};

use crate::facts::{facts_of, restored, wanted_of};
use crate::halt::Halt;
use crate::instances::instance;
use crate::nests::nest_line;
use crate::reading::{argument, is_call, last_literal, literal_at};
use crate::rules::cut;
use nq_bank::{Bank, TermId, ground};
use nq_history::History;
use nq_kernel::Work;
use nq_lines::has_only;
use nq_replay::{size_is_ordinal, smaller_is_below};
use std::alloc::AllocError;

/// The size of the term of which a term tells the size.
fn sized(bank: &Bank, size: TermId) -> Result<TermId, Halt> {
    if is_call(bank, ground::COUNT, size) {
        argument(bank, size, 0)
    } else {
        Err(Halt::Stuck)
    }
}

/// Adds the line that the size of a term is an ordinal.
fn ordinal_line(work: &mut Work, history: &History, size: TermId) -> Result<u64, Halt>
    requires { WorkStands history.now work.old }
    ensures { GrowsUncounted history.now work.old work.new }
{
    let t = sized(&work.bank, size)?;
    let law = size_is_ordinal(work, history)?;
    let known = last_literal(work, law)?;
    let count = argument(&work.bank, known, 0)?;
    let variable = argument(&work.bank, count, 0)?;
    instance(work, history, law, &[variable], &[t])
}

/// Adds the line that what is smaller is below, for these terms.
fn below_law(work: &mut Work, history: &History, t: TermId, u: TermId) -> Result<u64, Halt>
    requires { WorkStands history.now work.old }
    ensures { GrowsUncounted history.now work.old work.new }
{
    let law = smaller_is_below(work, history)?;
    let below = last_literal(work, law)?;
    let small = argument(&work.bank, below, 0)?;
    let large = argument(&work.bank, below, 1)?;
    let x = argument(&work.bank, small, 0)?;
    let y = argument(&work.bank, large, 0)?;
    instance(work, history, law, &[x, y], &[t, u])
}

/// Adds the line that the size of a nest is below another size.
fn below_line(
    work: &mut Work,
    history: &History,
    small: TermId,
    large: TermId,
    wanted: &[TermId],
) -> Result<u64, Halt>
    requires { WorkStands history.now work.old }
    ensures { GrowsUncounted history.now work.old work.new }
{
    let t = sized(&work.bank, small)?;
    let u = sized(&work.bank, large)?;
    let reached = nest_line(work, history, t, u, wanted)?;
    let law = below_law(work, history, t, u)?;
    cut(work, history, reached.line, law, reached.descent.smaller)
}

/// Adds the line that the size of a nest is less than another size.
fn less_line(
    work: &mut Work,
    history: &History,
    small: TermId,
    large: TermId,
    wanted: &[TermId],
) -> Result<u64, Halt>
    requires { WorkStands history.now work.old }
    ensures { GrowsUncounted history.now work.old work.new }
{
    let t = sized(&work.bank, small)?;
    let u = sized(&work.bank, large)?;
    let reached = nest_line(work, history, t, u, wanted)?;
    Ok(reached.line)
}

/// Adds the line that a size is below another, in the order of ordinals or of numbers.
fn smaller_line(
    work: &mut Work,
    history: &History,
    goal: TermId,
    wanted: &[TermId],
) -> Result<u64, Halt>
    requires { WorkStands history.now work.old }
    ensures { GrowsUncounted history.now work.old work.new }
{
    let small = argument(&work.bank, goal, 0)?;
    let large = argument(&work.bank, goal, 1)?;
    if is_call(&work.bank, ground::ORD_LESSP, goal) {
        below_line(work, history, small, large, wanted)
    } else {
        less_line(work, history, small, large, wanted)
    }
}

/// Adds the line of a literal of a kind that is tried, with denials of tests.
fn line_of(work: &mut Work, history: &History, goal: TermId, wanted: &[TermId]) -> Result<u64, Halt>
    requires { WorkStands history.now work.old }
    ensures { GrowsUncounted history.now work.old work.new }
{
    if is_call(&work.bank, ground::ORDINALP, goal) {
        let size = argument(&work.bank, goal, 0)?;
        return ordinal_line(work, history, size);
    }
    smaller_line(work, history, goal, wanted)
}

/// Is a term the size of another?
fn is_size(bank: &Bank, t: TermId, place: usize) -> bool {
    match argument(bank, t, place) {
        Ok(size) => is_call(bank, ground::COUNT, size),
        Err(_) => false,
    }
}

/// Says a term that a size is below another?
fn is_smaller(bank: &Bank, t: TermId) -> bool {
    (is_call(bank, ground::ORD_LESSP, t) || is_call(bank, ground::LESSP, t))
        && is_size(bank, t, 0)
        && is_size(bank, t, 1)
}

/// Is a literal of a kind that is tried?
fn is_goal(bank: &Bank, t: TermId) -> bool {
    is_smaller(bank, t) || is_call(bank, ground::ORDINALP, t) && is_size(bank, t, 0)
}

/// The last literal that is of a kind that is tried.
fn goal_of(bank: &Bank, literals: &[TermId]) -> Result<TermId, Halt> {
    let mut found = Err(Halt::Stuck);
    for t in literals {
        if is_goal(bank, *t) {
            found = Ok(*t);
        }
    }
    found
}

/// Adds a line that may be the one of an obligation.
fn tried_line(work: &mut Work, history: &History, literals: &[TermId]) -> Result<u64, Halt>
    requires { WorkStands history.now work.old }
    ensures { GrowsUncounted history.now work.old work.new }
{
    let goal = goal_of(&work.bank, literals)?;
    let facts = facts_of(work, history, literals)?;
    let wanted = wanted_of(&work.bank, facts.as_slice())?;
    let line = line_of(work, history, goal, wanted.as_slice())?;
    restored(work, history, line, facts.as_slice())
}

/// The line of a clause that says that a size is an ordinal, or that the size of a nest of accessors is below that of the term
/// around which it stands, under tests that say at each level that the constructor made the term there. The last literal of this
/// kind is tried. There may be none. No step is counted.
pub fn descent_line(
    work: &mut Work,
    history: &History,
    literals: &[TermId],
) -> Result<Option<u64>, AllocError>
    requires stands { WorkStands history.now work.old }
    requires literals { All (Stands work.old.bank) literals.now }
    ensures line { IfOk result (λ found. IfSome found (λ n. LineHasOnly work.new n (terms_at work.old.bank literals.now))) }
    ensures grows { GrowsUncounted history.now work.old work.new }
{
    match tried_line(work, history, literals) {
        Ok(line) => {
            if has_only(work, history, line, literals) {
                Ok(Some(line))
            } else {
                Ok(None)
            }
        }
        Err(Halt::Stuck) => Ok(None),
        Err(Halt::Memory) => Err(AllocError),
    }
}
