//! Nests of accessors: the lines of their levels, joined.
ghost use Rattle.nq_kernel.specs.Growing.{WorkStands};
ghost use Rattle.nq_replay.specs.Uncounted.{GrowsUncounted};

use crate::halt::Halt;
use crate::making::deny;
use crate::parts::{Level, part_line};
use crate::reading::{argument, depth_of, function_of};
use crate::rules::{cut, sum};
use crate::shells::{PartPlace, part_place};
use crate::sizes::{Descent, descent_of};
use nq_bank::{Bank, TermId};
use nq_history::History;
use nq_kernel::Work;

/// The part that a call of an accessor takes.
fn outermost(bank: &Bank, history: &History, t: TermId) -> Result<PartPlace, Halt> {
    match function_of(bank, t) {
        Some(f) => match part_place(history, f) {
            Some(place) => Ok(place),
            None => Err(Halt::Stuck),
        },
        None => Err(Halt::Stuck),
    }
}

/// Adds the line that a call of an accessor is smaller than its argument.
fn level_of(work: &mut Work, history: &History, t: TermId, wanted: &[TermId]) -> Result<Level, Halt>
    requires { WorkStands history.now work.old }
    ensures { GrowsUncounted history.now work.old work.new }
{
    let place = outermost(&work.bank, history, t)?;
    let whole = argument(&work.bank, t, 0)?;
    part_line(work, history, place, whole, wanted)
}

/// Adds the line that t is smaller than what the second of two levels ends at.
fn join(
    work: &mut Work,
    history: &History,
    t: TermId,
    first: Level,
    second: Level,
) -> Result<Level, Halt>
    requires { WorkStands history.now work.old }
    ensures { GrowsUncounted history.now work.old work.new }
{
    let end = argument(&work.bank, second.descent.large, 0)?;
    let descent = descent_of(work, history, t, end)?;
    let law = chain_line(work, history, descent, first.descent, second.descent)?;
    let rest = cut(work, history, first.line, law, first.descent.smaller)?;
    let line = cut(work, history, second.line, rest, second.descent.smaller)?;
    Ok(Level { descent, line })
}

/// Adds the line that one descent follows from two.
fn chain_line(
    work: &mut Work,
    history: &History,
    descent: Descent,
    first: Descent,
    second: Descent,
) -> Result<u64, Halt>
    requires { WorkStands history.now work.old }
    ensures { GrowsUncounted history.now work.old work.new }
{
    let one = deny(work, history, first.smaller)?;
    let two = deny(work, history, second.smaller)?;
    sum(work, history, descent.smaller, one, two, true)
}

/// Goes one level further into the nest t, at the term where the levels so far end.
fn further(
    work: &mut Work,
    history: &History,
    t: TermId,
    reached: Level,
    inner: TermId,
    wanted: &[TermId],
) -> Result<Level, Halt>
    requires { WorkStands history.now work.old }
    ensures { GrowsUncounted history.now work.old work.new }
{
    let next = level_of(work, history, inner, wanted)?;
    join(work, history, t, reached, next)
}

/// Adds a term to others.
fn add_term(terms: &mut Vec<TermId>, t: TermId) -> Result<(), Halt> {
    match terms.push(t) {
        Ok(()) => Ok(()),
        Err(_) => Err(Halt::Memory),
    }
}

/// The terms within t at which its levels end, but for the last, which is this one.
fn inner_terms(bank: &Bank, t: TermId, end: TermId) -> Result<Vec<TermId>, Halt> {
    let mut inner = Vec::new(bank.alloc());
    let mut here = argument(bank, t, 0)?;
    for _ in 1..depth_of(bank, t) {
        if here.0 == end.0 {
            return Ok(inner);
        }
        add_term(&mut inner, here)?;
        here = argument(bank, here, 0)?;
    }
    Err(Halt::Stuck)
}

/// Adds the line that t, which is a nest around a term, is smaller than that.
pub fn nest_line(
    work: &mut Work,
    history: &History,
    t: TermId,
    end: TermId,
    wanted: &[TermId],
) -> Result<Level, Halt>
    requires { WorkStands history.now work.old }
    ensures { GrowsUncounted history.now work.old work.new }
{
    let inner = inner_terms(&work.bank, t, end)?;
    let mut reached = level_of(work, history, t, wanted)?;
    for u in inner.as_slice() {
        reached = further(work, history, t, reached, *u, wanted)?;
    }
    Ok(reached)
}
