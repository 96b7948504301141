//! Tests that say that a value is no base, in the spelling that is wanted.
ghost use Rattle.nq_kernel.specs.Growing.{WorkStands};
ghost use Rattle.nq_replay.specs.Uncounted.{GrowsUncounted};

use crate::halt::Halt;
use crate::making::{deny, deny_twice, equate};
use crate::reading::{argument, literal_at, literal_count};
use crate::rules::{cut, opposites, reflexive, replace};
use nq_bank::TermId;
use nq_history::History;
use nq_kernel::Work;
use nq_lines::has_id;
use nq_rule::Side;

/// Adds a line with `(NOT (NOT t))` for t.
pub fn denied_twice(work: &mut Work, history: &History, line: u64, t: TermId) -> Result<u64, Halt>
    requires { WorkStands history.now work.old }
    ensures { GrowsUncounted history.now work.old work.new }
{
    let denied = deny(work, history, t)?;
    let either = opposites(work, history, denied)?;
    cut(work, history, line, either, t)
}

/// Adds a line with `(EQUAL b a)` for `(EQUAL a b)`.
fn turned(work: &mut Work, history: &History, line: u64, equation: TermId) -> Result<u64, Halt>
    requires { WorkStands history.now work.old }
    ensures { GrowsUncounted history.now work.old work.new }
{
    let left = argument(&work.bank, equation, 0)?;
    let right = argument(&work.bank, equation, 1)?;
    let same = reflexive(work, history, right)?;
    let other = replace(work, history, same, 1, &[2], left, Side::Backwards)?;
    cut(work, history, line, other, equation)
}

/// Makes the equation with its sides exchanged.
fn turned_term(work: &mut Work, history: &History, equation: TermId) -> Result<TermId, Halt>
    requires { WorkStands history.now work.old }
    ensures { GrowsUncounted history.now work.old work.new }
{
    let left = argument(&work.bank, equation, 0)?;
    let right = argument(&work.bank, equation, 1)?;
    equate(work, history, right, left)
}

/// Adds a line with the equation in its other order for an equation, or with the NOT of its NOT, as it is wanted.
fn tested_turned(
    work: &mut Work,
    history: &History,
    line: u64,
    equation: TermId,
    wanted: &[TermId],
) -> Result<u64, Halt>
    requires { WorkStands history.now work.old }
    ensures { GrowsUncounted history.now work.old work.new }
{
    let line = turned(work, history, line, equation)?;
    let other = turned_term(work, history, equation)?;
    if has_id(wanted, other) {
        return Ok(line);
    }
    denied_twice(work, history, line, other)
}

/// Adds a line with the denial of the test that denies an equation for the equation, in the order that is wanted. Where the
/// equation is wanted the line stays.
fn tested_equation(
    work: &mut Work,
    history: &History,
    line: u64,
    equation: TermId,
    wanted: &[TermId],
) -> Result<u64, Halt>
    requires { WorkStands history.now work.old }
    ensures { GrowsUncounted history.now work.old work.new }
{
    if has_id(wanted, equation) {
        return Ok(line);
    }
    let plain = deny_twice(work, history, equation)?;
    if has_id(wanted, plain) {
        denied_twice(work, history, line, equation)
    } else {
        tested_turned(work, history, line, equation, wanted)
    }
}

/// Has a line of row 5 no equation with a base?
fn is_short(work: &Work, line: u64) -> bool {
    literal_count(work, line) < 3
}

/// Are the literals of a line wanted, but for this one?
fn is_tested(work: &Work, line: u64, kept: TermId, wanted: &[TermId]) -> bool {
    match work.log.cited(line) {
        Some(literals) => literals.iter().all(|t| t.0 == kept.0 || has_id(wanted, *t)),
        None => false,
    }
}

/// Adds a line of row 5 with the denial of a test for the equation of the value and the base, if the shell has one. It ends where
/// another literal is left than this one and those that are wanted.
pub fn tested(
    work: &mut Work,
    history: &History,
    line: u64,
    kept: TermId,
    wanted: &[TermId],
) -> Result<u64, Halt>
    requires { WorkStands history.now work.old }
    ensures { GrowsUncounted history.now work.old work.new }
{
    let line = tested_base(work, history, line, wanted)?;
    if is_tested(work, line, kept, wanted) {
        Ok(line)
    } else {
        Err(Halt::Stuck)
    }
}

/// The same, whatever literals are left.
fn tested_base(
    work: &mut Work,
    history: &History,
    line: u64,
    wanted: &[TermId],
) -> Result<u64, Halt>
    requires { WorkStands history.now work.old }
    ensures { GrowsUncounted history.now work.old work.new }
{
    if is_short(work, line) {
        return Ok(line);
    }
    let equation = literal_at(work, line, 1)?;
    tested_equation(work, history, line, equation, wanted)
}
