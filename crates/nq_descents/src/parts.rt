//! A part of a value is smaller than the value: where it meets its restriction, since its size is one of those that are added,
//! and where it does not, since it is a base, whose size is 0.
ghost use Rattle.nq_kernel.specs.Growing.{WorkStands};
ghost use Rattle.nq_replay.specs.Uncounted.{GrowsUncounted};

use crate::apart::{Apart, about_whole, row_at_parts, take_apart};
use crate::halt::Halt;
use crate::instances::instance_at;
use crate::making::{call, deny};
use crate::reading::{argument, is_call, last_literal, literal_at};
use crate::restrictions::restriction_met;
use crate::rules::{cut, ground_row, replace, shell_row, sum};
use crate::shells::PartPlace;
use crate::sizes::{Descent, Size, descent_of, size_of};
use nq_bank::{TermId, ground};
use nq_history::History;
use nq_kernel::Work;
use nq_rule::Side;

/// The row that says that a part which does not meet its restriction is the default.
const WRONG_PART_OF_MADE: u64 = 7;

/// The row that tells the size of a base.
const SIZE_OF_BASE: u64 = 15;

/// The row of IF that says that it is its first branch where its test is true.
const FIRST_BRANCH: u64 = 2;

/// A part of a value.
#[derive(Clone, Copy)]
struct Piece {
    /// The value.
    whole: TermId,
    /// The part.
    part: TermId,
    /// That it meets its restriction.
    allowed: TermId,
    /// That it is the default.
    defaulted: TermId,
    /// The line that one of these is so, with the denials of tests.
    line: u64,
}

/// Takes a part of a value.
fn take_piece(work: &mut Work, history: &History, apart: Apart, part: u64) -> Result<Piece, Halt>
    requires { WorkStands history.now work.old }
    ensures { GrowsUncounted history.now work.old work.new }
{
    let row = row_at_parts(work, history, apart, WRONG_PART_OF_MADE, part)?;
    let allowed = literal_at(work, row, 0)?;
    let line = about_whole(work, history, apart, row)?;
    let defaulted = last_literal(work, line)?;
    let part = argument(&work.bank, defaulted, 0)?;
    Ok(Piece {
        whole: apart.whole,
        part,
        allowed,
        defaulted,
        line,
    })
}

/// Adds the line that what is added for a part that meets its restriction is the part's size.
fn added_line(
    work: &mut Work,
    history: &History,
    allowed: TermId,
    size: TermId,
) -> Result<u64, Halt>
    requires { WorkStands history.now work.old }
    ensures { GrowsUncounted history.now work.old work.new }
{
    let zero = call(work, history, ground::ZERO, &[])?;
    let added = call(work, history, ground::IF, &[allowed, size, zero])?;
    let row = ground_row(work, history, ground::IF, FIRST_BRANCH)?;
    let equation = last_literal(work, row)?;
    let pattern = argument(&work.bank, equation, 0)?;
    instance_at(work, history, row, pattern, added)
}

/// Adds the line that a part which meets its restriction is smaller.
fn allowed_line(
    work: &mut Work,
    history: &History,
    piece: Piece,
    size: Size,
    descent: Descent,
) -> Result<u64, Halt>
    requires { WorkStands history.now work.old }
    ensures { GrowsUncounted history.now work.old work.new }
{
    let added = added_line(work, history, piece.allowed, descent.small)?;
    let equation = last_literal(work, added)?;
    let denied = deny(work, history, equation)?;
    let below = sum(work, history, descent.smaller, size.denied, denied, true)?;
    let line = cut(work, history, added, below, equation)?;
    cut(work, history, size.line, line, size.equation)
}

/// Adds the line that the default is smaller, where it is the base of the shell at a place.
fn base_line(
    work: &mut Work,
    history: &History,
    shell: usize,
    piece: Piece,
    size: Size,
) -> Result<u64, Halt>
    requires { WorkStands history.now work.old }
    ensures { GrowsUncounted history.now work.old work.new }
{
    let row = shell_row(work, history, shell, SIZE_OF_BASE, 0)?;
    let equation = last_literal(work, row)?;
    let denied = deny(work, history, equation)?;
    let default = argument(&work.bank, piece.defaulted, 1)?;
    let descent = descent_of(work, history, default, piece.whole)?;
    let below = sum(work, history, descent.smaller, size.denied, denied, false)?;
    cut(work, history, row, below, equation)
}

/// Adds the line that a part which does not meet its restriction is smaller.
fn defaulted_line(
    work: &mut Work,
    history: &History,
    shell: usize,
    piece: Piece,
    size: Size,
) -> Result<u64, Halt>
    requires { WorkStands history.now work.old }
    ensures { GrowsUncounted history.now work.old work.new }
{
    let base = base_line(work, history, shell, piece, size)?;
    let moved = replace(work, history, base, 1, &[1, 1], piece.part, Side::Backwards)?;
    let line = cut(work, history, piece.line, moved, piece.defaulted)?;
    cut(work, history, size.line, line, size.equation)
}

/// Adds the line that a part whose default is T or F meets its restriction.
fn met_line(work: &mut Work, history: &History, piece: Piece) -> Result<u64, Halt>
    requires { WorkStands history.now work.old }
    ensures { GrowsUncounted history.now work.old work.new }
{
    let constant = argument(&work.bank, piece.defaulted, 1)?;
    let met = restriction_met(work, history, piece.allowed, piece.part, constant)?;
    cut(work, history, piece.line, met, piece.defaulted)
}

/// Adds the line that a part meets its restriction. Where it has none that line is T.
fn constant_line(work: &mut Work, history: &History, piece: Piece) -> Result<u64, Halt>
    requires { WorkStands history.now work.old }
    ensures { GrowsUncounted history.now work.old work.new }
{
    if is_call(&work.bank, ground::TRUE, piece.allowed) {
        ground_row(work, history, ground::TRUE, 1)
    } else {
        met_line(work, history, piece)
    }
}

/// Adds the line that a part is smaller or meets its restriction.
fn other_line(
    work: &mut Work,
    history: &History,
    default: Option<usize>,
    piece: Piece,
    size: Size,
) -> Result<u64, Halt>
    requires { WorkStands history.now work.old }
    ensures { GrowsUncounted history.now work.old work.new }
{
    match default {
        Some(shell) => defaulted_line(work, history, shell, piece, size),
        None => constant_line(work, history, piece),
    }
}

/// A level of a nest: a part of a term that is smaller than the term.
#[derive(Clone, Copy)]
pub struct Level {
    /// That it is smaller.
    pub descent: Descent,
    /// The line that it is, with the denials of tests.
    pub line: u64,
}

/// Adds the line that a part of a value taken apart is smaller.
fn level_of(
    work: &mut Work,
    history: &History,
    apart: Apart,
    place: PartPlace,
) -> Result<Level, Halt>
    requires { WorkStands history.now work.old }
    ensures { GrowsUncounted history.now work.old work.new }
{
    let size = size_of(work, history, apart)?;
    let piece = take_piece(work, history, apart, place.part)?;
    let descent = descent_of(work, history, piece.part, piece.whole)?;
    let allowed = allowed_line(work, history, piece, size, descent)?;
    let other = other_line(work, history, place.default, piece, size)?;
    let line = cut(work, history, other, allowed, piece.allowed)?;
    Ok(Level { descent, line })
}

/// Adds the line that a part of a value is smaller, under the tests that the wanted literals deny.
pub fn part_line(
    work: &mut Work,
    history: &History,
    place: PartPlace,
    whole: TermId,
    wanted: &[TermId],
) -> Result<Level, Halt>
    requires { WorkStands history.now work.old }
    ensures { GrowsUncounted history.now work.old work.new }
{
    let apart = take_apart(work, history, place.shell, whole, wanted)?;
    level_of(work, history, apart, place)
}
