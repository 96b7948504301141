//! Hypothesis equations of a goal, each read in one order.
ghost use Rattle.std.specs.Prelude.{◌≡◌, ◌⊎◌, All, IfSome};
ghost use Rattle.nq_kernel.specs.Growing.{WorkStands};
ghost use Rattle.nq_lines.specs.Lines.{IsTermIn};
ghost use Rattle.nq_moves.specs.Swapped.{IsReading};

use crate::equations::{Sides, sides_under};
use nq_bank::TermId;
use nq_history::History;
use nq_kernel::Work;

/// A literal that denies an equation, and its sides in one order.
#[derive(Clone, Copy, Debug, PartialEq, Eq)]
pub struct Reading {
    /// The literal.
    pub literal: TermId,
    /// The side that is replaced.
    pub from: TermId,
    /// The other side.
    pub into: TermId,
}

/// The reading of a literal with these sides.
fn ordered(literal: TermId, sides: Sides, turned: bool) -> Reading
    ensures literal { result.literal ≡ literal }
    ensures sides { ((result.from ≡ sides.left) × (result.into ≡ sides.right)) ⊎ ((result.from ≡ sides.right) × (result.into ≡ sides.left)) }
{
    if turned {
        Reading {
            literal,
            from: sides.right,
            into: sides.left,
        }
    } else {
        Reading {
            literal,
            from: sides.left,
            into: sides.right,
        }
    }
}

/// The equation that the literal at a place denies, from right to left where it is turned.
pub fn reading_of(
    work: &Work,
    history: &History,
    goal: &[TermId],
    place: usize,
    turned: bool,
) -> Option<Reading>
    requires stands { WorkStands history.now work.now }
    requires goal { All (IsTermIn history.now work.now) goal.now }
    ensures { IfSome result (IsReading history.now work.now goal.now) }
{
    if place >= goal.len() {
        return None;
    }
    let literal = goal[place];
    match sides_under(&work.bank, literal) {
        Some(sides) => Some(ordered(literal, sides, turned)),
        None => None,
    }
}
