//! The first part of two objects just made that is not one. It decides only which part is compared.
ghost use Rattle.nq_bank.specs.Content.{Stands};

use crate::kinds::{head_of, is_made_at, made_kind};
use nq_bank::{Bank, TermId};
use nq_history::History;

/// A part of two objects just made that is not one.
#[derive(Clone, Copy, Debug, PartialEq, Eq)]
pub struct Unequal {
    /// The place of the shell.
    pub place: usize,
    /// The number of the part.
    pub part: usize,
}

/// The number of the first of two lists' members that differ, counted from 1.
fn first_unequal(lefts: &[TermId], rights: &[TermId]) -> Option<usize> {
    for i in 0..lefts.len() {
        if i < rights.len() && lefts[i].0 != rights[i].0 {
            return Some(i + 1);
        }
    }
    None
}

/// The place of the shell by whose constructor both terms are made.
fn made_alike(bank: &Bank, history: &History, left: TermId, right: TermId) -> Option<usize>
    requires first { Stands bank.now left }
    requires second { Stands bank.now right }
{
    let f = head_of(bank, left)?;
    let place = made_kind(history, f)?;
    let g = head_of(bank, right)?;
    if g.0 == f.0 && is_made_at(history, place, f) {
        Some(place)
    } else {
        None
    }
}

/// The first part of two terms just made by one constructor that is not one.
pub fn unequal_part(bank: &Bank, history: &History, left: TermId, right: TermId) -> Option<Unequal>
    requires first { Stands bank.now left }
    requires second { Stands bank.now right }
{
    let place = made_alike(bank, history, left, right)?;
    let part = first_unequal(bank.args(left), bank.args(right))?;
    Some(Unequal { place, part })
}
