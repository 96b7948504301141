//! The letters of nests of CAR and CDR.
ghost use Rattle.std.specs.Prelude.{◌≡◌, MatchOption};
ghost use Rattle.nq_bank.specs.Content.{Stands, term_at};
ghost use Rattle.nq_print.specs.Pieces.{letter_at};
ghost use Rattle.nq_print.specs.Letters.{IsLetterAt};

use crate::shape::{Shape, shape_of};
use nq_bank::{Bank, Sym, TermId, ground};

/// A call of CAR or CDR: its letter, and the argument.
#[derive(Clone, Copy)]
pub struct Letter {
    pub letter: u8,
    pub argument: TermId,
}

/// What a term is as a call of CAR or CDR.
pub fn letter_at(bank: &Bank, t: TermId) -> Option<Letter>
    requires { Stands bank.now t }
    ensures { MatchOption result (letter_at (term_at bank.now t) ≡ None) (IsLetterAt bank.now t) }
{
    match shape_of(bank, t) {
        Shape::Single(f, argument) => {
            if bank.is_ground(f, ground::CAR) {
                Some(Letter {
                    letter: b'A',
                    argument,
                })
            } else if bank.is_ground(f, ground::CDR) {
                Some(Letter {
                    letter: b'D',
                    argument,
                })
            } else {
                None
            }
        }
        Shape::Variable(_) => None,
        Shape::Number(_) => None,
        Shape::Constant(_) => None,
        Shape::Pair(_, _, _) => None,
        Shape::Longer(_) => None,
    }
}
