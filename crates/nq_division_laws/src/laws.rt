//! The laws of remainders that show facts. They are printed.
ghost use Rattle.std.specs.Prelude.{◌∷◌, [], IsSome};
ghost use Rattle.nq_division_laws.specs.LawClauses.{difference_falls_clause, difference_keeps_less_clause};
ghost use Rattle.nq_replay.specs.Replaying.{law_clause};

use crate::tables::remainder_is_less::REMAINDER_IS_LESS;
use crate::tables::remainder_is_no_more::REMAINDER_IS_NO_MORE;
use crate::tables::remainder_is_number::REMAINDER_IS_NUMBER;
use nq_replay::Law;

/// A law of remainders, by induction on a size, which falls where a number is taken away from one that is no smaller.
#[derive(Clone, Copy, Debug, PartialEq, Eq)]
pub enum DivisionLaw {
    /// `(NUMBERP (REMAINDER X Y))`.
    RemainderIsNumber,
    /// `(LESSP (REMAINDER X Y) Y)`, `(NOT (LESSP 0 Y))`.
    RemainderIsLess,
    /// `(NOT (LESSP X (REMAINDER X Y)))`.
    RemainderIsNoMore,
}

/// The table of a law, after the two lines on which they stand.
pub fn division_table(law: DivisionLaw) -> Law
    ensures { IsSome (law_clause result (difference_falls_clause ∷ difference_keeps_less_clause ∷ [])) }
{
    match law {
        DivisionLaw::RemainderIsNumber => REMAINDER_IS_NUMBER,
        DivisionLaw::RemainderIsLess => REMAINDER_IS_LESS,
        DivisionLaw::RemainderIsNoMore => REMAINDER_IS_NO_MORE,
    }
}
