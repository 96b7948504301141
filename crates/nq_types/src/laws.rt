//! The laws of what functions give that stand in no other crate. They are printed.
ghost use Rattle.std.specs.Prelude.{[], IsSome};
ghost use Rattle.nq_replay.specs.Replaying.{law_clause};

use crate::tables::guts_are_number::GUTS_ARE_NUMBER;
use crate::tables::larger_is_number::LARGER_IS_NUMBER;
use nq_replay::Law;

/// A law of what a function gives, from axioms alone.
#[derive(Clone, Copy, Debug, PartialEq, Eq)]
pub enum KindLaw {
    /// `(NUMBERP (MAX X Y))`.
    LargerIsNumber,
    /// `(NUMBERP (NEGATIVE-GUTS X))`.
    GutsAreNumber,
}

/// The table of a law.
pub fn kind_table(law: KindLaw) -> Law
    ensures { IsSome (law_clause result []) }
{
    match law {
        KindLaw::LargerIsNumber => LARGER_IS_NUMBER,
        KindLaw::GutsAreNumber => GUTS_ARE_NUMBER,
    }
}
