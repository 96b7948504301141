//! Parts of a ground shell's value, and the tests under which they are smaller.

/// A part that is smaller than the value, and the spelling of the tests that say so.
#[derive(Clone, Copy, Debug, PartialEq, Eq)]
pub enum Level {
    /// CAR, under `(LISTP y)`.
    First,
    /// CAR, under `(NOT (NLISTP y))`.
    FirstByNoAtom,
    /// CDR, under `(LISTP y)`.
    Rest,
    /// CDR, under `(NOT (NLISTP y))`.
    RestByNoAtom,
    /// UNPACK, under `(LITATOM y)`.
    AtomPart,
    /// NEGATIVE-GUTS, under `(NEGATIVEP y)`.
    NegativePart,
    /// SUB1, under `(NOT (ZEROP y))`.
    OneLessByNoZero,
    /// SUB1, under `(NUMBERP y)` and `(NOT (EQUAL y 0))`.
    OneLessOfNumber,
    /// SUB1, under `(NUMBERP y)` and `(NOT (EQUAL 0 y))`.
    OneLessOfNumberTurned,
}
