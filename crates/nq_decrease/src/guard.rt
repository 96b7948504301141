//! Tests that say which kind of value a term is.

use nq_bank::Sym;

/// How a test of a term is spelled.
#[derive(Clone, Copy, Debug, PartialEq, Eq)]
pub enum Guard {
    /// A function's call of the term.
    Call(Sym),
    /// The NOT of such a call.
    Denial(Sym),
    /// `(NOT (EQUAL y 0))`.
    NoZero,
    /// `(NOT (EQUAL 0 y))`.
    NoZeroTurned,
}
