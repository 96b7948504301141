//! Tests that say that a user's shell has made a term.

use nq_bank::Sym;

/// A test of a term.
#[derive(Clone, Copy, Debug, PartialEq, Eq)]
pub enum OwnTest {
    /// The recognizer's call of the term.
    Recognizes(Sym),
    /// The NOT of the equation of the term and a base.
    NoBase(Sym),
    /// The NOT of the equation of a base and the term.
    NoBaseTurned(Sym),
}

/// How the tests say that the constructor of a shell made a term.
#[derive(Clone, Copy, Debug, PartialEq, Eq)]
pub enum OwnGuard {
    /// By the recognizer, where the shell has no base.
    Recognized,
    /// By the recognizer, and the NOT of the equation of the term and the base.
    Unequal,
    /// By the recognizer, and the NOT of the equation of the base and the term.
    UnequalTurned,
}
