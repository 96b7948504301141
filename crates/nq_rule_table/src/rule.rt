//! A rule of a table, and a name that was disabled or enabled.

use nq_bank::Sym;

/// A rule of class REWRITE: a part of the conclusion of an axiom or a lemma.
#[derive(Clone, Copy, Debug, PartialEq, Eq)]
pub struct RuleRef {
    /// The name of the axiom or the lemma.
    pub event: Sym,
    /// Which AND part of its conclusion this is, counted from 0.
    pub part: u32,
    /// The place of the axiom or the lemma in the history.
    pub place: u64,
    /// Whether the rule says of its left side that it is true, and not what it equals or that it is false.
    pub truth: bool,
    /// Whether what the left side equals is an instance of it, as in commutativity.
    pub permutes: bool,
}

/// A name that an event disabled or enabled.
#[derive(Clone, Copy, Debug, PartialEq, Eq)]
pub struct Toggled {
    /// The place of the event in the history.
    pub place: u64,
    /// The name.
    pub name: Sym,
    /// Whether the event disabled it.
    pub disabled: bool,
}
