//! Facts with places for two terms. They decide only what is tried.

use crate::functions::{One, Two};
use nq_bank::Sym;
use nq_division_laws::DivisionLaw;
use nq_number_laws::{InductiveLaw, PlainLaw};

/// A term that is made of earlier ones, which are named by their places. The two terms stand at 0 and 1, 0 at 2,
/// and T at 3.
#[derive(Clone, Copy, Debug)]
pub enum Make {
    /// A call of one argument.
    One(One, usize),
    /// A call of two arguments.
    Two(Two, usize, usize),
}

/// A literal: the term that is made last, or its NOT.
#[derive(Clone, Copy, Debug)]
pub struct Pattern {
    /// How its term is made.
    pub makes: &'static [Make],
    /// It is the NOT of the term.
    pub denied: bool,
}

/// How a guard is met that does not stand in the goal.
#[derive(Clone, Copy, Debug, PartialEq, Eq)]
pub enum Way {
    /// Not at all.
    Goal,
    /// It is the NOT of a NUMBERP, and the term is known to be a number.
    Number,
    /// Its opposite is refuted together with the goal.
    Sum,
}

/// A further literal of a fact's law.
#[derive(Clone, Copy, Debug)]
pub struct Guard {
    /// The literal.
    pub pattern: Pattern,
    /// How it is met.
    pub way: Way,
}

/// A law that has a fact.
#[derive(Clone, Copy, Debug, PartialEq, Eq)]
pub enum ArithmeticLaw {
    /// One from axioms alone.
    Plain(PlainLaw),
    /// One by induction.
    Inductive(InductiveLaw),
    /// One of divisions.
    Division(DivisionLaw),
    /// `(NOT (LISTP X))`, `(LESSP (COUNT (CAR X)) (COUNT X))`.
    FirstIsSmaller,
    /// `(NOT (LISTP X))`, `(LESSP (COUNT (CDR X)) (COUNT X))`.
    RestIsSmaller,
    /// `Y`, `(NOT X)`, `(NOT (IMPLIES X Y))`.
    ImplicationOpens,
    /// `(NOT Y)`, `(NOT X)`, `(AND X Y)`.
    PairHolds,
}

/// A fact about the arguments of a call, or about those of the call that is its first argument.
#[derive(Clone, Copy, Debug)]
pub struct Template {
    /// The function of the call.
    pub outer: Sym,
    /// The function of its first argument, where the fact speaks of that one's arguments.
    pub inner: Option<Sym>,
    /// The guards.
    pub guards: &'static [Guard],
    /// The fact.
    pub fact: Pattern,
    /// The law that has the guards and the fact, over the variables X and Y.
    pub law: ArithmeticLaw,
}
