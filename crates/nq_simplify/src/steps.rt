//! Single steps of a simplification, and what is made of what follows them.
ghost use Rattle.std.specs.Prelude.{◌≡◌};
ghost use Rattle.nq_simplify.specs.Simplified.{is_same};

use crate::way::Way;
use nq_bank::TermId;

/// A literal is replaced by another.
#[derive(Drop)]
pub struct Turn {
    /// The literal.
    pub old: TermId,
    /// What stands in its place.
    pub new: TermId,
    /// A line with only their equation, and literals of both goals.
    pub line: u64,
    /// The goal after the step.
    pub next: Vec<TermId>,
}

/// A goal is split on the test of an IF.
#[derive(Drop)]
pub struct Split {
    /// The test.
    pub test: TermId,
    /// The step of the goal with the test as a further literal.
    pub with_test: Turn,
    /// The step of the goal with the NOT of the test.
    pub without_test: Turn,
}

/// What is done to a goal next.
#[derive(Drop)]
pub enum Outcome {
    /// Nothing.
    Same,
    /// A line has only the goal's literals.
    Closed(u64),
    /// A literal is replaced.
    Turned(Turn),
    /// The goal is split.
    Divided(Split),
}

impl Outcome {
    /// Whether nothing is done.
    pub fn is_same(&self) -> bool
        ensures { result ≡ is_same self.now }
    {
        match self {
            Outcome::Same => true,
            Outcome::Closed(_) => false,
            Outcome::Turned(_) => false,
            Outcome::Divided(_) => false,
        }
    }
}

/// What a goal is simplified to.
#[derive(Drop)]
pub struct Simplified {
    /// The way back to a line of the goal.
    pub way: Way,
    /// The goals that are left.
    pub nexts: Vec<Vec<TermId>>,
}
