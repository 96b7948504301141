//! Parts of bodies, tests, and cases.

use nq_bank::TermId;

/// A part of a body, and what stands there in an instance of the body.
#[derive(Clone, Copy, Debug, PartialEq, Eq)]
pub struct Place {
    /// The part.
    pub body: TermId,
    /// What stands there.
    pub here: TermId,
}

/// What a test says, in whatever words: that `(NLISTP X)` fails says what it says that `(LISTP X)` holds.
#[derive(Clone, Copy, Debug, PartialEq, Eq)]
pub struct Saying {
    /// Whether it is said of the term that it is a pair.
    pub pair: bool,
    /// The term.
    pub term: TermId,
    /// Whether that holds.
    pub holds: bool,
}

/// A term that holds, or that fails.
#[derive(Clone, Copy, Debug, PartialEq, Eq)]
pub struct Test {
    /// The term.
    pub term: TermId,
    /// Whether it holds.
    pub holds: bool,
    /// What it says so.
    pub saying: Saying,
}

/// A recursive call, and the tests that govern it.
#[derive(Drop)]
pub struct Call {
    /// The tests.
    pub tests: Vec<Test>,
    /// The arguments.
    pub arguments: Vec<TermId>,
    /// Whether each measured argument is a nest of accessors of a formal.
    pub by_parts: bool,
}

/// Calls that are made under the same tests.
#[derive(Drop)]
pub struct Branch {
    /// The tests.
    pub tests: Vec<Test>,
    /// The arguments of each call.
    pub calls: Vec<Vec<TermId>>,
}
