//! Drafts of schemes: which variables become what, under which tests. Nothing is promised of them.

use crate::parted::Test;
use nq_bank::TermId;

/// What a variable becomes.
#[derive(Clone, Copy, Debug, PartialEq, Eq)]
pub struct Change {
    /// The variable.
    pub variable: TermId,
    /// What it becomes; itself where it stays.
    pub term: TermId,
}

/// What the variables become at one call.
#[derive(Drop)]
pub struct Step {
    /// The variables, each once.
    pub changes: Vec<Change>,
}

/// A case.
#[derive(Drop)]
pub struct DraftCase {
    /// Its tests.
    pub tests: Vec<Test>,
    /// What the variables become at each of its calls.
    pub steps: Vec<Step>,
}

/// A draft of a scheme.
#[derive(Drop)]
pub struct Draft {
    /// The calls that suggest it. The first is the one whose measure falls.
    pub calls: Vec<TermId>,
    /// The cases.
    pub cases: Vec<DraftCase>,
    /// The variables that it changes.
    pub changed: Vec<TermId>,
    /// Other variables of the calls.
    pub still: Vec<TermId>,
    /// The shares of the arguments that it handles, summed over the calls, in millionths.
    pub score: u64,
    /// Whether all measured variables become nests of accessors of themselves.
    pub by_parts: bool,
    /// The place among those that the goal suggests.
    pub order: u64,
    /// Whether another draft has taken its place.
    pub gone: bool,
}
