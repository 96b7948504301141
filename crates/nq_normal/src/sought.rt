//! What is looked for among the open occurrences of a goal.
use nq_bank::TermId;
use nq_history::{Hints, History};

/// What is looked for among the open occurrences of a goal.
#[derive(Clone, Copy)]
pub enum Sought<'a> {
    /// A call that bars a goal from being normal, rules apart.
    Barred(&'a History, &'a Hints),
    /// An instance of the left side of a rule.
    Instance(TermId),
}
