//! What is told of the first goal of a lemma: its text, and why it is left over, where it is false or stuck.
#![tactic(auto)]

// the text of a goal
mod texts;

// the steps of propositions that are false under some assignment
mod dropping;
mod falsehoods;

// what is told of the first goal, and of the trace from it
mod judging;
mod tracing;

pub use judging::{Judged, failing, judge};
pub use texts::goal_text;
pub use tracing::{Traced, trace_lemma};
