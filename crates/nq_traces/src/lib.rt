//! Traces: numbered steps from a first goal, each to one of the goals to which a legal move leads from the goal of its parent.
//! A definition and its laws, no code. A trace shows goals that a proof used; it is not the evidence, which is the log.
#![tactic(auto)]

mod laws;

pub use laws::trace_laws;
