//! The run of an event file: its forms are read, answered and reported one after another.
//!
//! The contract that the layer above uses is that of `run_events`: the reports written are a run over the forms of the file,
//! each lemma reported as proved is derivable in the history before it, and the log that is written, where one is asked for,
//! is a right log whose claims are those of the events that were accepted, proved or undone.
#![tactic(auto)]

// the header of a report
mod form;
mod header;

// one step: a form is answered in a history
mod answers;
mod proving;
mod recursions;
mod session;

// events, each by its kind
mod definition_events;
mod formula_events;
mod given_up;
mod measured;
mod name_events;
mod shell_events;
mod undo_events;

// the names of a shell that are in use
mod shell_names;

// what is written
mod outputs;

// the loop over the forms
mod runs;

// what holds of the history of every run
mod histories;

pub use histories::runs_make_histories;
pub use runs::{Ended, RunFault, run_events};
