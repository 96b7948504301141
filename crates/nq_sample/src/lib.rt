//! Samples: files of events that are generated from a seed and a size.
//!
//! Read `specs/Sample`: which text a seed and a size give. `sample_text` gives exactly that text.
#![tactic(auto)]

mod draws;
mod event;
mod laws;
mod sample;

pub use event::EventKind;
pub use laws::{samples_are_short, worked_samples};
pub use sample::sample_text;

#[cfg(test)]
mod tests;
