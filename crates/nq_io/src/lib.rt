//! Where bytes come from and go to: sources and sinks that count their faults.
//!
//! The layers above read from a [`Source`] and write to a [`Sink`], and rest on one promise: a call
//! fails only where its count of faults rose in that call. A source may tell the bytes that are left in
//! it, and a sink those that were written; where it does, a call moves just the bytes that it answers.
//!
//! [`ReadSource`] and [`WriteSink`] are the edge to std's readers and writers. [`MemSource`] and
//! [`MemSink`] stand in memory and fail at chosen calls; [`SureSource`] and [`SureSink`] never fail.
#![tactic(auto)]

mod adapter;
mod copy;
mod memory;
mod sink;
mod source;
mod sure;

pub use adapter::{ReadSource, WriteSink};
pub use memory::{MemSink, MemSource};
pub use sink::{Sink, SinkFault};
pub use source::{Failed, Source};
pub use sure::{SureSink, SureSource};

#[cfg(test)]
mod tests;
