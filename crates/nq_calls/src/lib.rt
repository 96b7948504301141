//! The calls of a function within a body, each with the tests that govern it, and the clauses by which a measure falls there:
//! what the Definition Principle asks of a definition that calls its own function, over the terms of a bank.
//!
//! Terms may be shared, so walks keep a table over ids: a shared term that no call stands in is walked once.
#![tactic(auto)]

// whether a function stands in a term
mod mentions;

// the calls of a function within a body
mod calls;

// the clauses that a measure falls at each
mod falls;

// which clauses show it
mod lines;

// what the answers rest on
mod laws;

pub use calls::{Guard, Site, calls_within};
pub use falls::{fall_literals, measure_at};
pub use laws::{apart_if_unused, counted_obligations, smaller_mentions};
pub use lines::{is_in_used, is_obligation_line, uses_of};
pub use mentions::{are_mentioned, mentions_at, mentions_within};
