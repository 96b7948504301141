//! Measures by which a definition that calls its own function is admitted: an ordinal that falls at each call. Each obligation is
//! tried by the axioms of shells, and what they do not show is handed to a prover.
//!
//! An obligation is a clause, and a prover is asked for a term: the right nest of OR of the clause's literals. Once its line
//! stands the nest is opened again, so the line that is told has only the literals. No step is counted for that.
#![tactic(auto)]

// lines that are added
mod lines;

// nests of OR, and their lines
mod openings;

// obligations that are handed to a prover
mod judging;

// what the lines of a measure show
mod laws;

// lines that show that a measure falls at each call, and what is left where there are none
mod evidence;
mod falls;
mod left;

// sizes of variables that fall without a proof
mod descents;
mod sizes;

// the measures that are tried
mod tried;

// the first of some measures that admits a definition
mod finding;

pub use finding::{Admitting, Sought, find_measure};
pub use judging::{Judged, Why, judge, judge_fall};
pub use laws::{admitting_is_measure, measure_falls};
pub use left::Left;
pub use openings::{nest_of, open_nest};
pub use tried::tried_measures;
