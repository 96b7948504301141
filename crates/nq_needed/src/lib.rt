//! The lines of a log that one of its lines rests on.
//!
//! The search for a proof leaves a log most of whose lines serve no proof. Of such work only the lines are kept that the line
//! which shows the lemma rests on: the lines that it cites are marked, and those that they cite, down to the first; the rules
//! of the marked lines are made anew with their new numbers, and added to an empty log one after the other. Each rule is
//! tested before it is added, and the clause of the line that shows the lemma is compared with what it was. Where a test
//! fails the work keeps its log, so a line that was not marked costs lines and no proof.
#![tactic(auto)]

// which lines a line rests on
mod marks;

// rules with other numbers for the lines that they cite
mod numbers;
mod renumbering;

// the marked lines, in a log of their own
mod keeping;

// lines that are compared
mod comparing;

// the work that is left
mod shortening;

pub use shortening::{Shortened, with_needed_lines};
