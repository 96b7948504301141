//! Linear arithmetic over a goal: its literals are refuted, alone or together with facts about the terms that stand in them.
//! A fact comes from a law of arithmetic, is the conclusion of an instance of a lemma of the history, or is told by the caller.
//!
//! What is tried decides nothing: a line is built from what was found, and it counts where each of its literals is one of the
//! goal's.
#![tactic(auto)]

// facts with places for two terms
mod functions;
mod patterns;
mod template;
mod templates;

// terms that are made, and read
mod making;
mod reading;

// literals that a line shows, or rests on
mod claims;

// the lines of laws, and refutations
mod lines;
mod refuting;

// questions that were asked before
mod keeping;

// what a fact rests on
mod guards;
mod hypotheses;
mod numbers;
mod sources;

// the lemmas that speak of a goal's terms
mod bounding;
mod matching;
mod triggers;

// the facts about a goal
mod assumptions;
mod gathering;
mod rounds;
mod told;

// the line of a goal
mod arithmetic;
mod checking;
mod resolving;

// goals that say of a number that it is one
mod kinds;

pub use arithmetic::{arithmetic_line, arithmetic_line_by_lemmas};
pub use functions::{Two, name_of_two};
pub use kinds::kind_line;
pub use making::{call_two, zero};
pub use numbers::is_number_by_law;
pub use reading::terms_in;
