//! The values of ground terms, each with a line that proves it.
#![tactic(auto)]

ghost use Rattle.nq_eval.specs.Costs.{CostsAdd};

// lines of equations
mod equalities;
mod lines;

// lines of axioms
mod rows;
mod truths;

// what is found for a term and for its arguments
mod found;
mod gathered;

// what stands at the head of a term
mod heads;
mod object;

// what is found for a term, from what is found for its parts
mod choices;
mod closing;
mod openings;
mod reducing;
mod sizes;

// what waits for a value, and what comes of it
mod frames;
mod resuming;
mod steps;

// values of terms
mod answers;
mod evaluation;
mod proved;

pub use answers::{EvalAnswer, evaluate};
pub use heads::is_falsity;
pub use proved::lemma_line;

/// What a call takes is what its arguments and the call of their values take.
pub fn costs_add()
    ensures { CostsAdd }
{}
