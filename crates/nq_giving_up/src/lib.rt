//! Giving up on a lemma: the tree of its failure from its first goal, by legal moves.
#![tactic(auto)]

// steps, as the commentary shows them
mod shown;

// the tree of a lemma
mod giving_up;

// the same by the legal mover
mod legally;

// a mover that is asked only so long
mod bounded;

// the trace of a lemma that was proved
mod tracing;

pub use giving_up::{Failing, GivenUp, give_up_by};
pub use legally::give_up;
pub use tracing::trace_proof;
