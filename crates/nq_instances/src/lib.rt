//! What is taken out of a term that a line shows, such as an instance of an axiom or lemma.
//!
//! Its parts are looked at as ids, so where they are others than was thought there is no line, and nothing else. `(AND p q)` and `(IMPLIES h c)` are handled by
//! their definitions: the call is opened, and of the IF that it opens to, the test or the first branch is taken.
#![tactic(auto)]

// the two arguments of a call
mod sides;

// parts of conjunctions, and what implications lead to
mod parts;

pub use parts::{consequence, first_part, if_parts_of, second_part};
pub use sides::two_in;
