//! Inductions: a scheme that calls of a goal suggest, the goals of an induction by it, and the way back to a line of the goal.
//!
//! A goal is a clause. Its claim is one term, true where one of its literals is: an induction shows the claim, so the lines of
//! the goals get it in the place of the goal's literals, and the line of the induction gets the literals in its place.
#![tactic(auto)]

// schemes and their cases
mod scheme;

// the claim of a goal, and lines of it
mod claims;

// terms in place of variables
mod instances;

// the goals of an induction
mod goals;

// the way back
mod closing;

pub use claims::{claim_of, gather, known_truth};
pub use closing::close_induction;
pub use goals::goals_of;
pub use instances::instance_of;
pub use scheme::{Case, Scheme};
