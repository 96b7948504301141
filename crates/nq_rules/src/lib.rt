//! Rules: whether a term can serve as a rule of a class.
#![tactic(auto)]

// calls of one and of two arguments
mod heads;

// hypotheses, conclusions and left sides
mod parts;

// calls that give something to generalize
mod generalizing;

// destructor calls, and conclusions that they serve to eliminate
mod destructors;
mod eliminating;

// the shapes
mod shapes;

pub use destructors::are_of_destructor;
pub use heads::{one_of, two_of};
pub use parts::{conclusion_of, is_call, left_side};
pub use shapes::{fits, fits_elim, fits_generalize, fits_rewrite};
