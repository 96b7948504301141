//! Laws of sums, of the sizes of the parts of an object, and of the restrictions of parts, as lines.
#![tactic(auto)]

mod constants;
mod laws;
mod longer;
mod restrictions;
mod summands;
mod tables;
mod words;

pub use constants::{equation_by_itself, equation_by_turned};
pub use laws::summands_found;
pub use longer::less_than_longer_sum;
pub use restrictions::{
    falsity_is_falsity, falsity_is_no_truth, first_of_choice, neither_of_choice, same_is_equal,
    second_of_choice, smaller_as_others_are, truth_is_no_falsity, truth_is_truth,
};
pub use summands::{allowed_is_smaller, base_is_smaller, less_than_sum};
