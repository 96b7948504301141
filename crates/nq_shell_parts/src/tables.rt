//! The tables of laws. They are printed.

pub mod allowed_is_smaller;
pub mod base_is_smaller;
pub mod equation_by_itself;
pub mod equation_by_turned;
pub mod falsity_is_falsity;
pub mod falsity_is_no_truth;
pub mod first_of_choice;
pub mod less_than_longer_sum;
pub mod less_than_sum;
pub mod neither_of_choice;
pub mod same_is_equal;
pub mod second_of_choice;
pub mod smaller_as_others_are;
pub mod truth_is_no_falsity;
pub mod truth_is_truth;
