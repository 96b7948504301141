//! The tables of laws. They are printed.

pub mod atom_part_is_smaller;
pub mod choice_opens;
pub mod first_by_no_atom;
pub mod first_is_smaller;
pub mod first_of_pair;
pub mod implication_opens;
pub mod less_is_transitive;
pub mod less_than_one_more;
pub mod measure_falls;
pub mod measure_is_ordinal;
pub mod negative_part_is_smaller;
pub mod one_less_by_no_zero;
pub mod one_less_is_smaller;
pub mod one_less_of_number;
pub mod one_less_of_number_turned;
pub mod pair_holds;
pub mod rest_by_no_atom;
pub mod rest_is_smaller;
pub mod second_of_pair;
pub mod size_falls;
pub mod size_is_ordinal;
pub mod sizes_descend;
pub mod smaller_is_below;
