//! The tables of laws. They are printed.

pub mod first_of_choice;
pub mod second_of_choice;
