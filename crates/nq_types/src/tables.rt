//! The tables of laws. They are printed.

pub mod guts_are_number;
pub mod larger_is_number;
