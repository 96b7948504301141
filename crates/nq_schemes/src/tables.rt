//! The tables of laws. They are printed.

pub mod fix_is_ordinal;
