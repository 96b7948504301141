//! The tables of laws. They are printed.

pub mod difference_falls;
pub mod difference_is_less;
pub mod difference_keeps_less;
pub mod remainder_is_less;
pub mod remainder_is_no_more;
pub mod remainder_is_number;
