//! The table of the law `sizes_descend`. It is printed.

use crate::table::{Law, LawPair, LawRule};
use crate::words::{COUNT, X, Y, Z};

/// The law `sizes_descend`.
pub const SIZES_DESCEND: Law = Law {
    names: &[b"X", b"Y", b"Z"],
    terms: &[X, COUNT, Y, COUNT, Z, COUNT],
    rules: &[LawRule::Instance(
        1,
        &[
            LawPair { name: 0, term: 0 },
            LawPair { name: 1, term: 1 },
            LawPair { name: 2, term: 2 },
        ],
    )],
};
