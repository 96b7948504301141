//! The table of the law `one_more_is_number`. It is printed.

use nq_bank::ground;
use nq_replay::words::X;
use nq_replay::{Law, LawPair, LawRule};

/// The law `one_more_is_number`.
pub const ONE_MORE_IS_NUMBER: Law = Law {
    names: &[b"X1"],
    terms: &[X],
    rules: &[
        LawRule::AxiomRow(ground::ADD1, 2, 0),
        LawRule::Instance(1, &[LawPair { name: 0, term: 0 }]),
    ],
};
