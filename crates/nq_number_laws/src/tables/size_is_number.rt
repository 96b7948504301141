//! The table of the law `size_is_number`. It is printed.

use nq_bank::ground;
use nq_replay::{Law, LawRule};
use nq_steps::{Leaf, Step};

/// The law `size_is_number`.
pub const SIZE_IS_NUMBER: Law = Law {
    names: &[],
    terms: &[],
    rules: &[LawRule::AxiomRow(ground::COUNT, 1, 0)],
};
