//! The table of the law `zero_is_number`. It is printed.

use nq_bank::ground;
use nq_replay::{Law, LawRule};
use nq_steps::{Leaf, Step};

/// The law `zero_is_number`.
pub const ZERO_IS_NUMBER: Law = Law {
    names: &[],
    terms: &[],
    rules: &[LawRule::AxiomRow(ground::ADD1, 3, 0)],
};
