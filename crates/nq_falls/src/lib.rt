//! The measures of the ground history's definitions fall at each recursive call: a law.
//!
//! Most calls take a part, as `(SUB1 X)` or `(CDR X)`. ORD-LESSP does so under tests that are denied twice, and QUOTIENT and REMAINDER
//! take the difference of positive numbers, whose size falls by a law of its own (`proofs/DifferenceFalls`, which tools/falls.py prints).
#![tactic(auto)]

ghost use Rattle.nq_falls.specs.Falls.{GroundDefinitionsFall};

use nq_arith::{measure_laws, nest_is_smaller};

/// The measure of each definition of the ground history falls, where it has one. What a caller gets is the law.
pub fn ground_definitions_fall()
    ensures { GroundDefinitionsFall }
{
    nest_is_smaller();
    measure_laws();
}
