//! A step that terms of remainders are made of.

use nq_bank::ground;
use nq_steps::Step;

/// A call of `REMAINDER`.
pub const REMAINDER: Step = Step::Call(ground::REMAINDER, 2);
