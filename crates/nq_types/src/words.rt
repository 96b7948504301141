//! Steps that terms of laws are made of.

use nq_bank::ground;
use nq_steps::Step;

/// A call of `MAX`.
pub const MAX: Step = Step::Call(ground::MAX, 2);

/// A call of `NEGATIVEP`.
pub const NEGATIVEP: Step = Step::Call(ground::NEGATIVEP, 1);
