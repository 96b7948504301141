//! The steps of the terms of laws that nq_replay has not. Their names are short, so that tables are.

use nq_bank::ground;
use nq_steps::Step;

/// A call of `FALSEP`.
pub const FALSEP: Step = Step::Call(ground::FALSEP, 1);

/// A call of `TRUEP`.
pub const TRUEP: Step = Step::Call(ground::TRUEP, 1);
