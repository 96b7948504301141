//! Why a goal is left before it is solved.
ghost use Rattle.std.specs.Prelude.{◌≡◌};
ghost use Rattle.nq_waterfall.specs.Halts.{halt_of};

use nq_kernel::Stop;

/// Why a goal is left before it is solved.
#[derive(Clone, Copy, Debug, PartialEq, Eq)]
pub enum Halt {
    /// The counter is at its limit.
    OutOfSteps,
    /// Memory is wanting.
    Memory,
    /// Nothing is told of a goal below it, or no way back is kept of its move.
    Unknown,
}

impl From<Stop> for Halt {
    ghost from_gives = { λ stop halt. halt ≡ halt_of stop };

    fn from(stop: Stop) -> Halt {
        match stop {
            Stop::OutOfSteps => Halt::OutOfSteps,
            Stop::Memory => Halt::Memory,
        }
    }
}
