//! What is derivable however the work grows. What a caller gets is the law.
ghost use Rattle.nq_waterfall.specs.Ready.{HoldingLaws};

use nq_kernel::{held_work, ready_histories};

/// What holds of the work holds however it grows, and a goal with a line is derivable.
pub fn holding()
    ensures { HoldingLaws }
{
    ready_histories();
    held_work();
}
