//! Laws of sums.
ghost use Rattle.nq_shell_parts.specs.Summands.{SummandsAreFound};

/// Tells a caller's proof that the summands of a sum of terms are these. It does nothing.
pub fn summands_found()
    ensures { SummandsAreFound }
{}
