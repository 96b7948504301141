//! What the definitions promise. The function's contract is a law and its body is empty.
ghost use Rattle.nq_schemes.specs.Laws.{SchemesLast};

/// A scheme serves however the work grows.
pub fn schemes_last()
    ensures { SchemesLast }
{}
