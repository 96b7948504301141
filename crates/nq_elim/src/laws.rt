//! What the ways back promise. Each function's contract is a law and its body is empty.
ghost use Rattle.nq_elim.specs.Eliminations.{EliminationsLast};

/// A way back serves however the work grows.
pub fn eliminations_last()
    ensures { EliminationsLast }
{}
