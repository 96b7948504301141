//! Which tests a structural nest needs.
ghost use Rattle.nq_decrease.specs.Laws.{StructuralWithout, StructuralWith};

/// Tells a caller's proof that a structural nest stays one without the tests that mention a function that is not in use, and
/// that one under those others is one under all. It does nothing.
pub fn structural_filtered()
    ensures fewer { StructuralWithout }
    ensures more { StructuralWith }
{}
