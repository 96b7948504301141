//! What the lines of a measure show.
ghost use Rattle.nq_logic.specs.Terms.{Term, IsTerm, Each};
ghost use Rattle.nq_logic.specs.Histories.{History, Definition};
ghost use Rattle.nq_logic.specs.Ground.{symbols_of};
ghost use Rattle.nq_logic.specs.Formulas.{clause};
ghost use Rattle.nq_logic.specs.Derivations.{Derivable};
ghost use Rattle.nq_logic.specs.Admissible.{HasVariables, IsMeasure};
ghost use Rattle.nq_calls.specs.Calls.{counted_calls};
ghost use Rattle.nq_measures.specs.Admitting.{AdmittingIsMeasure};
ghost use Rattle.nq_measures.specs.Measures.{FallsThere, ordinal_clause};

/// Where the obligations of the counted calls are derivable, the measure is one of the definition. It does nothing.
pub fn measure_falls()
    ensures { (h : History) (d : Definition) (m : Term) → IsTerm (symbols_of h) m → HasVariables d.formals m → Derivable h (clause (ordinal_clause m)) → Each (FallsThere h d.function d.formals m) (counted_calls d.function d.body) → IsMeasure h d m }
{}

/// A measure that was found is one of the definition, where the lines hold. It does nothing.
pub fn admitting_is_measure()
    ensures { AdmittingIsMeasure }
{}
