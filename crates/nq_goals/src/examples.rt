//! Worked examples of the definitions, so that no slip of the pen goes unnoticed.
ghost use Rattle.nq_goals.specs.NormalExamples.{NormalExamples};
ghost use Rattle.nq_goals.specs.MoveExamples.{Substitutions, Droppings, Fertilizings, NewOnes, Generalizings, Eliminations, EliminationCandidates, EliminationsFound};
ghost use Rattle.nq_goals.specs.InductionExamples.{CallsSuggest, SchemesLead};
ghost use Rattle.nq_goals.specs.DecidedExamples.{DecidedExamples};
ghost use Rattle.nq_goals.specs.SpentExamples.{SpentExamples, TreeExamples};

/// Goals that are normal and goals that are not.
pub fn normal_goals()
    ensures { NormalExamples }
{}

/// What SUBST replaces.
pub fn substitutions()
    ensures { Substitutions }
{}

/// What IRR drops.
pub fn droppings()
    ensures { Droppings }
{}

/// What FERT replaces.
pub fn fertilizings()
    ensures { Fertilizings }
{}

/// What GEN replaces, and by which variables.
pub fn generalizings()
    ensures variables { NewOnes }
    ensures terms { Generalizings }
{}

/// What ELIM replaces.
pub fn eliminations()
    ensures rules { Eliminations }
    ensures candidates { EliminationCandidates }
    ensures found { EliminationsFound }
{}

/// Goals that are left over, one for each cause.
pub fn spent_goals()
    ensures { SpentExamples }
{}

/// Calls that suggest an induction, and where it leads.
pub fn inductions()
    ensures calls { CallsSuggest }
    ensures schemes { SchemesLead }
{}

/// Lemmas that are decided.
pub fn decided_lemmas()
    ensures { DecidedExamples }
{}

/// The tree of a failure, and none for a goal that an induction leads on.
pub fn failed_lemma()
    ensures { TreeExamples }
{}
