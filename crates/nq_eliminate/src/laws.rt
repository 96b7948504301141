//! What the list of eliminations promises. Each function's contract is a law and its body is empty.
ghost use Rattle.nq_eliminate.specs.Laws.{ListedAreCandidates, NoneIsNone, RulesSuffice};

/// Where the list of eliminations is empty, the goal has no candidate of ELIM.
pub fn none_is_none()
    ensures { NoneIsNone }
{}

/// Each elimination of the list is a candidate.
pub fn listed_are_candidates()
    ensures { ListedAreCandidates }
{}

/// Where no rule of an axiom or a lemma has a candidate in a goal, and no rule of a shell, it has none.
pub fn rules_suffice()
    ensures { RulesSuffice }
{}
