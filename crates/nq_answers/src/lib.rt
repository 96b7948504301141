//! What a form may be answered in a history, and what a run of forms is. Definitions and laws, no code.
//!
//! Read `specs/Steps` first: it says for each form of an event file which answer it gets, and which history stands after it.
//! `specs/Claims` says what a run claims in its log, and `specs/Derived` what holds of its events.
#![tactic(auto)]

ghost use Rattle.nq_answers.specs.Laws.{RunsAreDerived, RunsAreOne, StepsAreOne};

/// Each lemma that a run reports as proved is derivable, and each event that it accepts meets its principle, in the history
/// just before it; and each event that stands at its end holds.
pub fn runs_are_derived()
    ensures { RunsAreDerived }
{}

/// Reports lead to one history, and lists of reports of the same forms differ first where the prover decides: at a definition that
/// calls its own function, or at a lemma in no fragment.
pub fn runs_are_one()
    ensures steps { StepsAreOne }
    ensures runs { RunsAreOne }
{}
