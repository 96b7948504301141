//! What an event form asks for, and which refusals it gets. Definitions and examples, no code.
//!
//! Read `specs/Outlines` for the shapes of forms, `specs/TermRefusals` and `specs/HintRefusals` for what is refused in
//! terms and hints, `specs/Reading` for the event of a form, and `specs/OwnRefusals` for what an event is refused for.
#![tactic(auto)]

ghost use Rattle.nq_events.specs.ReadTerms.{TermsAreOverHistories, TermsAreOverDefinitions};
ghost use Rattle.nq_events.specs.EventTerms.{EventsHaveTerms};
ghost use Rattle.nq_events.specs.AllowedEvents.{EventsAreAllowed, PlainDefinitionsAreAdmissible};
ghost use Rattle.nq_events.specs.RefusalExamples.{DefinitionsRefused, ShellsRefused, ClassesRefused, TogglesRefused};
ghost use Rattle.nq_events.specs.ShapeExamples.{WordsRefused, ShapesRefused, RefusalsInOrder};
ghost use Rattle.nq_events.specs.HintExamples.{HintsRefused, EventsRead, MeasuresTried};

/// The terms of a form that isn't refused are over the functions of the history, and of the definition.
pub fn terms_are_read()
    ensures in_history { TermsAreOverHistories }
    ensures in_definition { TermsAreOverDefinitions }
{}

/// The terms of an event whose form isn't refused are over the functions of the history, and within the limits.
pub fn events_have_terms()
    ensures { EventsHaveTerms }
{}

/// An event that isn't refused meets the conditions of its kind: a shell the Shell Principle, a definition without a
/// recursive call the Definition Principle.
pub fn events_are_allowed()
    ensures conditions { EventsAreAllowed }
    ensures definitions { PlainDefinitionsAreAdmissible }
{}

/// Definitions and declarations that are refused, and such as are not.
pub fn definitions_refused()
    ensures { DefinitionsRefused }
{}

/// Shells that are refused.
pub fn shells_refused()
    ensures { ShellsRefused }
{}

/// Axioms and lemmas that are no rules of their classes.
pub fn classes_refused()
    ensures { ClassesRefused }
{}

/// Toggles and undos that are refused.
pub fn toggles_refused()
    ensures { TogglesRefused }
{}

/// Forms that are no events, and forms that are passed over.
pub fn words_refused()
    ensures { WordsRefused }
{}

/// Events with a part of a wrong shape.
pub fn shapes_refused()
    ensures { ShapesRefused }
{}

/// Forms with more than one fault, and the fault that is told.
pub fn refusals_in_order()
    ensures { RefusalsInOrder }
{}

/// Hints that are refused, and such as are not.
pub fn hints_refused()
    ensures { HintsRefused }
{}

/// Forms and the events that they ask for.
pub fn events_read()
    ensures { EventsRead }
{}

/// The measures that are tried of a definition.
pub fn measures_tried()
    ensures { MeasuresTried }
{}
