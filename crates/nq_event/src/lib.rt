//! Events: what a form asks for, and why it is refused.
#![tactic(auto)]

ghost use Rattle.nq_event.specs.MadeNameLaw.{MadeNamesAreUnused};

// why a form is refused
mod fault;
mod refusal;

// lists, symbols and names
mod lists;

// the parts of events
mod parts;
mod shells;

// hints, and the instances of USE
mod hints;
mod instances;

// the words of events
mod words;

// the names in hints, in a history
mod hint_words;
mod named;
mod usable;

// events over ids
mod event;

// the terms of events
mod arities;
mod terms;

// names, classes, measures, shells and instances in a bank
mod classes;
mod instance_terms;
mod measures;
mod names;
mod shell_names;

// definitions, inductions, and hints with their terms
mod definitions;
mod hint_terms;
mod inductions;
mod large;
mod read_hints;
mod replaced;

// events of outlines, and the public call
mod made_name;
mod name_events;
mod parse;
mod term_events;

// events as they are written
mod formulas;
mod functions;
mod history_events;
mod outline;
mod shell_events;

pub use definitions::{Definition, definition_among, definition_called};
pub use event::{Event, Measure};
pub use fault::EventFault;
pub use hints::{HintKind, HintOutline};
pub use inductions::{are_distinct_variables, measured};
pub use instances::{InstanceOutline, PairOutline};
pub use outline::{Outline, outline_of};
pub use parse::parse_event;
pub use parts::{MeasureOutline, TypeOutline};
pub use refusal::{EventPart, Refusal};
pub use shells::{PartOutline, RestrictionOutline, ShellOutline};

/// The name that DISABLE or ENABLE makes up is in no use.
pub fn made_names_are_unused()
    ensures { MadeNamesAreUnused }
{}
