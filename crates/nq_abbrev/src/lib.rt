//! The terms for which forms stand. Their meaning is `translation` of nq_language.
#![tactic(auto)]

// the arities of functions
mod arities;

// the meaning of a name
mod word;

// why a form is refused
mod refusal;

// the shapes of abbreviations
mod shapes;

// what is refused in a call by its meaning
mod calls;

// what is refused in quoted objects
mod objects;

// the first refusal in a form
mod refusals;

// terms of which abbreviations are made
mod making;

// the values of quoted objects
mod values;

// the terms of bound variables
mod scope;

// calls of made terms, and nests
mod nests;

// the terms of forms
mod terms;

// the public call
mod translation;

// laws, no code
mod laws;

pub use arities::Arities;
pub use laws::{names_are_calls, printed_is_translated};
pub use refusal::Refusal;
pub use translation::{TranslateFault, translate};
