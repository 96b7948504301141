//! The first goal of a lemma: the NOTs of the instances that its USE hints name, and then the lemma.
#![tactic(auto)]

// the term that an event states
mod equations;
mod stated;

// the instances, and the goal
mod goals;
mod instances;

pub use goals::first_goal;
pub use instances::instance_term;
