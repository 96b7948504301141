//! Tests of the checker of logs, of the first pass, and of the moves, over what their crates make public.
//! They stand in a crate of their own, since a crate with tests is proved twice.
//!
//! Most are whole small logs with what is written for them.
#![tactic(auto)]

// logs, and what is written for them
#[cfg(test)]
mod checked;

// the checker, by what the logs have
#[cfg(test)]
mod check;
#[cfg(test)]
mod definitions;
#[cfg(test)]
mod hand;
#[cfg(test)]
mod inductions;
#[cfg(test)]
mod limits;
#[cfg(test)]
mod recursion;
#[cfg(test)]
mod shells;
#[cfg(test)]
mod sums;

// the first pass, and goals for it
#[cfg(test)]
mod axioms;
#[cfg(test)]
mod goals;
#[cfg(test)]
mod quick;

// goals with candidates of moves, and without, and the lines of goals that were led on
#[cfg(test)]
mod closed;
#[cfg(test)]
mod moves;
