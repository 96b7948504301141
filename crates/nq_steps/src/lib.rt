//! Terms that are made step by step on a stack. The steps are written first, and need no bank that can be changed; then
//! they are taken over a bank, all at once. So what a list of steps means is said of terms alone, and growth of the bank and
//! terms that are too deep are seen to in one place.
//!
//! `take_steps` gives the terms that stand on the stack at the end. It is `Deep` exactly where one of the terms made is too
//! deep for a bank, unless memory is wanting first.
#![tactic(auto)]

// steps, and how they are written
mod steps;

// steps taken over a bank
mod making;

pub use making::take_steps;
pub use steps::{
    Leaf, Step, put_call, put_ground, put_joined, put_known, put_name, put_number, put_variable,
    put_whole,
};
