//! ELIM: a variable of which a goal speaks by its parts gives way to what the parts make, with new variables for them.
//!
//! A fact says what the variable is: a line with the equation of a term, which speaks of the variable by destructor calls alone, and
//! the variable. It is the row of a shell that says that an object is made of its parts. Beside it stand facts that say of what kinds
//! its parts are. The goal is led to the same with new variables for the destructor calls and that term for the variable, and to one
//! goal more for each further literal of the first fact. What is tried, and in which order, has no contract; what is owed is the way
//! back.
#![tactic(auto)]

// lists of ids
mod lists;

// the further literals of a fact
mod cases;

// calls of variables alone
mod calls;

// which variables are tried
mod candidates;

// facts
mod destructors;
mod kinds;
mod rows;

// why a variable can give way
mod denials;
mod reasons;

// the goals
mod making;

// the move, and the way back
mod closing;
mod eliminating;
mod equating;
pub mod laws;

// differences of numbers
mod differing;

pub use cases::Case;
pub use closing::close_elimination;
pub use differing::eliminate_difference;
pub use eliminating::eliminate;
pub use equating::equate_numbers;
pub use making::Elimination;
pub use reasons::Reason;
