//! The values of calls on values, by the table of values.
//!
//! `apply` gives the value that the definition `value_of` of the log's rules gives, as a term of the bank. A row is found by
//! the function's symbol; then one function for each family of rows finds its value; at last the value becomes a term.
#![tactic(auto)]

// a value's kind and parts, and what it is tested for
mod kinds;
mod object;

// the functions of the table, and the row of a symbol
mod lookup;
mod row;

// rows whose value is T or F, a part, a number
mod arithmetic;
mod parts;
mod predicates;
mod relations;

// what a row gives, by the number of its arguments
mod branching;
mod found;
mod rows_of_one;
mod rows_of_two;

// the value as a term of the bank
mod making;

// the whole table
mod table;

// calls as they stand
mod calls;

pub use calls::{has_value, value_of};
pub use making::ValueAnswer;
pub use table::apply;
