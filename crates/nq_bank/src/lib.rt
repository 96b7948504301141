//! Shared terms: one region of terms named by numbers, each kept once, and rolled back to a mark.
//!
//! An id denotes one term until its mark is released, and two ids are equal exactly where their terms are: so terms are
//! compared by their ids. Contracts see a bank as its names and its terms, each in order (`Content`); a term is the
//! logic's tree over texts, and numerals are kept as one node. What holds of every bank is `IsSound`.
//!
//! A name and a node are found by their hashes.
#![tactic(auto)]

// names, ids, heads, marks and faults
mod node;

// the names that each bank begins with
pub mod ground;

// the names
mod names;

// the nodes: their records, the pages that these lie in, and the table that finds them by their hashes
mod hash;
mod nodes;
mod page;
mod pages;
mod record;

// what is kept with a call
mod calls;

// names compared, and names that are known
mod symbols;

// shells over names
mod shell;

// the bank itself
mod bank;

pub use bank::{Bank, DEPTH_LIMIT};
pub use calls::SIZE_LIMIT;
pub use node::{BankFault, Mark, Node, Sym, TermId};
pub use shell::{Part, Shell};
pub use symbols::{ground_name, is_same_name};
