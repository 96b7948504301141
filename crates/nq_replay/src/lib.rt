//! Laws of arithmetic as tables of rule lines, and their lines in a log.
//!
//! A law is a table: variables, terms and rule lines over them. Its meaning is a clause, which is computed on trees.
//! `replay` adds the lines of a table behind those of a log; the last one holds the law's clause. A table may stand on lines
//! that are known. No step is counted.
#![tactic(auto)]

// lines that are added without counting steps
mod lines;

// the tables of laws
mod table;
mod tables;
pub mod words;

// what a table names, in a bank
mod parts;

// the rules of a table, over a bank and a log
mod rules;

// the lines of a law
mod replaying;

// the lines of single laws
mod connectives;
mod descents;
mod measures;

pub use connectives::{choice_opens, first_of_pair, implication_opens, pair_holds, second_of_pair};
pub use descents::{
    atom_part_is_smaller, first_by_no_atom, first_is_smaller, less_is_transitive,
    less_than_one_more, negative_part_is_smaller, one_less_by_no_zero, one_less_is_smaller,
    one_less_of_number, one_less_of_number_turned, rest_by_no_atom, rest_is_smaller, size_falls,
    sizes_descend,
};
pub use lines::add_line;
pub use measures::{measure_falls, measure_is_ordinal, size_is_ordinal, smaller_is_below};
pub use replaying::replay;
pub use table::{Law, LawCase, LawHypothesis, LawPair, LawRule};
