//! The text of a term, as the language of event files writes it. Its meaning is `printed` of nq_language,
//! whose law says that the text is read as the term.
#![tactic(auto)]

// a term by the number of its arguments
mod shape;

// the nests of CAR and CDR
mod letters;

// literal atoms
mod atoms;

// the values that are quoted
mod objects;
mod quoting;

// the texts of terms
mod writing;

pub use writing::print_term;
