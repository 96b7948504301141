//! Functions over the terms of a bank. A term may be shared so often that its tree has more nodes than can be counted, so
//! each function but `subsumes` keeps a table over ids and walks each shared node once.
//!
//! `substitute` puts terms in place of variables, all at once; `occurs_in` tells whether a variable stands in a term.
//! `match_term` finds the terms for the variables of a pattern that make it another term, and `subsumes` tells whether one
//! substitution takes each literal of a clause to a literal of another. It takes no memory, and so walks trees. Contracts
//! speak of the trees that the ids denote.
#![tactic(auto)]

// what is known of terms that were walked
mod memo;

// whether a variable stands in a term
mod occurrence;

// terms in place of variables
mod substitution;

// whether a term is another one with terms in place of variables
mod instance;

// variables bound to terms
mod binding;

// terms for the variables of a pattern, so that it is another term
mod matching;

// the same without memory, where there is room for the bindings
mod room;

// one substitution for all literals of a clause
mod subsumption;

pub use binding::{Binding, Bound};
pub use instance::is_instance;
pub use matching::match_term;
pub use occurrence::occurs_in;
pub use substitution::{Pair, substitute};
pub use subsumption::subsumes;
