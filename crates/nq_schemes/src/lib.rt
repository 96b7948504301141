//! Which inductions the calls of a goal suggest.
//!
//! A call of a recursive function suggests the induction that the function computes by: a case for each of its recursive calls, under
//! the tests that govern it, with the variables as they are there. Schemes that do what others do are given to those, and two that
//! agree become one; then the best comes first. All this is drafts, of which nothing is promised: the lines of the scheme that is
//! chosen are made at the end, and each is tested.
#![tactic(auto)]

// walks over terms, and nests of accessors
mod accessors;
mod terms;

// calls that suggest an induction
mod opened;
mod suggestion;

// bodies: their parts, the calls in them, and their cases
mod branches;
mod calling;
mod parted;
mod place;
mod tested;

// drafts of schemes
mod draft;
mod drafting;
mod steps;

// which draft comes first
mod choosing;
mod merging;
mod pairing;
mod subsuming;

// terms that are known to be over the history
mod known;
mod openings;
mod own;
mod spelling;

// what falls, and ordinals
mod falling;
mod instances;
mod ordinals;
mod sizes;
mod tables;

// the lines of a scheme
mod bases;
mod basis;
mod gathering;
mod learnt;
mod owed;
mod owed_ordinals;
mod plain;
mod showing;
mod starting;

// the plain scheme of a call, which is always there
mod certain;
mod finding;
mod guess;
mod single;

// the schemes of a goal
mod schemes;

// schemes last
mod laws;

pub use laws::schemes_last;
pub use owed::owed_falls;
pub use owed_ordinals::owed_ordinal;
pub use schemes::scheme_of;
