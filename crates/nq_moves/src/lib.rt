//! The moves of the waterfall other than simplification and induction, and the ways back from the goals to which they lead.
//!
//! `substitute_move`, `fertilize_move` and `irrelevant_move` lead a goal on exactly where it has a candidate, and to the goals of a
//! move of their kind (`specs/OfTable`), on every path and under all hints; `generalize_by` makes the goal of a GEN. From lines that
//! have only literals of the goals to which a move led, `close_move` makes a line that has only literals of the goal.
//! That this can be done is `IsWay` (`specs/Ways`), which lasts however the work grows (`laws::ways_last`); what is tried, and in
//! which order, has no contract.
//!
//! Where one term takes another's place the way back is by an equation: `equal` says of a term that it equals the one with the
//! exchange made, each shared node once, and `back` rewrites literal for literal. Where new variables stand for terms, it is by an
//! instance (`renaming`).
#![tactic(auto)]

// what a move leads to
mod moved;

// what is known of terms that were walked
mod known;

// clauses over ids
mod clauses;

// terms in place of variables, counted
mod counted;

// the equations that literals deny
mod equations;
mod readings;

// SUBST
mod substituting;

// IRR
mod calls;
mod dropping;
mod groups;
mod recursion;
mod sharing;

// equations of the arguments of a call
mod carrying;

// terms that are equal by a hypothesis
mod back;
mod equal;

// terms in others' places, counted
mod exchanging;

// whether a term stands in others
mod standing;

// FERT: the choice, the goals, and the closing
mod crossing;
mod fertile;
mod swapping;
mod weighing;

// new variables in the places of terms
mod naming;
mod numbering;
mod renaming;
mod used_names;

// GEN
mod generalizing;

// ELIM
mod eliminating;
mod uncovering;

// the moves, and the ways back
pub mod laws;
mod ways;

pub use back::{close_exchanged, other_side, rewrite_back, swap_by};
pub use carrying::carry;
pub use clauses::{distinct_clause, keep_unless};
pub use counted::substitute_all;
pub use crossing::close_swapped;
pub use dropping::{close_left, drop_first};
pub use eliminating::eliminate_by;
pub use equal::{Swap, equal_within, keep_equal, known_equal};
pub use exchanging::{Exchanging, exchange_all, exchange_within, replacing};
pub use fertile::fertilize_move;
pub use generalizing::generalize_by;
pub use moved::{Crossing, Eliminated, Moved, Why};
pub use naming::{Renaming, rename, rename_new, variable_id};
pub use readings::{Reading, reading_of};
pub use renaming::{close_renamed, put_back};
pub use standing::{stands_at, stands_in_these};
pub use substituting::{close_substitution, substitute_first};
pub use swapping::{has_place, swap_sides};
pub use ways::{close_move, irrelevant_move, substitute_move};
