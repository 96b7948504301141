//! Derived steps: lines that are made of several rules, each told by the literals that it may hold.
//!
//! Each step takes lines of the form `p ∷ these` and gives a line `q ∷ these`, whatever these other literals are. What is assumed
//! stands in `these` as the NOTs of the assumptions, so a step serves under any. It asks of its terms that they stand and are over
//! the functions of the history, and of its lines that they stand; the work only grows, and steps run out only at the limit.
#![tactic(auto)]

// single rules
mod rules;

// literals that are replaced in the line where they stand, and literals that are rewritten by equations
mod placed;
mod rewriting;

// instances of axioms, lemmas and other lines
mod instances;

// conditions, and what is equal to T or to F
mod choices;
mod conditions;

// denials of denials
mod denials;

// equations that are turned, joined, and carried into calls and to any place of a term
mod arguments;
mod calls;
mod equality;
mod inside;

// IFs that are joined from their branches, and the law that this uses
mod joining;
mod law;

// terms that lines show, and instances about terms at hand
mod facts;
mod given;
mod instantiated;
mod matched;
mod openings;

// which literals a line may have
mod only;

pub use arguments::congruent_all;
pub use calls::{Equated, argument_at, changed_call, congruent};
pub use choices::{if_equal_false, if_equal_true, if_same};
pub use conditions::{
    equal_false, falsity, first_chosen, from_equal_false, from_equal_true, if_false, if_true,
    second_chosen, true_or_false, truth,
};
pub use denials::{denial_false, deny_twice, undeny};
pub use equality::{meet, one_place, symmetric, transitive, two_places};
pub use facts::{Fact, Sides, is_same, literal_of, sides_of};
pub use given::{event_fact, row_fact};
pub use inside::equation_inside;
pub use instances::{axiom_row, event_instance, event_line, instance, row_line, symbol};
pub use instantiated::{instance_fact, matched_fact};
pub use joining::{BranchLines, condition, if_joined, join};
pub use law::{if_law, variable};
pub use matched::match_pairs;
pub use only::{has_id, has_only};
pub use openings::opening;
pub use rewriting::{discharge, rewrite_denial, rewrite_literal};
pub use rules::{cut, deny, equate, opposites, reflexive, replace_first, weaken};
