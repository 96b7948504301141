//! The rules of the log over the terms of a bank: when each is allowed, and the clause that it gives.
#![tactic(auto)]

// terms compared, and what stands under a NOT
mod literals;

// the parts of an IF
mod branching;

// clauses as lists of terms
mod clauses;

// terms that are made
mod making;

// lists that are made
mod memory;

// TAUT, WEAKEN, CUT and JOIN
mod cutting;

// EVENT and REFL
mod equations;

// INST
mod instances;

// SPLIT and NOTNOT
mod placing;

// REPLACE
mod replacing;

// INDUCT
mod induction;

pub use branching::{Branches, branches_in};
pub use clauses::{contains, contains_opposite};
pub use cutting::{clause_of, cut_clause, join_clause, weaker_clause};
pub use equations::{clause_of_one, reflexive_clause};
pub use induction::{
    CaseOfInduction, InductionStep, is_base_line, is_case_line, is_fall_line, is_ordinal_line,
};
pub use instances::{are_distinct_variables, instance_clause};
pub use placing::{
    branches_at_literal, clause_in_place, first_branch_clause, second_branch_clause, under_nots_at,
};
pub use replacing::{Side, can_replace_at, replace_clause};
