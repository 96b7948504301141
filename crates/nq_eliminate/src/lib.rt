//! ELIM: the list of a goal's eliminations stands for all its candidates, and the eliminations by the rules of shells, axioms and lemmas.
//!
//! A candidate is a rule with a variable for each of its variables, so that there are endlessly many where there is one. The list of
//! the table has those whose variables a call in the goal forces, with new ones for the rest. The laws say that this is enough.
//!
//! The rule of a shell has one variable, so that it has a candidate exactly where the goal calls an accessor of the shell on a
//! variable, as `(CAR X)`: `find_access` finds one exactly where there is one. The rule of an axiom or a lemma has a candidate exactly
//! where one of its destructor calls becomes a call of the goal with other variables, so that the eliminated one becomes another than
//! the others do, and no two destructor calls become one: `find_candidate` finds one exactly where an enabled rule has one, without new
//! terms. As `(QUOTIENT X Y)` becomes `(QUOTIENT A B)`, the rule of `(EQUAL (PLUS (REMAINDER X Y) (TIMES Y (QUOTIENT X Y))) X)` makes
//! `(PLUS V1 (TIMES B V2))` of `A`, and `V1` and `V2` of `(REMAINDER A B)` and `(QUOTIENT A B)`.
//!
//! `eliminate_move` leads a goal on by the first of these, exactly where there is one, to the goals of an ELIM on its path. The way
//! back is `nq_moves::close_move`.
#![tactic(auto)]

// where a goal calls an accessor on a variable
mod accesses;

// the enabled rules of axioms and lemmas that have a candidate in it
mod destructors;
mod finding;
mod images;
mod rules;
mod serving;

// the list of eliminations
pub mod laws;

// lists of ids
mod literals;

// instances of rules
mod instances;
mod naming;
mod rule_instances;
mod shells;
mod supposing;

// the move
mod making;
mod moving;

pub use accesses::{Access, find_access};
pub use finding::{Candidate, find_candidate};
pub use instances::Instance;
pub use making::eliminate_instance;
pub use moving::{eliminate_by_rule, eliminate_by_shell, eliminate_move};
pub use rules::Rule;
pub use serving::Served;
