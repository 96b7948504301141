//! One simplification of a goal, legal in both directions, and the way back to a line of the goal.
#![tactic(auto)]

// the steps of a simplification, as the way back needs them
mod way;

// the way back from lines of the goals that are left
mod closing;

// what a way says of derivable goals
mod laws;

// equations that are carried into terms
mod inside;

// lines of the axioms of IF
mod rows;

// what is made once for an event
mod basis;

// what rewrites a literal
mod rewriter;

// single steps, and what goals are simplified to
mod steps;

// goals with literals in the place of one
mod placing;

// a literal is rewritten
mod turning;

// IFs in literals
mod choosing;

// a goal is split on the test of an IF
mod splitting;

// goals that are left or closed
mod leaving;

// what a goal is simplified to, from its next goals
mod composing;

// lines of literals that are denied twice
mod denying;

// one simplification
mod simplifying;

// goals that one literal closes
mod shown;

pub use basis::{Basis, make_basis};
pub use closing::close;
pub use denying::{deny_twice, same_denied_twice};
pub use inside::equation_inside;
pub use laws::ways_simplify;
pub use rewriter::{NewLiteral, Rewriter};
pub use rows::{IfRows, RowNames, add_if_row, add_if_rows, add_row_at};
pub use shown::line_of_literal;
pub use simplifying::simplify_goal;
pub use steps::Simplified;
pub use way::Way;
