//! The rewriter of a goal's literals: each is rewritten under the negations of the others.
//!
//! In the goal `(NOT (LISTP X)), (EQUAL (APPEND X NIL) X)` the second literal is rewritten where `(LISTP X)` is assumed, and the
//! first where `(NOT (EQUAL (APPEND X NIL) X))` is. A literal `(NOT p)` keeps its NOT, and p is rewritten.
#![tactic(auto)]

// one literal where terms are assumed
mod literal;

// what is assumed from the other literals
mod others;

// the literal T
mod truths;

// the rewriter of literals
mod rewriter;

pub use rewriter::LiteralRewriter;
