//! What a move leads to.
use nq_bank::{Sym, TermId};
use nq_clause::Pair;
use nq_kernel::MoveKind;

/// An argument of a call, in which alone one term took another's place.
#[derive(Clone, Copy, Debug, PartialEq, Eq)]
pub struct Crossing {
    /// The call, which is a literal of the goal.
    pub whole: TermId,
    /// The place of the argument, counted from 1.
    pub place: u64,
}

/// How a variable gave way to what a rule says that it is made of, with new variables in the places of destructor calls.
#[derive(Drop)]
pub struct Eliminated {
    /// The name of the variable.
    pub name: Sym,
    /// The variable.
    pub variable: TermId,
    /// What the rule says that it equals.
    pub equation: TermId,
    /// The rule's hypotheses.
    pub hypotheses: Vec<TermId>,
    /// The line of the equation and of the hypotheses' NOTs.
    pub line: u64,
    /// The new variables, each with the destructor call for which it stands.
    pub pairs: Vec<Pair>,
    /// What takes the variable's place.
    pub made_of: TermId,
    /// The NOT of the equation, with the new variables.
    pub denial: TermId,
    /// The goal's literals and the hypotheses' NOTs, with the new variables.
    pub renamed: Vec<TermId>,
}

/// Why goals follow by a move.
#[derive(Drop)]
pub struct Why {
    /// The move.
    pub kind: MoveKind,
    /// The lines of the rule and of the added facts.
    pub lines: Vec<u64>,
    /// What each variable stands for.
    pub pairs: Vec<Pair>,
    /// The goal's literals that the move used.
    pub literals: Vec<TermId>,
    /// Where one term took another's place in one argument alone.
    pub crossing: Option<Crossing>,
    /// How a variable gave way by a rule.
    pub eliminated: Option<Eliminated>,
}

/// All goals to which a move leads, and why.
#[derive(Drop)]
pub struct Moved {
    /// The goals.
    pub children: Vec<Vec<TermId>>,
    /// Why they follow.
    pub why: Why,
}
