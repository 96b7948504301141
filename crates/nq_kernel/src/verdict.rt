//! What a prover says of a lemma: a proof, a failure with the tree of its goals, that steps ran out, or that it knows no way
//! yet.
use nq_bank::TermId;

/// The fragments of the logic in which a lemma is proved without counting steps, in the order in which they are tried.
#[derive(Clone, Copy, Debug, PartialEq, Eq)]
pub enum Quick {
    /// A tautology of the connectives over few other terms.
    Taut,
    /// A term without variables that has a value other than F.
    Eval,
    /// An instance of an axiom or lemma of the history.
    Inst,
}

/// The moves of the waterfall.
#[derive(Clone, Copy, Debug, PartialEq, Eq)]
pub enum MoveKind {
    /// Simplification.
    Simp,
    /// The use of an equation between a variable and a term.
    Subst,
    /// Elimination of destructors.
    Elim,
    /// Cross-fertilization.
    Fert,
    /// Generalization.
    Gen,
    /// Elimination of irrelevance.
    Irr,
    /// Induction.
    Ind,
}

/// Why a goal is left over.
#[derive(Clone, Copy, Debug, PartialEq, Eq)]
pub enum Cause {
    /// It has no literal, or is ground with the value F.
    False,
    /// No other move has a candidate, and no call suggests an induction.
    NoInduction,
    /// An earlier goal of its path to which induction was applied subsumes it.
    Loop,
    /// The hints forbid induction.
    Forbidden,
    /// Its path holds as many inductions as it may.
    Depth,
}

/// A goal to which a move led.
#[derive(Drop)]
pub struct PathStep {
    /// The number of the step whose goal was moved, counted from 1; 0 stands for the first goal.
    pub parent: u64,
    /// The move.
    pub kind: MoveKind,
    /// The literals of the goal.
    pub goal: Vec<TermId>,
}

/// The steps of a proof or of a failure, in their order.
pub type Path = Vec<PathStep>;

/// How a lemma was proved.
#[derive(Drop)]
pub enum Proof {
    /// By the first of the fragments that holds it.
    First(Quick),
    /// By moves.
    Waterfall(Path),
}

/// What a prover says of a lemma.
#[derive(Drop)]
pub enum Verdict {
    /// The line of this number has only the lemma.
    Proved(u64, Proof),
    /// A tree of goals one of which is left over by the cause.
    Failed(Path, Cause),
    /// The counter is at its limit.
    OutOfSteps,
    /// The prover knows no way yet past the goals of this tree.
    NotYet(Path),
}
