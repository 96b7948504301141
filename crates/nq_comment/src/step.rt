/// The moves by which a goal is led on, as the commentary names them.
#[derive(Clone, Copy, Debug, PartialEq, Eq)]
pub enum Move {
    /// Simplification.
    Simp,
    /// The use of an equation between a variable and a term.
    Subst,
    /// Elimination of destructors.
    Elim,
    /// Cross-fertilization.
    Fert,
    /// Generalization.
    Gen,
    /// Elimination of irrelevance.
    Irr,
    /// Induction.
    Ind,
}

/// Why a goal is left over, as the commentary tells it.
#[derive(Clone, Copy, Debug, PartialEq, Eq)]
pub enum Cause {
    /// It has no literal, or is ground with the value F.
    False,
    /// No other move has a candidate, and no call suggests an induction.
    NoInduction,
    /// An earlier goal of its path to which induction was applied subsumes it.
    Loop,
    /// The hints forbid induction.
    Forbidden,
    /// Its path holds as many inductions as it may.
    Depth,
}

/// A goal to which a move led.
#[derive(Drop)]
pub struct ShownStep {
    /// The number of the goal that was moved; 0 is the first goal.
    pub parent: u64,
    /// The move.
    pub led_by: Move,
    /// The text of the goal.
    pub goal: Vec<u8>,
}
