use nq_bank::TermId;
use nq_rule::InductionStep;

/// A case of a scheme.
#[derive(Drop)]
pub struct Case {
    /// Its test.
    pub test: TermId,
    /// The substitutions at which the case uses the goal, each with the line that the measure falls there.
    pub steps: Vec<InductionStep>,
}

/// A scheme of induction.
#[derive(Drop)]
pub struct Scheme {
    /// What falls at each substitution.
    pub measure: TermId,
    /// The line that the measure is an ordinal.
    pub ordinal: u64,
    /// The cases.
    pub cases: Vec<Case>,
}
