//! Instances of elimination rules.
use nq_bank::{Sym, TermId};

/// What an elimination rule says of a variable.
#[derive(Drop)]
pub struct Instance {
    /// The name of the variable.
    pub name: Sym,
    /// The variable.
    pub variable: TermId,
    /// The other variables.
    pub others: Vec<TermId>,
    /// What the variable is made of.
    pub whole: TermId,
    /// The destructor calls.
    pub calls: Vec<TermId>,
    /// The hypotheses.
    pub hypotheses: Vec<TermId>,
    /// The line of the equation of the whole and the variable, and of the hypotheses' NOTs.
    pub line: u64,
}
