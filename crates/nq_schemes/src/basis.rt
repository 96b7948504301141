use crate::opened::Opened;
use nq_bank::{Sym, TermId};
use nq_lines::Fact;

/// A variable whose size falls.
#[derive(Clone, Copy, Debug, PartialEq, Eq)]
pub struct SizedVariable {
    /// The variable.
    pub variable: TermId,
    /// Its name.
    pub name: Sym,
}

/// What the lines of a scheme stand on.
#[derive(Drop)]
pub struct Basis {
    /// The calls at hand.
    pub opened: Vec<Opened>,
    /// The variable whose size the measure is, where it is the size of a variable.
    pub sized: Option<SizedVariable>,
    /// The measure.
    pub measure: TermId,
    /// The line that this is an ordinal.
    pub ordinal: u64,
    /// T, and its line.
    pub shown: Fact,
    /// Whether lines may use linear arithmetic.
    pub arithmetic: bool,
}
