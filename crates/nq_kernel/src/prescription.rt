use nq_bank::Sym;

/// The line of the log that shows a type prescription of a function.
#[derive(Clone, Copy, Debug, PartialEq, Eq)]
pub struct Prescription {
    /// The function.
    pub function: Sym,
    /// The line that shows it.
    pub line: u64,
}
