use nq_bank::Sym;
use nq_logtext::Binding;

/// The function that a block introduces, with the number of its arguments.
#[derive(Clone, Copy)]
pub struct Introduced {
    /// Its name.
    pub function: Sym,
    /// How many arguments it takes.
    pub arity: u64,
}

/// `MEASURE`: a line that waits for its definition. The term of the measure, the line that says that it is an ordinal, and
/// the lines that say that it falls at each call, by their numbers.
#[derive(Drop)]
pub struct MeasureLine {
    /// The measure.
    pub measure: u64,
    /// The line of the ordinal.
    pub ordinal: u64,
    /// The line of each call.
    pub falls: Vec<u64>,
}

/// A line of a block that waits for an induction. Terms and lines are told by their numbers.
#[derive(Drop)]
pub enum CaseLine {
    /// `CASE`: a case, by its test and its step line.
    Case(u64, u64),
    /// `HYP`: an instance that the last case uses, behind the line that says that the measure falls there.
    Hypothesis(u64, Vec<Binding>),
}
