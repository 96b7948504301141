/// As what the summary of a run counts a form.
#[derive(Clone, Copy, Debug, PartialEq, Eq)]
pub enum Kind {
    /// Accepted, proved or undone.
    Accepted,
    /// Refused.
    Refused,
    /// Failed, or out of steps.
    Failed,
    /// Passed over.
    Skipped,
}
