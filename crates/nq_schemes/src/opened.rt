use nq_bank::TermId;

/// A call and the body of its function with the call's arguments in place of the formals.
#[derive(Clone, Copy, Debug, PartialEq, Eq)]
pub struct Opened {
    /// The call.
    pub call: TermId,
    /// The body's instance.
    pub body: TermId,
}
