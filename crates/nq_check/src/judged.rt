/// What a line of a log led to.
#[derive(Debug, Drop)]
pub enum Judged {
    /// A condition of the line fails.
    NotAllowed,
    /// The block goes on.
    Continues,
    /// The block ends in a claim, whose line, with its end, is this.
    Claims(Vec<u8>),
    /// The log ends.
    Ends,
}
