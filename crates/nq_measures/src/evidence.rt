//! The lines of a measure that admits a definition.

/// The lines by which a measure admits a definition.
#[derive(Drop)]
pub struct Evidence {
    /// The line that shows that the measure is an ordinal.
    pub ordinal: u64,
    /// The lines that show that it falls, one for each call.
    pub falls: Vec<u64>,
}
