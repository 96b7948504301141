//! Why a trial tells nothing.

/// Why a value isn't found.
#[derive(Clone, Copy, Debug, PartialEq, Eq)]
pub enum Stuck {
    /// It takes too many steps, or is no small value, or a function has no definition.
    Over,
    /// Memory is wanting.
    Memory,
}
