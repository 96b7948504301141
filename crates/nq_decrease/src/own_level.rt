//! Parts of users' shells' values, and the tests under which they are smaller.

use crate::own_tests::OwnGuard;

/// A part of a user's shell's value, and how the tests say that the constructor made the value.
#[derive(Clone, Copy, Debug, PartialEq, Eq)]
pub struct OwnLevel {
    /// The place of the part, counted from 0.
    pub place: usize,
    /// How the tests say it.
    pub guard: OwnGuard,
}
