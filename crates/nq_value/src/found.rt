//! What a row gives, before it stands in the bank.

use nq_bank::TermId;

/// What a row gives.
#[derive(Clone, Copy, Debug, PartialEq, Eq)]
pub enum Found {
    /// T or F.
    Truth(bool),
    /// A numeral.
    Number(u128),
    /// A term that stands.
    Known(TermId),
    /// `(MINUS 0)`.
    MinusZero,
    /// Nothing, as a number would reach 2^128.
    Passes,
    /// Nothing, as the table has no row.
    NotBuiltIn,
}
