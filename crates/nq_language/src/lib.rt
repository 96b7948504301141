//! What forms mean: the terms for which forms stand, the forms that are refused, and the texts of terms.
//! Definitions and laws, no code.
//!
//! Read `specs/Abbreviations` and `specs/Translation` for the term of a form, `specs/Refusals` for the first
//! refusal, and `specs/Printing` for the text of a term. The laws say that LET may be read by a scope of bound
//! variables, and that the text of a term is read back as one form, whose translation is the term.
#![tactic(auto)]

ghost use Rattle.nq_language.specs.Scopes.{ScopesAgree, EmptyScope};
ghost use Rattle.nq_language.specs.Depths.{PartsAreShallower};
ghost use Rattle.nq_language.specs.Printing.{PrintedIsRead, PrintedOverSymbols, GroundIsUsable};

/// The term of a form may be made with the terms of bound variables in hand.
pub fn scopes_agree()
    ensures inner { ScopesAgree }
    ensures outer { EmptyScope }
{}

/// A term is deeper than each of its parts that is more than one deep.
pub fn parts_are_shallower()
    ensures { PartsAreShallower }
{}

/// The text of a term spells one form, whose translation is the term.
pub fn printed_is_read()
    ensures any { PrintedIsRead }
    ensures over_symbols { PrintedOverSymbols }
{}

/// The ground symbols meet the conditions of `printed_is_read`.
pub fn ground_is_usable()
    ensures { GroundIsUsable }
{}
