//! Laws that join the translation to the names in use, and to the texts of terms.
ghost use Rattle.nq_abbrev.specs.Printed.{PrintedIsTranslated};
ghost use Rattle.nq_abbrev.specs.Reserved.{NamesAreCalls};

/// A name that is not reserved means a function.
pub fn names_are_calls()
    ensures { NamesAreCalls }
{}

/// The text of a term is read as one form, and the translation of that form is the term.
pub fn printed_is_translated()
    ensures { PrintedIsTranslated }
{}
