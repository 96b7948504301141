//! What a log can spell: the terms and the events of forms that are read of a text. And that the text of a term over the
//! functions of a run's history is read back as that term. Laws, no code.
#![tactic(auto)]

ghost use Rattle.nq_spelling.specs.ReadBack.{FormsGrowHistories, GrownIsUsable, PrintedIsReadBack};
ghost use Rattle.nq_spelling.specs.SpelledEvents.{EventsAreSpelled, FewNamesBegin, FewNamesGrow, FewNamesStay, ShellsBringFewNames};
ghost use Rattle.nq_spelling.specs.SpelledTerms.{TermsAreSpelled, DefinitionTermsAreSpelled};

/// The variables of a term whose form is spelled and isn't refused are such as a log can spell.
pub fn terms_are_spelled()
    ensures in_history { TermsAreSpelled }
    ensures in_definition { DefinitionTermsAreSpelled }
{}

/// A log can spell the event of a form that is spelled and isn't refused, in a history that has not too many names.
pub fn events_are_spelled()
    ensures events { EventsAreSpelled }
    ensures begin { FewNamesBegin }
    ensures grow { FewNamesGrow }
    ensures shells { ShellsBringFewNames }
    ensures stay { FewNamesStay }
{}

/// The histories of a run grow by events whose functions have new, unreserved names that are symbols in upper case. The text of
/// a term over the functions of such a history spells one form, whose translation in that history is the term.
pub fn printed_is_read_back()
    ensures grow { FormsGrowHistories }
    ensures usable { GrownIsUsable }
    ensures back { PrintedIsReadBack }
{}
