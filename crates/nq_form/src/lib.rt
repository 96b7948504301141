//! Forms as trees, the grammar of their texts, and their spelling. Definitions and laws, no code.
//!
//! Read `specs/Form` first, then `Bytes`, `Token`, `Blank` and `Grammar`: together they say which forms
//! a text has and how it ends. The laws below say that every text has a reading and only one, that
//! texts join, and that the spelling of a form is read as that form. `Machine` is how a program reads.
#![tactic(auto)]

ghost use Rattle.nq_form.specs.Examples.{Examples};
ghost use Rattle.nq_form.specs.Grammar.{EveryTextReads, Joins, OneReading};
ghost use Rattle.nq_form.specs.Spelling.{SpellingIsRead};
ghost use Rattle.nq_form.specs.Widths.{ListsAreNarrow};

/// A text has one list of forms, and one ending.
pub fn texts_have_one_reading()
    ensures { OneReading }
{}

/// Texts that stand one behind the other have the forms of both.
pub fn texts_join()
    ensures { Joins }
{}

/// The spelling of a form is a text of that form alone.
pub fn spelling_is_read()
    ensures { SpellingIsRead }
{}

/// Every text has a reading.
pub fn every_text_reads()
    ensures { EveryTextReads }
{}

/// Some texts and their readings.
pub fn examples_are_read()
    ensures { Examples }
{}

/// No list has more forms than its text has bytes.
pub fn lists_are_narrow()
    ensures { ListsAreNarrow }
{}
