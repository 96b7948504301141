//! What the answers of this crate rest on.
ghost use Rattle.nq_calls.specs.Laws.{ApartIfUnused, CountedObligations, SmallerMentions};

/// A name that is not in use is none of those that stand in numerals and in denials. It does nothing.
pub fn apart_if_unused()
    ensures { ApartIfUnused }
{}

/// The obligation of a counted call is that of the Definition Principle. It does nothing.
pub fn counted_obligations()
    ensures { CountedObligations }
{}

/// Where the measure at the arguments of a call mentions the function. It does nothing.
pub fn smaller_mentions()
    ensures { SmallerMentions }
{}
