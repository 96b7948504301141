//! Right logs: which texts they are, what they claim, and that the claims hold.
//!
//! A log is read line by line. Between two lines stand the history so far and the block so far; each line continues the
//! block, ends it with a claim, or ends the log. What a rule line may say is the one definition of the rules of the log.
//! Each claim of a text before its first wrong line holds in the history that the claims before it make: a lemma is
//! derivable, a definition meets the Definition Principle, a shell the Shell Principle (`right_claims`).
//!
//! A checker keeps one place and the claims so far, by the laws of `reader`; a writer keeps the state of the block that it writes, by
//! the laws of `log_growth`. Neither speaks of derivations.
#![tactic(auto)]

ghost use Rattle.nq_log.specs.Laws.{RightClaims, NarrowClaims, StepsIgnoreClasses};
ghost use Rattle.nq_log.specs.Growing.{OneMoreLine, ClosingLine, OneMoreBlock, MoreText, OneMoreClaim};
ghost use Rattle.nq_log.specs.Blocks.{OneCut, NoCut, OneBlock, OneLog};
ghost use Rattle.nq_log.specs.Readers.{ReaderBegins, ReaderTakes, ReaderMoves, ReaderClaims, ReaderStops, ReaderEnds};
ghost use Rattle.nq_log.specs.Streams.{LineMoves, TextEnds, NothingFollows, LineIsRead, NoLineIsRead};

use nq_arith::full_soundness;

/// Whatever text is read as a log, each of its claims before its first wrong line holds in the history that the claims
/// before it make. So it is where fewer lines are allowed than in a log.
pub fn right_claims()
    ensures right { RightClaims }
    ensures narrow { NarrowClaims }
{
    full_soundness();
}

/// Rule classes change nothing of what a line leads to: a log does not tell them.
pub fn rule_classes()
    ensures { StepsIgnoreClasses }
{}

/// A text is cut at its line feeds.
pub fn one_cut()
    ensures line { OneCut }
    ensures rest { NoCut }
{}

/// A text is read from its front, from one place between two lines to the next: each line moves the place, perhaps with a
/// claim, or is the first wrong one.
pub fn line_by_line()
    ensures moves { LineMoves }
    ensures ends { TextEnds }
    ensures nothing_follows { NothingFollows }
    ensures read { LineIsRead }
    ensures not_read { NoLineIsRead }
{}

/// What a reader knows that has taken a part of a log goes on with each byte that it takes and each line that it reads.
pub fn reader()
    ensures begins { ReaderBegins }
    ensures takes { ReaderTakes }
    ensures moves { ReaderMoves }
    ensures claims { ReaderClaims }
    ensures stops { ReaderStops }
    ensures ends { ReaderEnds }
{}

/// A block whose lines end in a claim is read as that claim.
pub fn one_block()
    ensures { OneBlock }
{}

/// The text of blocks that end in claims is a right log with these claims.
pub fn one_log()
    ensures { OneLog }
{}

/// A log grows at its end by lines, closing lines and blocks, and its text with it.
pub fn log_growth()
    ensures line { OneMoreLine }
    ensures closing { ClosingLine }
    ensures block { OneMoreBlock }
    ensures text { MoreText }
{}

/// The claims of a reading that goes on stand behind those so far.
pub fn one_more_claim()
    ensures { OneMoreClaim }
{}
