//! The log of rules: lines whose clauses follow from the lines before them.
#![tactic(auto)]

ghost use Rattle.nq_kernel.specs.Laws.{SoundLine, SoundLog};
ghost use Rattle.nq_kernel.specs.ReadyLaws.{ReadyIsClosed, ReadyLemmasHold, ReadyTerms, ReadyDefinitions, NoEventIsReady, OneMoreReadyEvent, ReadyBefore, ReadyGrown, NoLineHolds, GrownWorkHolds};

// rules and lines
mod rule;

// the axioms of a history: its definitions, and all rows
mod axioms;
mod definitions;

// the inductions that lines show
mod inductions;

// the log itself
mod log;

// steps that are counted
mod counter;
mod numbers;

// type prescriptions that lines show
mod prescription;

// work that is counted
mod work;

// what provers answer, and what they are
mod prover;
mod verdict;

pub use counter::Counter;
pub use log::{Log, is_same_clause, mark_of};
use nq_arith::full_soundness;
pub use prescription::Prescription;
pub use prover::Prover;
pub use rule::{Line, Rule};
pub use verdict::{Cause, MoveKind, Path, PathStep, Proof, Quick, Verdict};
pub use work::{Stop, Work};

/// The line of an allowed rule is derivable where the lines before it are.
pub fn sound_line()
    ensures { SoundLine }
{
    full_soundness();
}

/// Each standing line is derivable of a log that grew from the empty log by rules over the history's functions.
pub fn sound_log()
    ensures { SoundLog }
{
    full_soundness();
}

/// What every prover may assume of a history is so of the empty history, and stays so with a ready event more and before any
/// event. A ready history speaks of its own functions alone, with variables that a log can spell; its lemmas are derivable, and
/// its definitions can be used.
pub fn ready_histories()
    ensures closed { ReadyIsClosed }
    ensures lemmas { ReadyLemmasHold }
    ensures terms { ReadyTerms }
    ensures definitions { ReadyDefinitions }
    ensures none { NoEventIsReady }
    ensures more { OneMoreReadyEvent }
    ensures before { ReadyBefore }
    ensures grown { ReadyGrown }
{}

/// Each standing line of work over a ready history is derivable: of work without lines, and of work that grows from such.
pub fn held_work()
    ensures none { NoLineHolds }
    ensures grown { GrownWorkHolds }
{
    full_soundness();
}
