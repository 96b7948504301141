ghost use Rattle.std.specs.Prelude.{◌≡◌};
ghost use Rattle.nq_comment.specs.ReportViews.{answer_of};
ghost use Rattle.nq_comment.specs.Reports.{kind_of};

use crate::kind::Kind;
use crate::step::{Cause, ShownStep};

/// The fragment in which a lemma was proved without a search.
#[derive(Clone, Copy, Debug, PartialEq, Eq)]
pub enum Quick {
    /// A small tautology.
    Taut,
    /// A ground term with a value.
    Eval,
    /// An instance of an earlier axiom or lemma.
    Inst,
}

/// Why a form was refused.
#[derive(Drop)]
pub struct Refusal {
    /// The number of the refusal.
    pub code: u64,
    /// Its words, of which the first is its name.
    pub words: Vec<Vec<u8>>,
}

/// A measure that was tried of a recursive definition and is not proved, as its line tells it.
#[derive(Drop)]
pub struct Trial {
    /// The text of the measure.
    pub measure: Vec<u8>,
    /// The text of its first obligation that is not proved.
    pub goal: Vec<u8>,
    /// Whether the steps ran out at it.
    pub out_of_steps: bool,
}

/// What a form is answered.
#[derive(Drop)]
pub enum FormAnswer {
    /// The event was taken, and needed no proof.
    Accepted,
    /// The recursive definition has the measure of this place among those that are tried, counted from 0, with this text.
    AcceptedBy(u64, Vec<u8>),
    /// No measure of the recursive definition is proved; each that was tried is told.
    Unmeasured(Vec<Trial>),
    /// So many events are gone.
    Undone(u64),
    /// The form was passed over.
    Skipped,
    /// The lemma was proved without a search.
    Proved(Quick),
    /// The lemma was proved by moves from the goal of this text; the steps are goals that the proof used.
    ProvedFrom(Vec<u8>, Vec<ShownStep>),
    /// The steps lead from the goal of this text to one that is left over for the cause.
    Failed(Vec<u8>, Vec<ShownStep>, Cause),
    /// The step limit was reached.
    OutOfSteps,
    /// The form was refused, for this.
    Refused(Refusal),
}

impl FormAnswer {
    /// As what the summary counts a form of this answer.
    pub fn kind(&self) -> Kind
        ensures { result ≡ kind_of (answer_of self.now) }
    {
        match self {
            FormAnswer::Accepted => Kind::Accepted,
            FormAnswer::AcceptedBy(_, _) => Kind::Accepted,
            FormAnswer::Unmeasured(_) => Kind::Refused,
            FormAnswer::Undone(_) => Kind::Accepted,
            FormAnswer::Proved(_) => Kind::Accepted,
            FormAnswer::ProvedFrom(_, _) => Kind::Accepted,
            FormAnswer::Failed(_, _, _) => Kind::Failed,
            FormAnswer::OutOfSteps => Kind::Failed,
            FormAnswer::Refused(_) => Kind::Refused,
            FormAnswer::Skipped => Kind::Skipped,
        }
    }
}
