//! What is left of a measure that is not proved.
ghost use Rattle.std.specs.Prelude.{◌≡◌, IfErr, IfOk, Some};
ghost use Rattle.nq_measures.specs.Judging.{is_want};
ghost use Rattle.nq_measures.specs.Trials.{line_of};

use crate::judging::{Judged, Why};
use nq_bank::TermId;

/// The first obligation of a measure that is not proved.
#[derive(Drop)]
pub struct Left {
    /// The measure.
    pub measure: TermId,
    /// The literals of the obligation.
    pub literals: Vec<TermId>,
    /// Whether the steps ran out at it.
    pub out_of_steps: bool,
}

/// Is it for want of steps? A term that is too deep takes all that are left.
fn is_want(why: &Why) -> bool
    ensures { result ≡ is_want why.now }
{
    match why {
        Why::OutOfSteps => true,
        Why::TooDeep => true,
        Why::Mentions => false,
        Why::Failed(_, _) => false,
        Why::NotYet(_) => false,
    }
}

/// The line of an obligation of a measure, or that it is left.
pub(crate) fn told(judged: Judged, measure: TermId, literals: Vec<TermId>) -> Result<u64, Left>
    ensures shown { IfOk result (λ n. line_of judged ≡ Some n) }
    ensures measure { IfErr result (λ l. l.measure ≡ measure) }
    ensures literals { IfErr result (λ l. l.literals ≡ literals) }
{
    match judged {
        Judged::Shown(line) => Ok(line),
        Judged::Open(why) => Err(Left {
            measure,
            literals,
            out_of_steps: is_want(&why),
        }),
    }
}
