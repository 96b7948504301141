//! What rewrites a literal of a goal.
ghost use Rattle.std.specs.Prelude.{◌≡◌, All, IfOk, IfSome, Err};
ghost use Rattle.nq_bank.specs.Content.{term_at, terms_at};
ghost use Rattle.nq_history.specs.Events.{events_at};
ghost use Rattle.nq_kernel.specs.Growing.{WorkStands, WorkGrows};
ghost use Rattle.nq_lines.specs.Lines.{IsTermIn};
ghost use Rattle.nq_lines.specs.OwnTerms.{HasOwnTerms};
ghost use Rattle.nq_simplify.specs.Simplified.{IsNewLiteral};

use nq_bank::TermId;
use nq_history::History;
use nq_kernel::{Stop, Work};

/// A literal in the place of another.
#[derive(Clone, Copy)]
pub struct NewLiteral {
    /// The new literal.
    pub term: TermId,
    /// A line with only the equation of the old and the new one, and other literals of the goal.
    pub line: u64,
}

/// What rewrites a literal under the negations of the other literals of its goal.
pub trait Rewriter {
    /// The literal that is to stand in the place of one, with a line that shows why; none where nothing is to change. The
    /// line has only their equation, and negations of assumptions, which are other literals of the goal.
    fn rewrite(
        &mut self,
        work: &mut Work,
        history: &History,
        others: &[TermId],
        literal: TermId,
    ) -> Result<Option<NewLiteral>, Stop>
        requires stands { WorkStands history.now work.old }
        requires ready { HasOwnTerms (events_at work.old.bank history.now) }
        requires others { All (IsTermIn history.now work.old) others.now }
        requires literal { IsTermIn history.now work.old literal }
        ensures new { IfOk result (λ o. IfSome o (λ r. IsNewLiteral history.now work.new (terms_at work.old.bank others.now) (term_at work.old.bank literal) r)) }
        ensures grows { WorkGrows history.now work.old work.new }
        ensures out { result ≡ Err Stop.OutOfSteps → work.new.counter.used ≡ work.new.counter.limit };
}
