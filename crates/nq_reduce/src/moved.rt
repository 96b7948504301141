//! What a call comes to after its argument was replaced by an equal one.
ghost use Rattle.std.specs.Prelude.{◌≡◌, IfOk, Err};
ghost use Rattle.nq_bank.specs.Content.{term_at, terms_at};
ghost use Rattle.nq_kernel.specs.Growing.{WorkGrows};
ghost use Rattle.nq_reduce.specs.Rewriting.{CanRewrite, IsRewritten};

use crate::recognizing::by_kind;
use crate::results::Rewritten;
use crate::shells::by_shell;
use nq_bank::TermId;
use nq_history::History;
use nq_kernel::{Stop, Work};

/// Which step is the last.
#[derive(Clone, Copy, Debug, PartialEq, Eq)]
pub enum Last {
    /// A recognizer of another kind.
    Kind,
    /// A part of an object.
    Part,
}

/// The last step.
pub fn last_step(
    work: &mut Work,
    history: &History,
    assumed: &[TermId],
    last: Last,
    t: TermId,
) -> Result<Rewritten, Stop>
    requires can { CanRewrite history.now work.old assumed.now t }
    ensures ok { IfOk result (λ r. IsRewritten history.now work.new (terms_at work.old.bank assumed.now) (term_at work.old.bank t) r) }
    ensures grows { WorkGrows history.now work.old work.new }
    ensures out { result ≡ Err Stop.OutOfSteps → work.new.counter.used ≡ work.new.counter.limit }
{
    match last {
        Last::Kind => by_kind(work, history, assumed, t),
        Last::Part => by_shell(work, history, assumed, t),
    }
}
