//! Terms whose NOT is assumed: they are F.
ghost use Rattle.std.specs.Prelude.{◌≡◌, ◌∷◌, IfOk, Err};
ghost use Rattle.nq_logic.specs.Words.{not_term};
ghost use Rattle.nq_bank.specs.Content.{term_at, terms_at};
ghost use Rattle.nq_kernel.specs.Growing.{WorkGrows};
ghost use Rattle.nq_lines.specs.Lines.{LineHasOnly};
ghost use Rattle.nq_reduce.specs.Rewriting.{CanRewrite, IsKnown, IsRewritten, denials};

use crate::knowledge::{Known, known_false};
use crate::results::{Rewritten, unchanged};
use nq_bank::TermId;
use nq_history::History;
use nq_kernel::{Stop, Work};
use nq_lines::{equal_false, falsity};

/// A term whose NOT is assumed is F.
pub fn by_assumption(
    work: &mut Work,
    history: &History,
    assumed: &[TermId],
    t: TermId,
) -> Result<Rewritten, Stop>
    requires can { CanRewrite history.now work.old assumed.now t }
    ensures ok { IfOk result (λ r. IsRewritten history.now work.new (terms_at work.old.bank assumed.now) (term_at work.old.bank t) r) }
    ensures grows { WorkGrows history.now work.old work.new }
    ensures out { result ≡ Err Stop.OutOfSteps → work.new.counter.used ≡ work.new.counter.limit }
{
    match known_false(work, history, assumed, t)? {
        Some(known) => false_where_known(work, history, assumed, t, known),
        None => Ok(unchanged(t)),
    }
}

/// A term that is known to be false is F.
pub fn false_where_known(
    work: &mut Work,
    history: &History,
    assumed: &[TermId],
    t: TermId,
    known: Known,
) -> Result<Rewritten, Stop>
    requires can { CanRewrite history.now work.old assumed.now t }
    requires known { IsKnown work.old (terms_at work.old.bank assumed.now) (term_at work.old.bank t) known }
    ensures ok { IfOk result (λ r. IsRewritten history.now work.new (terms_at work.old.bank assumed.now) (term_at work.old.bank t) r) }
    ensures grows { WorkGrows history.now work.old work.new }
    ensures out { result ≡ Err Stop.OutOfSteps → work.new.counter.used ≡ work.new.counter.limit }
{
    if known.value {
        Ok(unchanged(t))
    } else {
        false_by_line(work, history, assumed, t, known.line)
    }
}

/// A term that a line shows to be false is F. F itself stays.
pub fn false_by_line(
    work: &mut Work,
    history: &History,
    assumed: &[TermId],
    t: TermId,
    line: u64,
) -> Result<Rewritten, Stop>
    requires can { CanRewrite history.now work.old assumed.now t }
    requires line { LineHasOnly work.old line (not_term (term_at work.old.bank t) ∷ denials (terms_at work.old.bank assumed.now)) }
    ensures ok { IfOk result (λ r. IsRewritten history.now work.new (terms_at work.old.bank assumed.now) (term_at work.old.bank t) r) }
    ensures grows { WorkGrows history.now work.old work.new }
    ensures out { result ≡ Err Stop.OutOfSteps → work.new.counter.used ≡ work.new.counter.limit }
{
    let f = falsity(work, history)?;
    if f.0 == t.0 {
        return Ok(unchanged(t));
    }
    let n = equal_false(work, history, t, line)?;
    Ok(Rewritten {
        term: f,
        line: Some(n),
    })
}
