//! Rewritten arguments.
ghost use Rattle.std.specs.Prelude.{◌≡◌, IfOk, IfSome, Err};
ghost use Rattle.nq_bank.specs.Content.{Stands, term_at, terms_at};
ghost use Rattle.nq_kernel.specs.Growing.{WorkGrows, WorkStands};
ghost use Rattle.nq_lines.specs.Lines.{IsTermIn};
ghost use Rattle.nq_reduce.specs.Rewriting.{CanRewrite, IsArgument, IsRewritten, ShowsEqual};

use crate::results::{Rewritten, unchanged};
use nq_bank::{Bank, TermId};
use nq_history::History;
use nq_kernel::{Stop, Work};

/// How many arguments a call has.
pub fn argument_count(bank: &Bank, t: TermId) -> usize
    requires { Stands bank.now t }
{
    bank.args(t).len()
}

/// The argument at a place of a call, counted from 1.
pub fn argument_of(work: &Work, history: &History, t: TermId, place: usize) -> Option<TermId>
    requires stands { WorkStands history.now work.now }
    requires term { IsTermIn history.now work.now t }
    ensures { IfSome result (IsArgument history.now work.now t place) }
{
    let arguments = work.bank.args(t);
    if place == 0 {
        return None;
    }
    if place > arguments.len() {
        return None;
    }
    Some(arguments[place - 1])
}

/// A call with a rewritten argument.
pub fn congruent(
    work: &mut Work,
    history: &History,
    assumed: &[TermId],
    t: TermId,
    place: usize,
    a: TermId,
    new: Rewritten,
) -> Result<Rewritten, Stop>
    requires can { CanRewrite history.now work.old assumed.now t }
    requires argument { IsArgument history.now work.old t place a }
    requires new { IsRewritten history.now work.old (terms_at work.old.bank assumed.now) (term_at work.old.bank a) new }
    ensures ok { IfOk result (λ r. IsRewritten history.now work.new (terms_at work.old.bank assumed.now) (term_at work.old.bank t) r) }
    ensures grows { WorkGrows history.now work.old work.new }
    ensures out { result ≡ Err Stop.OutOfSteps → work.new.counter.used ≡ work.new.counter.limit }
{
    match new.line {
        None => Ok(unchanged(t)),
        Some(line) => congruent_shown(work, history, assumed, t, place, a, new.term, line),
    }
}

/// The same, where the rewriting of the argument has a line.
fn congruent_shown(
    work: &mut Work,
    history: &History,
    assumed: &[TermId],
    t: TermId,
    place: usize,
    a: TermId,
    u: TermId,
    line: u64,
) -> Result<Rewritten, Stop>
    requires can { CanRewrite history.now work.old assumed.now t }
    requires argument { IsArgument history.now work.old t place a }
    requires new { IsTermIn history.now work.old u }
    requires line { ShowsEqual work.old line (terms_at work.old.bank assumed.now) (term_at work.old.bank a) (term_at work.old.bank u) }
    ensures ok { IfOk result (λ r. IsRewritten history.now work.new (terms_at work.old.bank assumed.now) (term_at work.old.bank t) r) }
    ensures grows { WorkGrows history.now work.old work.new }
    ensures out { result ≡ Err Stop.OutOfSteps → work.new.counter.used ≡ work.new.counter.limit }
{
    let r = nq_lines::congruent(work, history, t, place as u64, u, line)?;
    Ok(Rewritten {
        term: r.term,
        line: Some(r.line),
    })
}
