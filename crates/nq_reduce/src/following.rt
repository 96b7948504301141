//! One rewriting after another.
ghost use Rattle.std.specs.Prelude.{◌≡◌, IfOk, Err};
ghost use Rattle.nq_bank.specs.Content.{term_at, terms_at};
ghost use Rattle.nq_kernel.specs.Growing.{WorkGrows};
ghost use Rattle.nq_lines.specs.Lines.{IsTermIn};
ghost use Rattle.nq_reduce.specs.Rewriting.{CanRewrite, IsRewritten, ShowsEqual};

use crate::results::Rewritten;
use nq_bank::TermId;
use nq_history::History;
use nq_kernel::{Stop, Work};
use nq_lines::transitive;

/// What t is rewritten to by one rewriting, and then by another.
pub fn follow(
    work: &mut Work,
    history: &History,
    assumed: &[TermId],
    t: TermId,
    first: Rewritten,
    second: Rewritten,
) -> Result<Rewritten, Stop>
    requires can { CanRewrite history.now work.old assumed.now t }
    requires first { IsRewritten history.now work.old (terms_at work.old.bank assumed.now) (term_at work.old.bank t) first }
    requires second { IsRewritten history.now work.old (terms_at work.old.bank assumed.now) (term_at work.old.bank first.term) second }
    ensures ok { IfOk result (λ r. IsRewritten history.now work.new (terms_at work.old.bank assumed.now) (term_at work.old.bank t) r) }
    ensures last { IfOk result (λ r. r.term ≡ second.term) }
    ensures grows { WorkGrows history.now work.old work.new }
    ensures out { result ≡ Err Stop.OutOfSteps → work.new.counter.used ≡ work.new.counter.limit }
{
    match first.line {
        None => Ok(second),
        Some(one) => follow_shown(work, history, assumed, t, first.term, one, second),
    }
}

/// The same, where the first rewriting has a line.
fn follow_shown(
    work: &mut Work,
    history: &History,
    assumed: &[TermId],
    t: TermId,
    middle: TermId,
    one: u64,
    second: Rewritten,
) -> Result<Rewritten, Stop>
    requires can { CanRewrite history.now work.old assumed.now t }
    requires middle { IsTermIn history.now work.old middle }
    requires first { ShowsEqual work.old one (terms_at work.old.bank assumed.now) (term_at work.old.bank t) (term_at work.old.bank middle) }
    requires second { IsRewritten history.now work.old (terms_at work.old.bank assumed.now) (term_at work.old.bank middle) second }
    ensures ok { IfOk result (λ r. IsRewritten history.now work.new (terms_at work.old.bank assumed.now) (term_at work.old.bank t) r) }
    ensures last { IfOk result (λ r. r.term ≡ second.term) }
    ensures grows { WorkGrows history.now work.old work.new }
    ensures out { result ≡ Err Stop.OutOfSteps → work.new.counter.used ≡ work.new.counter.limit }
{
    match second.line {
        None => Ok(Rewritten {
            term: second.term,
            line: Some(one),
        }),
        Some(two) => {
            let n = transitive(work, history, t, middle, second.term, one, two)?;
            Ok(Rewritten {
                term: second.term,
                line: Some(n),
            })
        }
    }
}
