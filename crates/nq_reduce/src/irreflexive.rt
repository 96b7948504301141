//! No number is less than itself.
ghost use Rattle.std.specs.Prelude.{◌≡◌, ◌∷◌, [], All, IfOk, IfSome, Err};
ghost use Rattle.nq_logic.specs.Words.{not_term};
ghost use Rattle.nq_bank.specs.Content.{IsIdOf, Stands, term_at, terms_at};
ghost use Rattle.nq_kernel.specs.Growing.{WorkGrows, WorkStands};
ghost use Rattle.nq_lines.specs.Lines.{IsTermIn, LineHasOnly};
ghost use Rattle.nq_reduce.specs.Rewriting.{CanRewrite, IsRewritten, denials};

use crate::assumptions::false_by_line;
use crate::results::{Rewritten, unchanged};
use nq_bank::{Bank, TermId, ground};
use nq_history::History;
use nq_kernel::{Stop, Work};
use nq_linear::{LinearAnswer, refute};
use nq_lines::deny;
use nq_rules::two_of;

/// Does a term say that something is less than itself?
fn says_less_than_itself(bank: &Bank, t: TermId) -> bool
    requires { Stands bank.now t }
{
    match two_of(bank, ground::LESSP, t) {
        Some((left, right)) => left.0 == right.0,
        None => false,
    }
}

/// `(LESSP A A)` is F.
pub fn by_irreflexivity(
    work: &mut Work,
    history: &History,
    assumed: &[TermId],
    t: TermId,
) -> Result<Rewritten, Stop>
    requires can { CanRewrite history.now work.old assumed.now t }
    ensures ok { IfOk result (λ r. IsRewritten history.now work.new (terms_at work.old.bank assumed.now) (term_at work.old.bank t) r) }
    ensures grows { WorkGrows history.now work.old work.new }
    ensures out { result ≡ Err Stop.OutOfSteps → work.new.counter.used ≡ work.new.counter.limit }
{
    if says_less_than_itself(&work.bank, t) {
        refuted_alone(work, history, assumed, t)
    } else {
        Ok(unchanged(t))
    }
}

/// A term is F where linear arithmetic refutes it.
fn refuted_alone(
    work: &mut Work,
    history: &History,
    assumed: &[TermId],
    t: TermId,
) -> Result<Rewritten, Stop>
    requires can { CanRewrite history.now work.old assumed.now t }
    ensures ok { IfOk result (λ r. IsRewritten history.now work.new (terms_at work.old.bank assumed.now) (term_at work.old.bank t) r) }
    ensures grows { WorkGrows history.now work.old work.new }
    ensures out { result ≡ Err Stop.OutOfSteps → work.new.counter.used ≡ work.new.counter.limit }
{
    match denial_line(work, history, t)? {
        Some(line) => false_by_line(work, history, assumed, t, line),
        None => Ok(unchanged(t)),
    }
}

/// The line of the NOT of a term, where linear arithmetic has one.
fn denial_line(work: &mut Work, history: &History, t: TermId) -> Result<Option<u64>, Stop>
    requires stands { WorkStands history.now work.old }
    requires term { IsTermIn history.now work.old t }
    ensures line { IfOk result (λ found. IfSome found (λ n. LineHasOnly work.new n (not_term (term_at work.old.bank t) ∷ []))) }
    ensures grows { WorkGrows history.now work.old work.new }
    ensures out { result ≡ Err Stop.OutOfSteps → work.new.counter.used ≡ work.new.counter.limit }
{
    let denial = deny(work, history, t)?;
    line_of_literal(work, history, denial)
}

/// The line of one literal, where linear arithmetic has one.
fn line_of_literal(work: &mut Work, history: &History, literal: TermId) -> Result<Option<u64>, Stop>
    requires stands { WorkStands history.now work.old }
    requires literal { IsTermIn history.now work.old literal }
    ensures line { IfOk result (λ found. IfSome found (λ n. LineHasOnly work.new n (term_at work.old.bank literal ∷ []))) }
    ensures grows { WorkGrows history.now work.old work.new }
    ensures out { result ≡ Err Stop.OutOfSteps → work.new.counter.used ≡ work.new.counter.limit }
{
    match refute(work, history, &[literal])? {
        LinearAnswer::Refuted(line) => Ok(Some(line)),
        LinearAnswer::Nothing => Ok(None),
        LinearAnswer::Passes(_, _) => Ok(None),
        LinearAnswer::Wide(_) => Ok(None),
        LinearAnswer::TooMany => Ok(None),
    }
}
