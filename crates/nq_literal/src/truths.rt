//! The literal T: a goal that has it is closed at once.
ghost use Rattle.std.specs.Prelude.{◌≡◌, ◌∷◌, [], All, IfOk, IfSome, IsTrue, Err};
ghost use Rattle.nq_logic.specs.Terms.{IsAmong};
ghost use Rattle.nq_logic.specs.Words.{true_term};
ghost use Rattle.nq_bank.specs.Content.{term_at, terms_at};
ghost use Rattle.nq_kernel.specs.Growing.{WorkGrows, WorkStands};
ghost use Rattle.nq_lines.specs.Lines.{IsTermIn, LineHasOnly};
ghost use Rattle.nq_simplify.specs.Simplified.{IsNewLiteral};

use nq_bank::{Bank, TermId};
use nq_history::History;
use nq_kernel::{Stop, Work};
use nq_lines::{from_equal_true, is_same, reflexive, truth};
use nq_simplify::NewLiteral;

/// Is a term among these?
fn is_among(bank: &Bank, these: &[TermId], t: TermId) -> bool
    ensures { IsTrue result → IsAmong (term_at bank.now t) (terms_at bank.now these.now) }
{
    let _ = bank.alloc();
    for a in these {
        if a.0 == t.0 {
            return true;
        }
    }
    false
}

/// T in the place of a literal, where T is that literal or stands beside it. For the goal that closes it.
pub fn closed_by_truth(
    work: &mut Work,
    history: &History,
    others: &[TermId],
    literal: TermId,
) -> Result<Option<NewLiteral>, Stop>
    requires stands { WorkStands history.now work.old }
    requires others { All (IsTermIn history.now work.old) others.now }
    requires literal { IsTermIn history.now work.old literal }
    ensures new { IfOk result (λ o. IfSome o (λ r. IsNewLiteral history.now work.new (terms_at work.old.bank others.now) (term_at work.old.bank literal) r)) }
    ensures grows { WorkGrows history.now work.old work.new }
    ensures out { result ≡ Err Stop.OutOfSteps → work.new.counter.used ≡ work.new.counter.limit }
{
    let yes = truth(work, history)?;
    if is_same(literal, yes) {
        let new = truth_itself(work, history, others, yes)?;
        Ok(Some(new))
    } else if is_among(&work.bank, others, yes) {
        let new = truth_beside(work, history, others, literal, yes)?;
        Ok(Some(new))
    } else {
        Ok(None)
    }
}

/// T in the place of T.
fn truth_itself(
    work: &mut Work,
    history: &History,
    others: &[TermId],
    yes: TermId,
) -> Result<NewLiteral, Stop>
    requires stands { WorkStands history.now work.old }
    requires truth { IsTermIn history.now work.old yes }
    ensures new { IfOk result (IsNewLiteral history.now work.new (terms_at work.old.bank others.now) (term_at work.old.bank yes)) }
    ensures grows { WorkGrows history.now work.old work.new }
    ensures out { result ≡ Err Stop.OutOfSteps → work.new.counter.used ≡ work.new.counter.limit }
{
    let line = reflexive(work, history, yes)?;
    Ok(NewLiteral { term: yes, line })
}

/// T in the place of a literal that it stands beside.
fn truth_beside(
    work: &mut Work,
    history: &History,
    others: &[TermId],
    literal: TermId,
    yes: TermId,
) -> Result<NewLiteral, Stop>
    requires stands { WorkStands history.now work.old }
    requires truth { IsTermIn history.now work.old yes }
    requires is { term_at work.old.bank yes ≡ true_term }
    requires among { IsAmong (term_at work.old.bank yes) (terms_at work.old.bank others.now) }
    ensures new { IfOk result (IsNewLiteral history.now work.new (terms_at work.old.bank others.now) (term_at work.old.bank literal)) }
    ensures grows { WorkGrows history.now work.old work.new }
    ensures out { result ≡ Err Stop.OutOfSteps → work.new.counter.used ≡ work.new.counter.limit }
{
    let line = line_of_truth(work, history, yes)?;
    Ok(NewLiteral { term: yes, line })
}

/// The line of T.
fn line_of_truth(work: &mut Work, history: &History, yes: TermId) -> Result<u64, Stop>
    requires stands { WorkStands history.now work.old }
    requires truth { IsTermIn history.now work.old yes }
    requires is { term_at work.old.bank yes ≡ true_term }
    ensures line { IfOk result (λ n. LineHasOnly work.new n (term_at work.old.bank yes ∷ [])) }
    ensures grows { WorkGrows history.now work.old work.new }
    ensures out { result ≡ Err Stop.OutOfSteps → work.new.counter.used ≡ work.new.counter.limit }
{
    let same = reflexive(work, history, yes)?;
    from_equal_true(work, history, yes, same)
}
