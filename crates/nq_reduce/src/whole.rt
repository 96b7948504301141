//! An IF whose branches were rewritten.
ghost use Rattle.std.specs.Prelude.{◌≡◌, ◌∷◌, IfOk, Err, Some};
ghost use Rattle.nq_logic.specs.Words.{not_term, if_term};
ghost use Rattle.nq_bank.specs.Content.{IsIdOf, term_at, terms_at};
ghost use Rattle.nq_kernel.specs.Growing.{WorkStands, WorkGrows};
ghost use Rattle.nq_lines.specs.Lines.{IsTermIn};
ghost use Rattle.nq_reduce.specs.Rewriting.{CanRewrite, IsBranch, IsRewritten};
ghost use Rattle.nq_instances.specs.Parts.{IsIfOf};

use crate::branches::with_more;
use crate::joining::joined;
use crate::knowledge::Known;
use crate::results::{Rewritten, unchanged};
use nq_bank::{TermId, ground, ground_name};
use nq_history::History;
use nq_kernel::{Stop, Work};
use nq_lines::{cut, opposites};
use nq_rule::Branches;

/// The IF of three terms.
fn if_call(
    work: &mut Work,
    history: &History,
    p: TermId,
    x: TermId,
    y: TermId,
) -> Result<TermId, Stop>
    requires stands { WorkStands history.now work.old }
    requires test { IsTermIn history.now work.old p }
    requires first { IsTermIn history.now work.old x }
    requires second { IsTermIn history.now work.old y }
    ensures call { IfOk result (λ t. IsIdOf work.new.bank t (if_term (term_at work.old.bank p) (term_at work.old.bank x) (term_at work.old.bank y))) }
    ensures over { IfOk result (λ t. IsTermIn history.now work.new t) }
    ensures grows { WorkGrows history.now work.old work.new }
    ensures out { result ≡ Err Stop.OutOfSteps → work.new.counter.used ≡ work.new.counter.limit }
{
    let name = ground_name(&work.bank, ground::IF);
    work.app(history, name, &[p, x, y])
}

/// Where one more term is assumed, an IF is the other one.
fn under(
    work: &mut Work,
    history: &History,
    assumed: &[TermId],
    more: TermId,
    value: bool,
    t: TermId,
    parts: Branches,
    test: Rewritten,
    branch: Rewritten,
    other: TermId,
    news: Branches,
) -> Result<Rewritten, Stop>
    requires { IsBranch history.now work.old assumed.now more value t parts test branch other news }
    ensures ok { IfOk result (λ r. IsRewritten history.now work.new (term_at work.old.bank more ∷ terms_at work.old.bank assumed.now) (term_at work.old.bank t) r) }
    ensures same { IfOk result (λ r. r.term ≡ other) }
    ensures grows { WorkGrows history.now work.old work.new }
    ensures out { result ≡ Err Stop.OutOfSteps → work.new.counter.used ≡ work.new.counter.limit }
{
    let all = with_more(work, more, assumed)?;
    let line = opposites(work, history, more)?;
    let known = Known { value, line };
    joined(
        work,
        history,
        all.as_slice(),
        t,
        parts,
        test,
        known,
        branch,
        other,
        news,
    )
}

/// An IF is the other one, since it is so where its test is true and where it is false.
fn close(
    work: &mut Work,
    history: &History,
    assumed: &[TermId],
    t: TermId,
    test: TermId,
    one: Rewritten,
    denied: TermId,
    two: Rewritten,
    other: TermId,
) -> Result<Rewritten, Stop>
    requires can { CanRewrite history.now work.old assumed.now t }
    requires denied { IsIdOf work.old.bank denied (not_term (term_at work.old.bank test)) }
    requires over { IsTermIn history.now work.old denied }
    requires first { IsRewritten history.now work.old (term_at work.old.bank test ∷ terms_at work.old.bank assumed.now) (term_at work.old.bank t) one }
    requires second { IsRewritten history.now work.old (term_at work.old.bank denied ∷ terms_at work.old.bank assumed.now) (term_at work.old.bank t) two }
    requires first_same { one.term ≡ other }
    requires second_same { two.term ≡ other }
    ensures ok { IfOk result (λ r. IsRewritten history.now work.new (terms_at work.old.bank assumed.now) (term_at work.old.bank t) r) }
    ensures grows { WorkGrows history.now work.old work.new }
    ensures out { result ≡ Err Stop.OutOfSteps → work.new.counter.used ≡ work.new.counter.limit }
{
    match one.line {
        None => Ok(one),
        Some(first) => close_both(
            work, history, assumed, t, test, one, first, denied, two, other,
        ),
    }
}

/// The same, where the first case has a line.
fn close_both(
    work: &mut Work,
    history: &History,
    assumed: &[TermId],
    t: TermId,
    test: TermId,
    one: Rewritten,
    first: u64,
    denied: TermId,
    two: Rewritten,
    other: TermId,
) -> Result<Rewritten, Stop>
    requires can { CanRewrite history.now work.old assumed.now t }
    requires line { one.line ≡ Some first }
    requires denied { IsIdOf work.old.bank denied (not_term (term_at work.old.bank test)) }
    requires over { IsTermIn history.now work.old denied }
    requires first { IsRewritten history.now work.old (term_at work.old.bank test ∷ terms_at work.old.bank assumed.now) (term_at work.old.bank t) one }
    requires second { IsRewritten history.now work.old (term_at work.old.bank denied ∷ terms_at work.old.bank assumed.now) (term_at work.old.bank t) two }
    requires first_same { one.term ≡ other }
    requires second_same { two.term ≡ other }
    ensures ok { IfOk result (λ r. IsRewritten history.now work.new (terms_at work.old.bank assumed.now) (term_at work.old.bank t) r) }
    ensures grows { WorkGrows history.now work.old work.new }
    ensures out { result ≡ Err Stop.OutOfSteps → work.new.counter.used ≡ work.new.counter.limit }
{
    match two.line {
        None => Ok(two),
        Some(second) => {
            let line = cut(work, history, first, second, denied)?;
            Ok(Rewritten {
                term: other,
                line: Some(line),
            })
        }
    }
}

/// Has nothing changed in a test and its branches?
fn is_unchanged(test: Rewritten, first: Rewritten, second: Rewritten) -> bool {
    test.line.is_none() && first.line.is_none() && second.line.is_none()
}

/// An IF whose test was rewritten, and whose branches were, one under the new test and one under the NOT of it.
pub fn join(
    work: &mut Work,
    history: &History,
    assumed: &[TermId],
    t: TermId,
    parts: Branches,
    test: Rewritten,
    first: Rewritten,
    denied: TermId,
    second: Rewritten,
) -> Result<Rewritten, Stop>
    requires can { CanRewrite history.now work.old assumed.now t }
    requires parts { IsIfOf history.now work.old t parts }
    requires test { IsRewritten history.now work.old (terms_at work.old.bank assumed.now) (term_at work.old.bank parts.test) test }
    requires denied { IsIdOf work.old.bank denied (not_term (term_at work.old.bank test.term)) }
    requires over { IsTermIn history.now work.old denied }
    requires first { IsRewritten history.now work.old (term_at work.old.bank test.term ∷ terms_at work.old.bank assumed.now) (term_at work.old.bank parts.first) first }
    requires second { IsRewritten history.now work.old (not_term (term_at work.old.bank test.term) ∷ terms_at work.old.bank assumed.now) (term_at work.old.bank parts.second) second }
    ensures ok { IfOk result (λ r. IsRewritten history.now work.new (terms_at work.old.bank assumed.now) (term_at work.old.bank t) r) }
    ensures grows { WorkGrows history.now work.old work.new }
    ensures out { result ≡ Err Stop.OutOfSteps → work.new.counter.used ≡ work.new.counter.limit }
{
    if is_unchanged(test, first, second) {
        return Ok(unchanged(t));
    }
    let other = if_call(work, history, test.term, first.term, second.term)?;
    let news = Branches {
        test: test.term,
        first: first.term,
        second: second.term,
    };
    let one = under(
        work, history, assumed, test.term, true, t, parts, test, first, other, news,
    )?;
    let two = under(
        work, history, assumed, denied, false, t, parts, test, second, other, news,
    )?;
    close(
        work, history, assumed, t, test.term, one, denied, two, other,
    )
}
