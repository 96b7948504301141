//! A literal under the negations of the others. Of `(NOT a)` the term a is assumed, and of any other literal its NOT.
ghost use Rattle.std.specs.Prelude.{◌≡◌, ◌<◌, ◌++◌, ◌∷◌, All, IfOk, IfSome, Err, length};
ghost use Rattle.nq_logic.specs.Words.{not_term};
ghost use Rattle.nq_bank.specs.Content.{term_at, terms_at};
ghost use Rattle.nq_kernel.specs.Growing.{LineStands, WorkGrows, WorkStands};
ghost use Rattle.nq_lines.specs.Lines.{IsTermIn};
ghost use Rattle.nq_reduce.specs.Rewriting.{CanRewrite, denials};
ghost use Rattle.nq_literal.specs.Literals.{IsDeniedIn, IsRewrittenBeside, Undenies};

use crate::literal::rewrite_literal;
use nq_bank::{TermId, ground};
use nq_history::{Hints, History};
use nq_kernel::{Stop, Work};
use nq_lines::{deny, undeny};
use nq_reduce::{Rewritten, with_more};
use nq_rewrite::Learnt;
use nq_rule_table::Rules;
use nq_rules::one_of;

/// Rewrites a literal under the negations of the others from a place on, where these are assumed too.
#[cycle(assuming)]
pub fn rewrite_from(
    work: &mut Work,
    history: &History,
    hints: &Hints,
    rules: &Rules,
    learnt: &mut Learnt,
    others: &[TermId],
    place: usize,
    assumed: &[TermId],
    t: TermId,
) -> Result<Rewritten, Stop>
    requires can { CanRewrite history.now work.old assumed.now t }
    requires others { All (IsTermIn history.now work.old) others.now }
    ensures ok { IfOk result (λ r. IsRewrittenBeside history.now work.new (terms_at work.old.bank others.now ++ denials (terms_at work.old.bank assumed.now)) (term_at work.old.bank t) r) }
    ensures grows { WorkGrows history.now work.old work.new }
    ensures out { result ≡ Err Stop.OutOfSteps → work.new.counter.used ≡ work.new.counter.limit }
{
    if place < others.len() {
        rewrite_under(
            work, history, hints, rules, learnt, others, place, assumed, t,
        )
    } else {
        rewrite_literal(work, history, hints, rules, learnt, assumed, t)
    }
}

/// The same, where there is a literal at the place.
#[cycle(assuming)]
fn rewrite_under(
    work: &mut Work,
    history: &History,
    hints: &Hints,
    rules: &Rules,
    learnt: &mut Learnt,
    others: &[TermId],
    place: usize,
    assumed: &[TermId],
    t: TermId,
) -> Result<Rewritten, Stop>
    requires can { CanRewrite history.now work.old assumed.now t }
    requires others { All (IsTermIn history.now work.old) others.now }
    requires place { place < length others.now }
    ensures ok { IfOk result (λ r. IsRewrittenBeside history.now work.new (terms_at work.old.bank others.now ++ denials (terms_at work.old.bank assumed.now)) (term_at work.old.bank t) r) }
    ensures grows { WorkGrows history.now work.old work.new }
    ensures out { result ≡ Err Stop.OutOfSteps → work.new.counter.used ≡ work.new.counter.limit }
{
    match denied_at(work, history, others, place) {
        Some(a) => rewrite_with(
            work, history, hints, rules, learnt, others, place, assumed, a, t,
        ),
        None => rewrite_denying(
            work, history, hints, rules, learnt, others, place, assumed, t,
        ),
    }
}

/// The same, where this term is assumed of the literal.
#[cycle(assuming)]
fn rewrite_with(
    work: &mut Work,
    history: &History,
    hints: &Hints,
    rules: &Rules,
    learnt: &mut Learnt,
    others: &[TermId],
    place: usize,
    assumed: &[TermId],
    more: TermId,
    t: TermId,
) -> Result<Rewritten, Stop>
    requires can { CanRewrite history.now work.old assumed.now t }
    requires others { All (IsTermIn history.now work.old) others.now }
    requires place { place < length others.now }
    requires more { IsTermIn history.now work.old more }
    ensures ok { IfOk result (λ r. IsRewrittenBeside history.now work.new (terms_at work.old.bank others.now ++ not_term (term_at work.old.bank more) ∷ denials (terms_at work.old.bank assumed.now)) (term_at work.old.bank t) r) }
    ensures grows { WorkGrows history.now work.old work.new }
    ensures out { result ≡ Err Stop.OutOfSteps → work.new.counter.used ≡ work.new.counter.limit }
{
    let all = with_more(work, more, assumed)?;
    rewrite_from(
        work,
        history,
        hints,
        rules,
        learnt,
        others,
        place + 1,
        all.as_slice(),
        t,
    )
}

/// The same, where the NOT of the literal is assumed.
#[cycle(assuming)]
fn rewrite_denying(
    work: &mut Work,
    history: &History,
    hints: &Hints,
    rules: &Rules,
    learnt: &mut Learnt,
    others: &[TermId],
    place: usize,
    assumed: &[TermId],
    t: TermId,
) -> Result<Rewritten, Stop>
    requires can { CanRewrite history.now work.old assumed.now t }
    requires others { All (IsTermIn history.now work.old) others.now }
    requires place { place < length others.now }
    ensures ok { IfOk result (λ r. IsRewrittenBeside history.now work.new (terms_at work.old.bank others.now ++ denials (terms_at work.old.bank assumed.now)) (term_at work.old.bank t) r) }
    ensures grows { WorkGrows history.now work.old work.new }
    ensures out { result ≡ Err Stop.OutOfSteps → work.new.counter.used ≡ work.new.counter.limit }
{
    let literal = others[place];
    let denied = deny(work, history, literal)?;
    let new = rewrite_with(
        work, history, hints, rules, learnt, others, place, assumed, denied, t,
    )?;
    undenied(work, history, literal, t, new)
}

/// What the literal at a place denies, if it is a NOT.
fn denied_at(work: &Work, history: &History, others: &[TermId], place: usize) -> Option<TermId>
    requires stands { WorkStands history.now work.now }
    requires others { All (IsTermIn history.now work.now) others.now }
    requires place { place < length others.now }
    ensures { IfSome result (IsDeniedIn history.now work.now others.now) }
{
    one_of(&work.bank, ground::NOT, others[place])
}

/// What is rewritten beside the NOT of the NOT of a literal, beside the literal.
fn undenied(
    work: &mut Work,
    history: &History,
    literal: TermId,
    t: TermId,
    new: Rewritten,
) -> Result<Rewritten, Stop>
    requires stands { WorkStands history.now work.old }
    requires literal { IsTermIn history.now work.old literal }
    requires term { IsTermIn history.now work.old t }
    requires new { IsTermIn history.now work.old new.term }
    requires line { IfSome new.line (LineStands work.old) }
    ensures ok { IfOk result (λ r. Undenies history.now work.old work.new (term_at work.old.bank literal) (term_at work.old.bank t) new r) }
    ensures grows { WorkGrows history.now work.old work.new }
    ensures out { result ≡ Err Stop.OutOfSteps → work.new.counter.used ≡ work.new.counter.limit }
{
    match new.line {
        None => Ok(new),
        Some(line) => {
            let n = undeny(work, history, literal, line)?;
            Ok(Rewritten {
                term: new.term,
                line: Some(n),
            })
        }
    }
}
