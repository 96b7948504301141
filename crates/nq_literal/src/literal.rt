//! One literal, rewritten where terms are assumed.
ghost use Rattle.std.specs.Prelude.{◌≡◌, IfOk, Err};
ghost use Rattle.nq_bank.specs.Content.{term_at, terms_at};
ghost use Rattle.nq_kernel.specs.Growing.{WorkGrows};
ghost use Rattle.nq_lines.specs.Lines.{IsTermIn};
ghost use Rattle.nq_reduce.specs.Rewriting.{CanRewrite, IsArgument, IsRewritten};

use nq_bank::{TermId, ground};
use nq_history::{Hints, History};
use nq_kernel::{Stop, Work};
use nq_reduce::{Rewritten, argument_of, congruent, follow, unchanged};
use nq_rewrite::{Learnt, rewritten};
use nq_rule_table::Rules;
use nq_rules::one_of;

/// Rewrites a literal where these are assumed. A literal `(NOT p)` keeps its NOT, unless p becomes a value.
pub fn rewrite_literal(
    work: &mut Work,
    history: &History,
    hints: &Hints,
    rules: &Rules,
    learnt: &mut Learnt,
    assumed: &[TermId],
    t: TermId,
) -> Result<Rewritten, Stop>
    requires can { CanRewrite history.now work.old assumed.now t }
    ensures ok { IfOk result (λ r. IsRewritten history.now work.new (terms_at work.old.bank assumed.now) (term_at work.old.bank t) r) }
    ensures grows { WorkGrows history.now work.old work.new }
    ensures out { result ≡ Err Stop.OutOfSteps → work.new.counter.used ≡ work.new.counter.limit }
{
    match one_of(&work.bank, ground::NOT, t) {
        Some(_) => rewrite_denial(work, history, hints, rules, learnt, assumed, t),
        None => rewritten(work, history, hints, rules, learnt, assumed, t),
    }
}

/// Rewrites what a literal denies.
fn rewrite_denial(
    work: &mut Work,
    history: &History,
    hints: &Hints,
    rules: &Rules,
    learnt: &mut Learnt,
    assumed: &[TermId],
    t: TermId,
) -> Result<Rewritten, Stop>
    requires can { CanRewrite history.now work.old assumed.now t }
    ensures ok { IfOk result (λ r. IsRewritten history.now work.new (terms_at work.old.bank assumed.now) (term_at work.old.bank t) r) }
    ensures grows { WorkGrows history.now work.old work.new }
    ensures out { result ≡ Err Stop.OutOfSteps → work.new.counter.used ≡ work.new.counter.limit }
{
    match argument_of(work, history, t, 1) {
        Some(p) => rewrite_denied(work, history, hints, rules, learnt, assumed, t, p),
        None => Ok(unchanged(t)),
    }
}

/// The same, where the denied term is known.
fn rewrite_denied(
    work: &mut Work,
    history: &History,
    hints: &Hints,
    rules: &Rules,
    learnt: &mut Learnt,
    assumed: &[TermId],
    t: TermId,
    p: TermId,
) -> Result<Rewritten, Stop>
    requires can { CanRewrite history.now work.old assumed.now t }
    requires argument { IsArgument history.now work.old t 1 p }
    ensures ok { IfOk result (λ r. IsRewritten history.now work.new (terms_at work.old.bank assumed.now) (term_at work.old.bank t) r) }
    ensures grows { WorkGrows history.now work.old work.new }
    ensures out { result ≡ Err Stop.OutOfSteps → work.new.counter.used ≡ work.new.counter.limit }
{
    let inside = rewritten(work, history, hints, rules, learnt, assumed, p)?;
    let denial = congruent(work, history, assumed, t, 1, p, inside)?;
    rewrite_outside(
        work,
        history,
        hints,
        rules,
        learnt,
        assumed,
        t,
        denial,
        inside.term,
    )
}

/// The same, where a literal was rewritten to the NOT of a term: that of a value is rewritten.
fn rewrite_outside(
    work: &mut Work,
    history: &History,
    hints: &Hints,
    rules: &Rules,
    learnt: &mut Learnt,
    assumed: &[TermId],
    t: TermId,
    denial: Rewritten,
    p: TermId,
) -> Result<Rewritten, Stop>
    requires can { CanRewrite history.now work.old assumed.now t }
    requires denial { IsRewritten history.now work.old (terms_at work.old.bank assumed.now) (term_at work.old.bank t) denial }
    requires denied { IsTermIn history.now work.old p }
    ensures ok { IfOk result (λ r. IsRewritten history.now work.new (terms_at work.old.bank assumed.now) (term_at work.old.bank t) r) }
    ensures grows { WorkGrows history.now work.old work.new }
    ensures out { result ≡ Err Stop.OutOfSteps → work.new.counter.used ≡ work.new.counter.limit }
{
    if work.bank.is_value(p) {
        let rest = rewritten(work, history, hints, rules, learnt, assumed, denial.term)?;
        follow(work, history, assumed, t, denial, rest)
    } else {
        Ok(denial)
    }
}
