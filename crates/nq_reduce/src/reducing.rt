//! One step on a call.
ghost use Rattle.std.specs.Prelude.{◌≡◌, IfOk, Err};
ghost use Rattle.nq_bank.specs.Content.{term_at, terms_at};
ghost use Rattle.nq_kernel.specs.Growing.{WorkGrows};
ghost use Rattle.nq_reduce.specs.Rewriting.{CanRewrite, IsRewritten};

use crate::bases::by_base;
use crate::distinct::by_distinct;
use crate::divided::by_divided_part;
use crate::equal_parts::by_equal_parts;
use crate::equations::by_assumed_equation;
use crate::irreflexive::by_irreflexivity;
use crate::recognizing::by_kind;
use crate::results::Rewritten;
use crate::shells::by_shell;
use crate::truths::by_truth;
use crate::values::by_value;
use nq_bank::TermId;
use nq_history::History;
use nq_kernel::{Stop, Work};

/// One step on a call whose arguments were rewritten, by the first mechanism that knows one: no rule, no opening.
pub fn reduce_call(
    work: &mut Work,
    history: &History,
    assumed: &[TermId],
    t: TermId,
) -> Result<Rewritten, Stop>
    requires can { CanRewrite history.now work.old assumed.now t }
    ensures ok { IfOk result (λ r. IsRewritten history.now work.new (terms_at work.old.bank assumed.now) (term_at work.old.bank t) r) }
    ensures grows { WorkGrows history.now work.old work.new }
    ensures out { result ≡ Err Stop.OutOfSteps → work.new.counter.used ≡ work.new.counter.limit }
{
    let step = by_value(work, history, assumed, t)?;
    if step.line.is_some() {
        Ok(step)
    } else {
        reduce_by_truth(work, history, assumed, t)
    }
}

/// The same, where it has no value by the table.
fn reduce_by_truth(
    work: &mut Work,
    history: &History,
    assumed: &[TermId],
    t: TermId,
) -> Result<Rewritten, Stop>
    requires can { CanRewrite history.now work.old assumed.now t }
    ensures ok { IfOk result (λ r. IsRewritten history.now work.new (terms_at work.old.bank assumed.now) (term_at work.old.bank t) r) }
    ensures grows { WorkGrows history.now work.old work.new }
    ensures out { result ≡ Err Stop.OutOfSteps → work.new.counter.used ≡ work.new.counter.limit }
{
    let step = by_truth(work, history, assumed, t)?;
    if step.line.is_some() {
        Ok(step)
    } else {
        reduce_by_equation(work, history, assumed, t)
    }
}

/// The same, where it is not known to be true or false.
fn reduce_by_equation(
    work: &mut Work,
    history: &History,
    assumed: &[TermId],
    t: TermId,
) -> Result<Rewritten, Stop>
    requires can { CanRewrite history.now work.old assumed.now t }
    ensures ok { IfOk result (λ r. IsRewritten history.now work.new (terms_at work.old.bank assumed.now) (term_at work.old.bank t) r) }
    ensures grows { WorkGrows history.now work.old work.new }
    ensures out { result ≡ Err Stop.OutOfSteps → work.new.counter.used ≡ work.new.counter.limit }
{
    let step = by_assumed_equation(work, history, assumed, t)?;
    if step.line.is_some() {
        Ok(step)
    } else {
        reduce_by_shell(work, history, assumed, t)
    }
}

/// The same, where no assumed equation makes it simpler.
fn reduce_by_shell(
    work: &mut Work,
    history: &History,
    assumed: &[TermId],
    t: TermId,
) -> Result<Rewritten, Stop>
    requires can { CanRewrite history.now work.old assumed.now t }
    ensures ok { IfOk result (λ r. IsRewritten history.now work.new (terms_at work.old.bank assumed.now) (term_at work.old.bank t) r) }
    ensures grows { WorkGrows history.now work.old work.new }
    ensures out { result ≡ Err Stop.OutOfSteps → work.new.counter.used ≡ work.new.counter.limit }
{
    let step = by_shell(work, history, assumed, t)?;
    if step.line.is_some() {
        Ok(step)
    } else {
        reduce_by_kind(work, history, assumed, t)
    }
}

/// The same, where it is no part, object or size that is told.
fn reduce_by_kind(
    work: &mut Work,
    history: &History,
    assumed: &[TermId],
    t: TermId,
) -> Result<Rewritten, Stop>
    requires can { CanRewrite history.now work.old assumed.now t }
    ensures ok { IfOk result (λ r. IsRewritten history.now work.new (terms_at work.old.bank assumed.now) (term_at work.old.bank t) r) }
    ensures grows { WorkGrows history.now work.old work.new }
    ensures out { result ≡ Err Stop.OutOfSteps → work.new.counter.used ≡ work.new.counter.limit }
{
    let step = by_kind(work, history, assumed, t)?;
    if step.line.is_some() {
        Ok(step)
    } else {
        reduce_by_distinct(work, history, assumed, t)
    }
}

/// The same, where it is no recognizer that is told.
fn reduce_by_distinct(
    work: &mut Work,
    history: &History,
    assumed: &[TermId],
    t: TermId,
) -> Result<Rewritten, Stop>
    requires can { CanRewrite history.now work.old assumed.now t }
    ensures ok { IfOk result (λ r. IsRewritten history.now work.new (terms_at work.old.bank assumed.now) (term_at work.old.bank t) r) }
    ensures grows { WorkGrows history.now work.old work.new }
    ensures out { result ≡ Err Stop.OutOfSteps → work.new.counter.used ≡ work.new.counter.limit }
{
    let step = by_distinct(work, history, assumed, t)?;
    if step.line.is_some() {
        Ok(step)
    } else {
        reduce_by_base(work, history, assumed, t)
    }
}

/// The same, where it is no equation of terms of different kinds.
fn reduce_by_base(
    work: &mut Work,
    history: &History,
    assumed: &[TermId],
    t: TermId,
) -> Result<Rewritten, Stop>
    requires can { CanRewrite history.now work.old assumed.now t }
    ensures ok { IfOk result (λ r. IsRewritten history.now work.new (terms_at work.old.bank assumed.now) (term_at work.old.bank t) r) }
    ensures grows { WorkGrows history.now work.old work.new }
    ensures out { result ≡ Err Stop.OutOfSteps → work.new.counter.used ≡ work.new.counter.limit }
{
    let step = by_base(work, history, assumed, t)?;
    if step.line.is_some() {
        Ok(step)
    } else {
        reduce_by_parts(work, history, assumed, t)
    }
}

/// The same, where it is no equation of an object just made and the base.
fn reduce_by_parts(
    work: &mut Work,
    history: &History,
    assumed: &[TermId],
    t: TermId,
) -> Result<Rewritten, Stop>
    requires can { CanRewrite history.now work.old assumed.now t }
    ensures ok { IfOk result (λ r. IsRewritten history.now work.new (terms_at work.old.bank assumed.now) (term_at work.old.bank t) r) }
    ensures grows { WorkGrows history.now work.old work.new }
    ensures out { result ≡ Err Stop.OutOfSteps → work.new.counter.used ≡ work.new.counter.limit }
{
    let step = by_equal_parts(work, history, assumed, t)?;
    if step.line.is_some() {
        Ok(step)
    } else {
        reduce_by_divided(work, history, assumed, t)
    }
}

/// The same, where it is no equation of two objects just made.
fn reduce_by_divided(
    work: &mut Work,
    history: &History,
    assumed: &[TermId],
    t: TermId,
) -> Result<Rewritten, Stop>
    requires can { CanRewrite history.now work.old assumed.now t }
    ensures ok { IfOk result (λ r. IsRewritten history.now work.new (terms_at work.old.bank assumed.now) (term_at work.old.bank t) r) }
    ensures grows { WorkGrows history.now work.old work.new }
    ensures out { result ≡ Err Stop.OutOfSteps → work.new.counter.used ≡ work.new.counter.limit }
{
    let step = by_divided_part(work, history, assumed, t)?;
    if step.line.is_some() {
        Ok(step)
    } else {
        by_irreflexivity(work, history, assumed, t)
    }
}
