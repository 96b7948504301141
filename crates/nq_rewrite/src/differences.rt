//! Differences that are nothing: `(DIFFERENCE A B)` is 0 where A is B, or where `(LESSP A B)` or the NOT of `(LESSP B A)` is assumed;
//! and those that cancel a summand.
//!
//! The equation is shown by linear arithmetic. Which differences are asked about decides only what is tried.
ghost use Rattle.std.specs.Prelude.{◌≡◌, All, IfOk, Err};
ghost use Rattle.nq_logic.specs.Words.{equal_term};
ghost use Rattle.nq_bank.specs.Content.{Stands, term_at, terms_at};
ghost use Rattle.nq_kernel.specs.Growing.{WorkGrows, WorkStands};
ghost use Rattle.nq_lines.specs.Lines.{IsTermIn};
ghost use Rattle.nq_reduce.specs.Rewriting.{CanRewrite, IsRewritten};

use crate::arithmetic::{denied, line_by_arithmetic};
use crate::cancelling::reduce_cancelled;
use crate::kinded::reduce_kinded;
use crate::true_calls::reduce_true;
use nq_arithmetic::zero;
use nq_bank::{Bank, TermId, ground};
use nq_history::{Hints, History};
use nq_kernel::{Stop, Work};
use nq_lines::equate;
use nq_reduce::{Rewritten, unchanged};
use nq_rules::two_of;

/// Is a term `(LESSP A B)`?
fn is_less(bank: &Bank, t: TermId, a: TermId, b: TermId) -> bool
    requires { Stands bank.now t }
{
    match two_of(bank, ground::LESSP, t) {
        Some((left, right)) => left.0 == a.0 && right.0 == b.0,
        None => false,
    }
}

/// Does an assumption tell that a number is at most another?
fn tells_at_most(work: &Work, history: &History, h: TermId, a: TermId, b: TermId) -> bool
    requires stands { WorkStands history.now work.now }
    requires term { IsTermIn history.now work.now h }
{
    match denied(work, history, h) {
        Some(p) => is_less(&work.bank, p, b, a),
        None => is_less(&work.bank, h, a, b),
    }
}

/// Is a number at most another, since they are one or an assumption tells so?
fn is_at_most(
    work: &Work,
    history: &History,
    assumed: &[TermId],
    t: TermId,
    a: TermId,
    b: TermId,
) -> bool
    requires can { CanRewrite history.now work.now assumed.now t }
{
    if a.0 == b.0 {
        return true;
    }
    for h in assumed {
        if tells_at_most(work, history, *h, a, b) {
            return true;
        }
    }
    false
}

/// Is a term a difference that is nothing?
fn is_nothing(work: &Work, history: &History, assumed: &[TermId], t: TermId) -> bool
    requires can { CanRewrite history.now work.now assumed.now t }
{
    match two_of(&work.bank, ground::DIFFERENCE, t) {
        Some((a, b)) => is_at_most(work, history, assumed, t, a, b),
        None => false,
    }
}

/// One term is another, where linear arithmetic shows their equation.
fn equal_by_arithmetic(
    work: &mut Work,
    history: &History,
    hints: &Hints,
    assumed: &[TermId],
    t: TermId,
    other: TermId,
    equation: TermId,
) -> Result<Rewritten, Stop>
    requires can { CanRewrite history.now work.old assumed.now t }
    requires other { IsTermIn history.now work.old other }
    requires over { IsTermIn history.now work.old equation }
    requires equation { term_at work.old.bank equation ≡ equal_term (term_at work.old.bank t) (term_at work.old.bank other) }
    ensures ok { IfOk result (λ r. IsRewritten history.now work.new (terms_at work.old.bank assumed.now) (term_at work.old.bank t) r) }
    ensures grows { WorkGrows history.now work.old work.new }
    ensures out { result ≡ Err Stop.OutOfSteps → work.new.counter.used ≡ work.new.counter.limit }
{
    match line_by_arithmetic(work, history, hints, assumed, equation)? {
        Some(line) => Ok(Rewritten {
            term: other,
            line: Some(line),
        }),
        None => Ok(unchanged(t)),
    }
}

/// A term is 0, where linear arithmetic shows it.
fn zero_by_arithmetic(
    work: &mut Work,
    history: &History,
    hints: &Hints,
    assumed: &[TermId],
    t: TermId,
) -> Result<Rewritten, Stop>
    requires can { CanRewrite history.now work.old assumed.now t }
    ensures ok { IfOk result (λ r. IsRewritten history.now work.new (terms_at work.old.bank assumed.now) (term_at work.old.bank t) r) }
    ensures grows { WorkGrows history.now work.old work.new }
    ensures out { result ≡ Err Stop.OutOfSteps → work.new.counter.used ≡ work.new.counter.limit }
{
    let nothing = zero(work, history)?;
    equal_to(work, history, hints, assumed, t, nothing)
}

/// One term is another, where linear arithmetic shows it.
pub fn equal_to(
    work: &mut Work,
    history: &History,
    hints: &Hints,
    assumed: &[TermId],
    t: TermId,
    other: TermId,
) -> Result<Rewritten, Stop>
    requires can { CanRewrite history.now work.old assumed.now t }
    requires other { IsTermIn history.now work.old other }
    ensures ok { IfOk result (λ r. IsRewritten history.now work.new (terms_at work.old.bank assumed.now) (term_at work.old.bank t) r) }
    ensures grows { WorkGrows history.now work.old work.new }
    ensures out { result ≡ Err Stop.OutOfSteps → work.new.counter.used ≡ work.new.counter.limit }
{
    let equation = equate(work, history, t, other)?;
    equal_by_arithmetic(work, history, hints, assumed, t, other, equation)
}

/// A single step on a call. Where there is none, a call that is assumed, of a function known to give truth values, is T, a difference
/// that is nothing is 0, and one that takes a summand from a sum is the sum of the others.
pub fn reduce_numbered(
    work: &mut Work,
    history: &History,
    hints: &Hints,
    assumed: &[TermId],
    t: TermId,
) -> Result<Rewritten, Stop>
    requires can { CanRewrite history.now work.old assumed.now t }
    ensures ok { IfOk result (λ r. IsRewritten history.now work.new (terms_at work.old.bank assumed.now) (term_at work.old.bank t) r) }
    ensures grows { WorkGrows history.now work.old work.new }
    ensures out { result ≡ Err Stop.OutOfSteps → work.new.counter.used ≡ work.new.counter.limit }
{
    let step = reduce_kinded(work, history, assumed, t)?;
    if step.line.is_some() {
        Ok(step)
    } else {
        reduce_told(work, history, hints, assumed, t)
    }
}

/// A call that is true is T, where that is known of its function; any other, if it is a difference that is nothing, is 0.
fn reduce_told(
    work: &mut Work,
    history: &History,
    hints: &Hints,
    assumed: &[TermId],
    t: TermId,
) -> Result<Rewritten, Stop>
    requires can { CanRewrite history.now work.old assumed.now t }
    ensures ok { IfOk result (λ r. IsRewritten history.now work.new (terms_at work.old.bank assumed.now) (term_at work.old.bank t) r) }
    ensures grows { WorkGrows history.now work.old work.new }
    ensures out { result ≡ Err Stop.OutOfSteps → work.new.counter.used ≡ work.new.counter.limit }
{
    let step = reduce_true(work, history, assumed, t)?;
    if step.line.is_some() {
        Ok(step)
    } else {
        reduce_difference(work, history, hints, assumed, t)
    }
}

/// A difference that is nothing is 0, and one that takes a summand from a sum is the sum of the others.
fn reduce_difference(
    work: &mut Work,
    history: &History,
    hints: &Hints,
    assumed: &[TermId],
    t: TermId,
) -> Result<Rewritten, Stop>
    requires can { CanRewrite history.now work.old assumed.now t }
    ensures ok { IfOk result (λ r. IsRewritten history.now work.new (terms_at work.old.bank assumed.now) (term_at work.old.bank t) r) }
    ensures grows { WorkGrows history.now work.old work.new }
    ensures out { result ≡ Err Stop.OutOfSteps → work.new.counter.used ≡ work.new.counter.limit }
{
    if is_nothing(work, history, assumed, t) {
        zero_by_arithmetic(work, history, hints, assumed, t)
    } else {
        reduce_cancelled(work, history, hints, assumed, t)
    }
}
