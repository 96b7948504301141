//! Terms that assumed equations make simpler.
ghost use Rattle.std.specs.Prelude.{◌≡◌, IfOk, IfSome, Err, codes};
ghost use Rattle.nq_bank.specs.Content.{Stands, term_at, terms_at};
ghost use Rattle.nq_kernel.specs.Growing.{WorkGrows};
ghost use Rattle.nq_instances.specs.Parts.{AreSides};
ghost use Rattle.nq_reduce.specs.Equations.{IsAssumed};
ghost use Rattle.nq_reduce.specs.Held.{IsHeld};
ghost use Rattle.nq_reduce.specs.Rewriting.{CanRewrite, IsRewritten};

use crate::held::by_equation;
use crate::results::{Rewritten, unchanged};
use nq_bank::{Bank, TermId, ground};
use nq_history::History;
use nq_instances::two_in;
use nq_kernel::{Stop, Work};
use nq_lines::{Fact, Sides, is_same, opposites, symmetric};
use nq_rules::two_of;

/// Is the first term simpler than the second: a value that the other is not, or smaller, or of one size and made earlier?
fn is_simpler(bank: &Bank, new: TermId, old: TermId) -> bool
    requires first { Stands bank.now new }
    requires second { Stands bank.now old }
{
    if bank.is_value(new) != bank.is_value(old) {
        return bank.is_value(new);
    }
    if bank.size(new) != bank.size(old) {
        return bank.size(new) < bank.size(old);
    }
    new.0 < old.0
}

/// Does an equation make a term simpler?
fn simplifies(bank: &Bank, equation: TermId, t: TermId) -> bool
    requires equation { Stands bank.now equation }
    requires term { Stands bank.now t }
{
    match two_of(bank, ground::EQUAL, equation) {
        Some((left, right)) => {
            if left.0 == t.0 {
                is_simpler(bank, right, t)
            } else if right.0 == t.0 {
                is_simpler(bank, left, t)
            } else {
                false
            }
        }
        None => false,
    }
}

/// An assumed equation that makes a term simpler.
fn assumed_equation(work: &Work, history: &History, assumed: &[TermId], t: TermId) -> Option<TermId>
    requires can { CanRewrite history.now work.now assumed.now t }
    ensures { IfSome result (IsAssumed history.now work.now assumed.now) }
{
    for a in assumed {
        if simplifies(&work.bank, *a, t) {
            return Some(*a);
        }
    }
    None
}

/// A side of an assumed equation is the other side, where that is simpler.
pub fn by_assumed_equation(
    work: &mut Work,
    history: &History,
    assumed: &[TermId],
    t: TermId,
) -> Result<Rewritten, Stop>
    requires can { CanRewrite history.now work.old assumed.now t }
    ensures ok { IfOk result (λ r. IsRewritten history.now work.new (terms_at work.old.bank assumed.now) (term_at work.old.bank t) r) }
    ensures grows { WorkGrows history.now work.old work.new }
    ensures out { result ≡ Err Stop.OutOfSteps → work.new.counter.used ≡ work.new.counter.limit }
{
    match assumed_equation(work, history, assumed, t) {
        Some(a) => by_assumed(work, history, assumed, a, t),
        None => Ok(unchanged(t)),
    }
}

/// The same, by this assumption.
fn by_assumed(
    work: &mut Work,
    history: &History,
    assumed: &[TermId],
    a: TermId,
    t: TermId,
) -> Result<Rewritten, Stop>
    requires can { CanRewrite history.now work.old assumed.now t }
    requires assumed { IsAssumed history.now work.old assumed.now a }
    ensures ok { IfOk result (λ r. IsRewritten history.now work.new (terms_at work.old.bank assumed.now) (term_at work.old.bank t) r) }
    ensures grows { WorkGrows history.now work.old work.new }
    ensures out { result ≡ Err Stop.OutOfSteps → work.new.counter.used ≡ work.new.counter.limit }
{
    let line = opposites(work, history, a)?;
    by_sides(work, history, assumed, Fact { term: a, line }, t)
}

/// What an equation that is shown makes of one of its sides.
pub fn by_sides(
    work: &mut Work,
    history: &History,
    assumed: &[TermId],
    fact: Fact,
    t: TermId,
) -> Result<Rewritten, Stop>
    requires can { CanRewrite history.now work.old assumed.now t }
    requires fact { IsHeld history.now work.old (terms_at work.old.bank assumed.now) fact }
    ensures ok { IfOk result (λ r. IsRewritten history.now work.new (terms_at work.old.bank assumed.now) (term_at work.old.bank t) r) }
    ensures grows { WorkGrows history.now work.old work.new }
    ensures out { result ≡ Err Stop.OutOfSteps → work.new.counter.used ≡ work.new.counter.limit }
{
    match two_in(work, history, ground::EQUAL, fact.term) {
        Some(sides) => by_either(work, history, assumed, fact, sides, t),
        None => Ok(unchanged(t)),
    }
}

/// The same, where the sides are known.
fn by_either(
    work: &mut Work,
    history: &History,
    assumed: &[TermId],
    fact: Fact,
    sides: Sides,
    t: TermId,
) -> Result<Rewritten, Stop>
    requires can { CanRewrite history.now work.old assumed.now t }
    requires fact { IsHeld history.now work.old (terms_at work.old.bank assumed.now) fact }
    requires sides { AreSides history.now work.old (codes "EQUAL") fact.term sides }
    ensures ok { IfOk result (λ r. IsRewritten history.now work.new (terms_at work.old.bank assumed.now) (term_at work.old.bank t) r) }
    ensures grows { WorkGrows history.now work.old work.new }
    ensures out { result ≡ Err Stop.OutOfSteps → work.new.counter.used ≡ work.new.counter.limit }
{
    if is_same(sides.right, t) {
        by_right(work, history, assumed, fact, sides, t)
    } else {
        Ok(by_equation(work, history, assumed, fact, sides, t))
    }
}

/// The left side of an equation whose right side is t.
fn by_right(
    work: &mut Work,
    history: &History,
    assumed: &[TermId],
    fact: Fact,
    sides: Sides,
    t: TermId,
) -> Result<Rewritten, Stop>
    requires can { CanRewrite history.now work.old assumed.now t }
    requires fact { IsHeld history.now work.old (terms_at work.old.bank assumed.now) fact }
    requires sides { AreSides history.now work.old (codes "EQUAL") fact.term sides }
    requires same { sides.right ≡ t }
    ensures ok { IfOk result (λ r. IsRewritten history.now work.new (terms_at work.old.bank assumed.now) (term_at work.old.bank t) r) }
    ensures grows { WorkGrows history.now work.old work.new }
    ensures out { result ≡ Err Stop.OutOfSteps → work.new.counter.used ≡ work.new.counter.limit }
{
    let line = symmetric(work, history, sides.left, sides.right, fact.line)?;
    Ok(Rewritten {
        term: sides.left,
        line: Some(line),
    })
}
