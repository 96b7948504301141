//! Lines that show terms where others are assumed, and what they make of a term.
ghost use Rattle.std.specs.Prelude.{◌≡◌, IfOk, IfSome, Err, codes};
ghost use Rattle.nq_bank.specs.Content.{term_at, terms_at};
ghost use Rattle.nq_logic.specs.Words.{not_term};
ghost use Rattle.nq_kernel.specs.Growing.{WorkGrows};
ghost use Rattle.nq_instances.specs.Parts.{AreSides};
ghost use Rattle.nq_reduce.specs.Held.{IsHeld};
ghost use Rattle.nq_reduce.specs.Rewriting.{CanRewrite, IsKnown, IsRewritten};

use crate::assumptions::false_by_line;
use crate::branches::known_before;
use crate::knowledge::{Known, known_truth};
use crate::results::{Rewritten, unchanged};
use nq_bank::{TermId, ground};
use nq_history::History;
use nq_instances::{consequence, two_in};
use nq_kernel::{Stop, Work};
use nq_lines::{Fact, Sides, is_same, opening};
use nq_rules::one_of;

/// What an implication leads to, where its hypothesis is shown.
pub fn conclusion_for(
    work: &mut Work,
    history: &History,
    assumed: &[TermId],
    fact: Fact,
    known: Fact,
    t: TermId,
) -> Result<Option<Fact>, Stop>
    requires can { CanRewrite history.now work.old assumed.now t }
    requires fact { IsHeld history.now work.old (terms_at work.old.bank assumed.now) fact }
    requires known { IsHeld history.now work.old (terms_at work.old.bank assumed.now) known }
    ensures held { IfOk result (λ found. IfSome found (IsHeld history.now work.new (terms_at work.old.bank assumed.now))) }
    ensures grows { WorkGrows history.now work.old work.new }
    ensures out { result ≡ Err Stop.OutOfSteps → work.new.counter.used ≡ work.new.counter.limit }
{
    consequence(work, history, fact, known)
}

/// What a shown term makes of t: the right side of an equation, or F by the NOT of t.
pub fn rewritten_by(
    work: &mut Work,
    history: &History,
    assumed: &[TermId],
    fact: Fact,
    t: TermId,
) -> Result<Rewritten, Stop>
    requires can { CanRewrite history.now work.old assumed.now t }
    requires fact { IsHeld history.now work.old (terms_at work.old.bank assumed.now) fact }
    ensures ok { IfOk result (λ r. IsRewritten history.now work.new (terms_at work.old.bank assumed.now) (term_at work.old.bank t) r) }
    ensures grows { WorkGrows history.now work.old work.new }
    ensures out { result ≡ Err Stop.OutOfSteps → work.new.counter.used ≡ work.new.counter.limit }
{
    match two_in(work, history, ground::EQUAL, fact.term) {
        Some(sides) => Ok(by_equation(work, history, assumed, fact, sides, t)),
        None => by_denial(work, history, assumed, fact, t),
    }
}

/// The right side of an equation whose left side is t.
pub fn by_equation(
    work: &Work,
    history: &History,
    assumed: &[TermId],
    fact: Fact,
    sides: Sides,
    t: TermId,
) -> Rewritten
    requires can { CanRewrite history.now work.now assumed.now t }
    requires fact { IsHeld history.now work.now (terms_at work.now.bank assumed.now) fact }
    requires sides { AreSides history.now work.now (codes "EQUAL") fact.term sides }
    ensures { IsRewritten history.now work.now (terms_at work.now.bank assumed.now) (term_at work.now.bank t) result }
{
    if is_same(sides.left, t) {
        Rewritten {
            term: sides.right,
            line: Some(fact.line),
        }
    } else {
        unchanged(t)
    }
}

/// F, by the NOT of t.
fn by_denial(
    work: &mut Work,
    history: &History,
    assumed: &[TermId],
    fact: Fact,
    t: TermId,
) -> Result<Rewritten, Stop>
    requires can { CanRewrite history.now work.old assumed.now t }
    requires fact { IsHeld history.now work.old (terms_at work.old.bank assumed.now) fact }
    ensures ok { IfOk result (λ r. IsRewritten history.now work.new (terms_at work.old.bank assumed.now) (term_at work.old.bank t) r) }
    ensures grows { WorkGrows history.now work.old work.new }
    ensures out { result ≡ Err Stop.OutOfSteps → work.new.counter.used ≡ work.new.counter.limit }
{
    match one_of(&work.bank, ground::NOT, fact.term) {
        Some(p) => by_denial_of(work, history, assumed, fact, p, t),
        None => Ok(unchanged(t)),
    }
}

/// The same, where the denied term is known.
fn by_denial_of(
    work: &mut Work,
    history: &History,
    assumed: &[TermId],
    fact: Fact,
    p: TermId,
    t: TermId,
) -> Result<Rewritten, Stop>
    requires can { CanRewrite history.now work.old assumed.now t }
    requires fact { IsHeld history.now work.old (terms_at work.old.bank assumed.now) fact }
    requires denies { term_at work.old.bank fact.term ≡ not_term (term_at work.old.bank p) }
    ensures ok { IfOk result (λ r. IsRewritten history.now work.new (terms_at work.old.bank assumed.now) (term_at work.old.bank t) r) }
    ensures grows { WorkGrows history.now work.old work.new }
    ensures out { result ≡ Err Stop.OutOfSteps → work.new.counter.used ≡ work.new.counter.limit }
{
    if is_same(p, t) {
        false_by_line(work, history, assumed, t, fact.line)
    } else {
        Ok(unchanged(t))
    }
}

/// The line of a hypothesis that was rewritten to something known to be true.
pub fn relieved(
    work: &mut Work,
    history: &History,
    assumed: &[TermId],
    t: TermId,
    new: Rewritten,
) -> Result<Option<Fact>, Stop>
    requires can { CanRewrite history.now work.old assumed.now t }
    requires new { IsRewritten history.now work.old (terms_at work.old.bank assumed.now) (term_at work.old.bank t) new }
    ensures held { IfOk result (λ found. IfSome found (IsHeld history.now work.new (terms_at work.old.bank assumed.now))) }
    ensures grows { WorkGrows history.now work.old work.new }
    ensures out { result ≡ Err Stop.OutOfSteps → work.new.counter.used ≡ work.new.counter.limit }
{
    match known_truth(work, history, assumed, new.term)? {
        Some(known) => relieved_by(work, history, assumed, t, new, known),
        None => Ok(None),
    }
}

/// The same, by what is known of the new term.
fn relieved_by(
    work: &mut Work,
    history: &History,
    assumed: &[TermId],
    t: TermId,
    new: Rewritten,
    known: Known,
) -> Result<Option<Fact>, Stop>
    requires can { CanRewrite history.now work.old assumed.now t }
    requires new { IsRewritten history.now work.old (terms_at work.old.bank assumed.now) (term_at work.old.bank t) new }
    requires known { IsKnown work.old (terms_at work.old.bank assumed.now) (term_at work.old.bank new.term) known }
    ensures held { IfOk result (λ found. IfSome found (IsHeld history.now work.new (terms_at work.old.bank assumed.now))) }
    ensures grows { WorkGrows history.now work.old work.new }
    ensures out { result ≡ Err Stop.OutOfSteps → work.new.counter.used ≡ work.new.counter.limit }
{
    let before = known_before(work, history, assumed, t, new, known)?;
    if before.value {
        Ok(Some(Fact {
            term: t,
            line: before.line,
        }))
    } else {
        Ok(None)
    }
}

/// The opening of a call.
pub fn opening_of(
    work: &mut Work,
    history: &History,
    assumed: &[TermId],
    t: TermId,
) -> Result<Rewritten, Stop>
    requires can { CanRewrite history.now work.old assumed.now t }
    ensures ok { IfOk result (λ r. IsRewritten history.now work.new (terms_at work.old.bank assumed.now) (term_at work.old.bank t) r) }
    ensures grows { WorkGrows history.now work.old work.new }
    ensures out { result ≡ Err Stop.OutOfSteps → work.new.counter.used ≡ work.new.counter.limit }
{
    match opening(work, history, t)? {
        Some(body) => Ok(Rewritten {
            term: body.term,
            line: Some(body.line),
        }),
        None => Ok(unchanged(t)),
    }
}
