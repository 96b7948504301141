//! What the equation of two objects just made comes to, where a part of both is one, and where it differs.
ghost use Rattle.std.specs.Prelude.{◌≡◌, ◌∷◌, IfOk, Err};
ghost use Rattle.nq_logic.specs.Words.{not_term};
ghost use Rattle.nq_bank.specs.Content.{IsIdOf, term_at, terms_at};
ghost use Rattle.nq_kernel.specs.Growing.{WorkGrows};
ghost use Rattle.nq_lines.specs.Lines.{IsTermIn, LineHasOnly};
ghost use Rattle.nq_reduce.specs.Equations.{IsAssumed};
ghost use Rattle.nq_reduce.specs.Held.{IsHeld};
ghost use Rattle.nq_reduce.specs.Rewriting.{CanRewrite, IsArgument, IsRewritten, denials};

use crate::assumptions::false_by_line;
use crate::branches::with_more;
use crate::congruence::{argument_of, congruent};
use crate::equations::by_sides;
use crate::results::{Rewritten, unchanged};
use crate::unequal::Unequal;
use nq_bank::TermId;
use nq_history::History;
use nq_kernel::{Stop, Work};
use nq_lines::{Fact, cut, is_same, opposites};

/// What the equation comes to where the parts are one.
pub fn equal_case(
    work: &mut Work,
    history: &History,
    assumed: &[TermId],
    t: TermId,
    l: TermId,
    unequal: Unequal,
    a: TermId,
    p: TermId,
) -> Result<Rewritten, Stop>
    requires can { CanRewrite history.now work.old assumed.now t }
    requires object { IsTermIn history.now work.old l }
    requires left { IsArgument history.now work.old l unequal.part a }
    requires test { IsTermIn history.now work.old p }
    ensures ok { IfOk result (λ r. IsRewritten history.now work.new (term_at work.old.bank p ∷ terms_at work.old.bank assumed.now) (term_at work.old.bank t) r) }
    ensures grows { WorkGrows history.now work.old work.new }
    ensures out { result ≡ Err Stop.OutOfSteps → work.new.counter.used ≡ work.new.counter.limit }
{
    let all = with_more(work, p, assumed)?;
    equal_under(work, history, all.as_slice(), t, l, unequal, a, p)
}

/// The same, where all that is assumed is made.
fn equal_under(
    work: &mut Work,
    history: &History,
    assumed: &[TermId],
    t: TermId,
    l: TermId,
    unequal: Unequal,
    a: TermId,
    e: TermId,
) -> Result<Rewritten, Stop>
    requires can { CanRewrite history.now work.old assumed.now t }
    requires object { IsTermIn history.now work.old l }
    requires left { IsArgument history.now work.old l unequal.part a }
    requires assumed { IsAssumed history.now work.old assumed.now e }
    ensures ok { IfOk result (λ r. IsRewritten history.now work.new (terms_at work.old.bank assumed.now) (term_at work.old.bank t) r) }
    ensures grows { WorkGrows history.now work.old work.new }
    ensures out { result ≡ Err Stop.OutOfSteps → work.new.counter.used ≡ work.new.counter.limit }
{
    let line = opposites(work, history, e)?;
    equal_by_fact(
        work,
        history,
        assumed,
        t,
        l,
        unequal,
        a,
        Fact { term: e, line },
    )
}

/// The same, by the line of the equation of the parts.
fn equal_by_fact(
    work: &mut Work,
    history: &History,
    assumed: &[TermId],
    t: TermId,
    l: TermId,
    unequal: Unequal,
    a: TermId,
    fact: Fact,
) -> Result<Rewritten, Stop>
    requires can { CanRewrite history.now work.old assumed.now t }
    requires object { IsTermIn history.now work.old l }
    requires left { IsArgument history.now work.old l unequal.part a }
    requires fact { IsHeld history.now work.old (terms_at work.old.bank assumed.now) fact }
    ensures ok { IfOk result (λ r. IsRewritten history.now work.new (terms_at work.old.bank assumed.now) (term_at work.old.bank t) r) }
    ensures grows { WorkGrows history.now work.old work.new }
    ensures out { result ≡ Err Stop.OutOfSteps → work.new.counter.used ≡ work.new.counter.limit }
{
    let other = by_sides(work, history, assumed, fact, a)?;
    equal_by_other(work, history, assumed, t, l, unequal, a, other)
}

/// The same, by what the part comes to.
fn equal_by_other(
    work: &mut Work,
    history: &History,
    assumed: &[TermId],
    t: TermId,
    l: TermId,
    unequal: Unequal,
    a: TermId,
    other: Rewritten,
) -> Result<Rewritten, Stop>
    requires can { CanRewrite history.now work.old assumed.now t }
    requires object { IsTermIn history.now work.old l }
    requires left { IsArgument history.now work.old l unequal.part a }
    requires other { IsRewritten history.now work.old (terms_at work.old.bank assumed.now) (term_at work.old.bank a) other }
    ensures ok { IfOk result (λ r. IsRewritten history.now work.new (terms_at work.old.bank assumed.now) (term_at work.old.bank t) r) }
    ensures grows { WorkGrows history.now work.old work.new }
    ensures out { result ≡ Err Stop.OutOfSteps → work.new.counter.used ≡ work.new.counter.limit }
{
    let moved = congruent(work, history, assumed, l, unequal.part, a, other)?;
    equal_moved(work, history, assumed, t, l, moved)
}

/// The same, by what the left side comes to.
fn equal_moved(
    work: &mut Work,
    history: &History,
    assumed: &[TermId],
    t: TermId,
    l: TermId,
    moved: Rewritten,
) -> Result<Rewritten, Stop>
    requires can { CanRewrite history.now work.old assumed.now t }
    requires object { IsTermIn history.now work.old l }
    requires moved { IsRewritten history.now work.old (terms_at work.old.bank assumed.now) (term_at work.old.bank l) moved }
    ensures ok { IfOk result (λ r. IsRewritten history.now work.new (terms_at work.old.bank assumed.now) (term_at work.old.bank t) r) }
    ensures grows { WorkGrows history.now work.old work.new }
    ensures out { result ≡ Err Stop.OutOfSteps → work.new.counter.used ≡ work.new.counter.limit }
{
    match argument_of(work, history, t, 1) {
        Some(x) => {
            if is_same(x, l) {
                congruent(work, history, assumed, t, 1, x, moved)
            } else {
                Ok(unchanged(t))
            }
        }
        None => Ok(unchanged(t)),
    }
}

/// What the equation comes to where the parts differ: F.
pub fn unequal_case(
    work: &mut Work,
    history: &History,
    assumed: &[TermId],
    t: TermId,
    p: TermId,
    denied: TermId,
    line: u64,
) -> Result<Rewritten, Stop>
    requires can { CanRewrite history.now work.old assumed.now t }
    requires test { IsTermIn history.now work.old p }
    requires denied { IsIdOf work.old.bank denied (not_term (term_at work.old.bank p)) }
    requires over { IsTermIn history.now work.old denied }
    requires line { LineHasOnly work.old line (term_at work.old.bank p ∷ denials (term_at work.old.bank t ∷ terms_at work.old.bank assumed.now)) }
    ensures ok { IfOk result (λ r. IsRewritten history.now work.new (term_at work.old.bank denied ∷ terms_at work.old.bank assumed.now) (term_at work.old.bank t) r) }
    ensures grows { WorkGrows history.now work.old work.new }
    ensures out { result ≡ Err Stop.OutOfSteps → work.new.counter.used ≡ work.new.counter.limit }
{
    let n = unequal_line(work, history, assumed, t, p, denied, line)?;
    unequal_false(work, history, assumed, t, denied, n)
}

/// The line that the equation does not hold where the parts differ.
fn unequal_line(
    work: &mut Work,
    history: &History,
    assumed: &[TermId],
    t: TermId,
    p: TermId,
    denied: TermId,
    line: u64,
) -> Result<u64, Stop>
    requires can { CanRewrite history.now work.old assumed.now t }
    requires test { IsTermIn history.now work.old p }
    requires denied { IsIdOf work.old.bank denied (not_term (term_at work.old.bank p)) }
    requires over { IsTermIn history.now work.old denied }
    requires line { LineHasOnly work.old line (term_at work.old.bank p ∷ denials (term_at work.old.bank t ∷ terms_at work.old.bank assumed.now)) }
    ensures line { IfOk result (λ n. LineHasOnly work.new n (not_term (term_at work.old.bank t) ∷ denials (term_at work.old.bank denied ∷ terms_at work.old.bank assumed.now))) }
    ensures grows { WorkGrows history.now work.old work.new }
    ensures out { result ≡ Err Stop.OutOfSteps → work.new.counter.used ≡ work.new.counter.limit }
{
    let either = opposites(work, history, denied)?;
    cut(work, history, line, either, p)
}

/// The same, as a rewriting.
fn unequal_false(
    work: &mut Work,
    history: &History,
    assumed: &[TermId],
    t: TermId,
    denied: TermId,
    line: u64,
) -> Result<Rewritten, Stop>
    requires can { CanRewrite history.now work.old assumed.now t }
    requires over { IsTermIn history.now work.old denied }
    requires line { LineHasOnly work.old line (not_term (term_at work.old.bank t) ∷ denials (term_at work.old.bank denied ∷ terms_at work.old.bank assumed.now)) }
    ensures ok { IfOk result (λ r. IsRewritten history.now work.new (term_at work.old.bank denied ∷ terms_at work.old.bank assumed.now) (term_at work.old.bank t) r) }
    ensures grows { WorkGrows history.now work.old work.new }
    ensures out { result ≡ Err Stop.OutOfSteps → work.new.counter.used ≡ work.new.counter.limit }
{
    let all = with_more(work, denied, assumed)?;
    false_by_line(work, history, all.as_slice(), t, line)
}
