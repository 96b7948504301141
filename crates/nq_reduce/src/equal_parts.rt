//! Equations of objects just made: the IF of the equations of their parts.
//!
//! The parts are compared one after another. Where a part of both differs, the objects do; where it is one, it is replaced, and
//! the equation of the other parts is left.
ghost use Rattle.std.specs.Prelude.{◌≡◌, ◌∷◌, IfOk, Err, codes};
ghost use Rattle.nq_logic.specs.Words.{not_term};
ghost use Rattle.nq_bank.specs.Content.{IsIdOf, term_at, terms_at};
ghost use Rattle.nq_instances.specs.Parts.{AreSides};
ghost use Rattle.nq_kernel.specs.Growing.{WorkGrows};
ghost use Rattle.nq_lines.specs.Lines.{IsTermIn, LineHasOnly};
ghost use Rattle.nq_reduce.specs.Rewriting.{CanRewrite, IsArgument, IsRewritten, ShowsEqual, denials};

use crate::congruence::argument_of;
use crate::divided::divided;
use crate::part_cases::{equal_case, unequal_case};
use crate::results::{Rewritten, unchanged};
use crate::same_parts::parts_line;
use crate::unequal::{Unequal, unequal_part};
use nq_bank::{TermId, ground};
use nq_history::History;
use nq_instances::two_in;
use nq_kernel::{Stop, Work};
use nq_lines::{Sides, deny, equate};

/// The equation of two objects just made is that of their first parts that differ, and of the others.
pub fn by_equal_parts(
    work: &mut Work,
    history: &History,
    assumed: &[TermId],
    t: TermId,
) -> Result<Rewritten, Stop>
    requires can { CanRewrite history.now work.old assumed.now t }
    ensures ok { IfOk result (λ r. IsRewritten history.now work.new (terms_at work.old.bank assumed.now) (term_at work.old.bank t) r) }
    ensures grows { WorkGrows history.now work.old work.new }
    ensures out { result ≡ Err Stop.OutOfSteps → work.new.counter.used ≡ work.new.counter.limit }
{
    match two_in(work, history, ground::EQUAL, t) {
        Some(sides) => by_equal_sides(work, history, assumed, t, sides),
        None => Ok(unchanged(t)),
    }
}

/// The same, by its sides.
fn by_equal_sides(
    work: &mut Work,
    history: &History,
    assumed: &[TermId],
    t: TermId,
    sides: Sides,
) -> Result<Rewritten, Stop>
    requires can { CanRewrite history.now work.old assumed.now t }
    requires sides { AreSides history.now work.old (codes "EQUAL") t sides }
    ensures ok { IfOk result (λ r. IsRewritten history.now work.new (terms_at work.old.bank assumed.now) (term_at work.old.bank t) r) }
    ensures grows { WorkGrows history.now work.old work.new }
    ensures out { result ≡ Err Stop.OutOfSteps → work.new.counter.used ≡ work.new.counter.limit }
{
    match unequal_part(&work.bank, history, sides.left, sides.right) {
        Some(unequal) => by_unequal(work, history, assumed, t, sides, unequal),
        None => Ok(unchanged(t)),
    }
}

/// The same, by this part.
fn by_unequal(
    work: &mut Work,
    history: &History,
    assumed: &[TermId],
    t: TermId,
    sides: Sides,
    unequal: Unequal,
) -> Result<Rewritten, Stop>
    requires can { CanRewrite history.now work.old assumed.now t }
    requires sides { AreSides history.now work.old (codes "EQUAL") t sides }
    ensures ok { IfOk result (λ r. IsRewritten history.now work.new (terms_at work.old.bank assumed.now) (term_at work.old.bank t) r) }
    ensures grows { WorkGrows history.now work.old work.new }
    ensures out { result ≡ Err Stop.OutOfSteps → work.new.counter.used ≡ work.new.counter.limit }
{
    match argument_of(work, history, sides.left, unequal.part) {
        Some(a) => by_unequal_left(work, history, assumed, t, sides, unequal, a),
        None => Ok(unchanged(t)),
    }
}

/// The same, where it is known on the left side.
fn by_unequal_left(
    work: &mut Work,
    history: &History,
    assumed: &[TermId],
    t: TermId,
    sides: Sides,
    unequal: Unequal,
    a: TermId,
) -> Result<Rewritten, Stop>
    requires can { CanRewrite history.now work.old assumed.now t }
    requires sides { AreSides history.now work.old (codes "EQUAL") t sides }
    requires left { IsArgument history.now work.old sides.left unequal.part a }
    ensures ok { IfOk result (λ r. IsRewritten history.now work.new (terms_at work.old.bank assumed.now) (term_at work.old.bank t) r) }
    ensures grows { WorkGrows history.now work.old work.new }
    ensures out { result ≡ Err Stop.OutOfSteps → work.new.counter.used ≡ work.new.counter.limit }
{
    match argument_of(work, history, sides.right, unequal.part) {
        Some(b) => by_unequal_terms(work, history, assumed, t, sides, unequal, a, b),
        None => Ok(unchanged(t)),
    }
}

/// The same, where it is known on both sides.
fn by_unequal_terms(
    work: &mut Work,
    history: &History,
    assumed: &[TermId],
    t: TermId,
    sides: Sides,
    unequal: Unequal,
    a: TermId,
    b: TermId,
) -> Result<Rewritten, Stop>
    requires can { CanRewrite history.now work.old assumed.now t }
    requires sides { AreSides history.now work.old (codes "EQUAL") t sides }
    requires left { IsArgument history.now work.old sides.left unequal.part a }
    requires right { IsTermIn history.now work.old b }
    ensures ok { IfOk result (λ r. IsRewritten history.now work.new (terms_at work.old.bank assumed.now) (term_at work.old.bank t) r) }
    ensures grows { WorkGrows history.now work.old work.new }
    ensures out { result ≡ Err Stop.OutOfSteps → work.new.counter.used ≡ work.new.counter.limit }
{
    match parts_line(work, history, assumed, t, sides, unequal, a, b)? {
        Some(line) => by_parts_line(work, history, assumed, t, sides, unequal, a, b, line),
        None => Ok(unchanged(t)),
    }
}

/// The equation of two objects, where it makes a part of both one.
fn by_parts_line(
    work: &mut Work,
    history: &History,
    assumed: &[TermId],
    t: TermId,
    sides: Sides,
    unequal: Unequal,
    a: TermId,
    b: TermId,
    line: u64,
) -> Result<Rewritten, Stop>
    requires can { CanRewrite history.now work.old assumed.now t }
    requires sides { AreSides history.now work.old (codes "EQUAL") t sides }
    requires left { IsArgument history.now work.old sides.left unequal.part a }
    requires right { IsTermIn history.now work.old b }
    requires line { ShowsEqual work.old line (term_at work.old.bank t ∷ terms_at work.old.bank assumed.now) (term_at work.old.bank a) (term_at work.old.bank b) }
    ensures ok { IfOk result (λ r. IsRewritten history.now work.new (terms_at work.old.bank assumed.now) (term_at work.old.bank t) r) }
    ensures grows { WorkGrows history.now work.old work.new }
    ensures out { result ≡ Err Stop.OutOfSteps → work.new.counter.used ≡ work.new.counter.limit }
{
    let p = equate(work, history, a, b)?;
    by_parts_test(work, history, assumed, t, sides, unequal, a, p, line)
}

/// The same, by the equation of the parts.
fn by_parts_test(
    work: &mut Work,
    history: &History,
    assumed: &[TermId],
    t: TermId,
    sides: Sides,
    unequal: Unequal,
    a: TermId,
    p: TermId,
    line: u64,
) -> Result<Rewritten, Stop>
    requires can { CanRewrite history.now work.old assumed.now t }
    requires sides { AreSides history.now work.old (codes "EQUAL") t sides }
    requires left { IsArgument history.now work.old sides.left unequal.part a }
    requires test { IsTermIn history.now work.old p }
    requires line { LineHasOnly work.old line (term_at work.old.bank p ∷ denials (term_at work.old.bank t ∷ terms_at work.old.bank assumed.now)) }
    ensures ok { IfOk result (λ r. IsRewritten history.now work.new (terms_at work.old.bank assumed.now) (term_at work.old.bank t) r) }
    ensures grows { WorkGrows history.now work.old work.new }
    ensures out { result ≡ Err Stop.OutOfSteps → work.new.counter.used ≡ work.new.counter.limit }
{
    let denied = deny(work, history, p)?;
    by_parts_denied(
        work, history, assumed, t, sides, unequal, a, p, denied, line,
    )
}

/// The same, where the NOT of that is made.
fn by_parts_denied(
    work: &mut Work,
    history: &History,
    assumed: &[TermId],
    t: TermId,
    sides: Sides,
    unequal: Unequal,
    a: TermId,
    p: TermId,
    denied: TermId,
    line: u64,
) -> Result<Rewritten, Stop>
    requires can { CanRewrite history.now work.old assumed.now t }
    requires sides { AreSides history.now work.old (codes "EQUAL") t sides }
    requires left { IsArgument history.now work.old sides.left unequal.part a }
    requires test { IsTermIn history.now work.old p }
    requires denied { IsIdOf work.old.bank denied (not_term (term_at work.old.bank p)) }
    requires over { IsTermIn history.now work.old denied }
    requires line { LineHasOnly work.old line (term_at work.old.bank p ∷ denials (term_at work.old.bank t ∷ terms_at work.old.bank assumed.now)) }
    ensures ok { IfOk result (λ r. IsRewritten history.now work.new (terms_at work.old.bank assumed.now) (term_at work.old.bank t) r) }
    ensures grows { WorkGrows history.now work.old work.new }
    ensures out { result ≡ Err Stop.OutOfSteps → work.new.counter.used ≡ work.new.counter.limit }
{
    let first = equal_case(work, history, assumed, t, sides.left, unequal, a, p)?;
    by_parts_first(work, history, assumed, t, p, denied, line, first)
}

/// The same, where what comes of one part is known.
fn by_parts_first(
    work: &mut Work,
    history: &History,
    assumed: &[TermId],
    t: TermId,
    p: TermId,
    denied: TermId,
    line: u64,
    first: Rewritten,
) -> Result<Rewritten, Stop>
    requires can { CanRewrite history.now work.old assumed.now t }
    requires test { IsTermIn history.now work.old p }
    requires denied { IsIdOf work.old.bank denied (not_term (term_at work.old.bank p)) }
    requires over { IsTermIn history.now work.old denied }
    requires line { LineHasOnly work.old line (term_at work.old.bank p ∷ denials (term_at work.old.bank t ∷ terms_at work.old.bank assumed.now)) }
    requires first { IsRewritten history.now work.old (term_at work.old.bank p ∷ terms_at work.old.bank assumed.now) (term_at work.old.bank t) first }
    ensures ok { IfOk result (λ r. IsRewritten history.now work.new (terms_at work.old.bank assumed.now) (term_at work.old.bank t) r) }
    ensures grows { WorkGrows history.now work.old work.new }
    ensures out { result ≡ Err Stop.OutOfSteps → work.new.counter.used ≡ work.new.counter.limit }
{
    if first.line.is_none() {
        return Ok(unchanged(t));
    }
    let second = unequal_case(work, history, assumed, t, p, denied, line)?;
    divided(work, history, assumed, t, p, denied, first, second)
}
