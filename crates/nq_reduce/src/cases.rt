//! A line whose every literal leads to an equation: so the equation is shown.
ghost use Rattle.std.specs.Prelude.{◌≡◌, ◌≤◌, ◌∷◌, ◌++◌, All, drop, length, IfOk, IfSome, Err, codes};
ghost use Rattle.nq_bank.specs.Content.{term_at, terms_at};
ghost use Rattle.nq_kernel.specs.Growing.{LineStands, WorkGrows};
ghost use Rattle.nq_instances.specs.Parts.{AreSides};
ghost use Rattle.nq_lines.specs.Lines.{IsTermIn, LineHasOnly};
ghost use Rattle.nq_reduce.specs.Clauses.{AreLiterals, DropsTo};
ghost use Rattle.nq_reduce.specs.Equations.{IsAssumed};
ghost use Rattle.nq_reduce.specs.Rewriting.{CanRewrite, IsRewritten, ShowsEqual, denials};

use crate::branches::with_more;
use crate::congruence::argument_of;
use crate::distinct::lost_kind;
use crate::moved::Last;
use crate::results::{Rewritten, unchanged};
use crate::shells::by_shell;
use nq_bank::{TermId, ground};
use nq_history::History;
use nq_instances::two_in;
use nq_kernel::{Stop, Work};
use nq_lines::{Sides, cut, is_same};

/// Adds the line of an equation that each literal of a line leads to.
pub fn led_to(
    work: &mut Work,
    history: &History,
    assumed: &[TermId],
    kept: TermId,
    literals: &[TermId],
    line: u64,
) -> Result<Option<u64>, Stop>
    requires can { CanRewrite history.now work.old assumed.now kept }
    requires literals { AreLiterals history.now work.old line literals.now }
    ensures line { IfOk result (λ found. IfSome found (λ n. LineHasOnly work.new n (term_at work.old.bank kept ∷ denials (terms_at work.old.bank assumed.now)))) }
    ensures grows { WorkGrows history.now work.old work.new }
    ensures out { result ≡ Err Stop.OutOfSteps → work.new.counter.used ≡ work.new.counter.limit }
{
    led_rest(work, history, assumed, kept, literals, 0, line)
}

/// The same, where the literals from a place on are left.
fn led_rest(
    work: &mut Work,
    history: &History,
    assumed: &[TermId],
    kept: TermId,
    literals: &[TermId],
    place: usize,
    line: u64,
) -> Result<Option<u64>, Stop>
    requires can { CanRewrite history.now work.old assumed.now kept }
    requires literals { All (IsTermIn history.now work.old) literals.now }
    requires place { place ≤ length literals.now }
    requires line { LineHasOnly work.old line (terms_at work.old.bank (drop place literals.now) ++ (term_at work.old.bank kept ∷ denials (terms_at work.old.bank assumed.now))) }
    ensures line { IfOk result (λ found. IfSome found (λ n. LineHasOnly work.new n (term_at work.old.bank kept ∷ denials (terms_at work.old.bank assumed.now)))) }
    ensures grows { WorkGrows history.now work.old work.new }
    ensures out { result ≡ Err Stop.OutOfSteps → work.new.counter.used ≡ work.new.counter.limit }
{
    if place == literals.len() {
        return Ok(Some(line));
    }
    match led_by(work, history, assumed, kept, literals[place], line)? {
        Some(n) => led_rest(work, history, assumed, kept, literals, place + 1, n),
        None => Ok(None),
    }
}

/// Adds a line without a literal that leads to the equation.
fn led_by(
    work: &mut Work,
    history: &History,
    assumed: &[TermId],
    kept: TermId,
    t: TermId,
    line: u64,
) -> Result<Option<u64>, Stop>
    requires can { CanRewrite history.now work.old assumed.now t }
    requires kept { IsTermIn history.now work.old kept }
    requires line { LineStands work.old line }
    ensures line { IfOk result (λ found. IfSome found (λ n. DropsTo work.old work.new (term_at work.old.bank kept ∷ denials (terms_at work.old.bank assumed.now)) (term_at work.old.bank t) line n)) }
    ensures stands { IfOk result (λ found. IfSome found (λ n. LineStands work.new n)) }
    ensures grows { WorkGrows history.now work.old work.new }
    ensures out { result ≡ Err Stop.OutOfSteps → work.new.counter.used ≡ work.new.counter.limit }
{
    match case_line(work, history, assumed, kept, t)? {
        Some(shown) => led_by_line(work, history, assumed, kept, t, line, shown),
        None => Ok(None),
    }
}

/// The same, by the line of the equation where the literal is assumed.
fn led_by_line(
    work: &mut Work,
    history: &History,
    assumed: &[TermId],
    kept: TermId,
    t: TermId,
    line: u64,
    shown: u64,
) -> Result<Option<u64>, Stop>
    requires can { CanRewrite history.now work.old assumed.now t }
    requires kept { IsTermIn history.now work.old kept }
    requires line { LineStands work.old line }
    requires shown { LineHasOnly work.old shown (term_at work.old.bank kept ∷ denials (term_at work.old.bank t ∷ terms_at work.old.bank assumed.now)) }
    ensures line { IfOk result (λ found. IfSome found (λ n. DropsTo work.old work.new (term_at work.old.bank kept ∷ denials (terms_at work.old.bank assumed.now)) (term_at work.old.bank t) line n)) }
    ensures stands { IfOk result (λ found. IfSome found (λ n. LineStands work.new n)) }
    ensures grows { WorkGrows history.now work.old work.new }
    ensures out { result ≡ Err Stop.OutOfSteps → work.new.counter.used ≡ work.new.counter.limit }
{
    let n = cut(work, history, line, shown, t)?;
    Ok(Some(n))
}

/// The line of an equation, where one more term is assumed.
fn case_line(
    work: &mut Work,
    history: &History,
    assumed: &[TermId],
    kept: TermId,
    t: TermId,
) -> Result<Option<u64>, Stop>
    requires can { CanRewrite history.now work.old assumed.now t }
    requires kept { IsTermIn history.now work.old kept }
    ensures line { IfOk result (λ found. IfSome found (λ n. LineHasOnly work.new n (term_at work.old.bank kept ∷ denials (term_at work.old.bank t ∷ terms_at work.old.bank assumed.now)))) }
    ensures grows { WorkGrows history.now work.old work.new }
    ensures out { result ≡ Err Stop.OutOfSteps → work.new.counter.used ≡ work.new.counter.limit }
{
    let all = with_more(work, t, assumed)?;
    case_under(work, history, all.as_slice(), kept, t)
}

/// The line of an equation, by an assumption.
fn case_under(
    work: &mut Work,
    history: &History,
    assumed: &[TermId],
    kept: TermId,
    h: TermId,
) -> Result<Option<u64>, Stop>
    requires can { CanRewrite history.now work.old assumed.now kept }
    requires assumed { IsAssumed history.now work.old assumed.now h }
    ensures line { IfOk result (λ found. IfSome found (λ n. LineHasOnly work.new n (term_at work.old.bank kept ∷ denials (terms_at work.old.bank assumed.now)))) }
    ensures grows { WorkGrows history.now work.old work.new }
    ensures out { result ≡ Err Stop.OutOfSteps → work.new.counter.used ≡ work.new.counter.limit }
{
    match two_in(work, history, ground::EQUAL, kept) {
        Some(sides) => case_of_sides(work, history, assumed, kept, h, sides),
        None => Ok(None),
    }
}

/// The same, by its sides.
fn case_of_sides(
    work: &mut Work,
    history: &History,
    assumed: &[TermId],
    kept: TermId,
    h: TermId,
    sides: Sides,
) -> Result<Option<u64>, Stop>
    requires can { CanRewrite history.now work.old assumed.now kept }
    requires assumed { IsAssumed history.now work.old assumed.now h }
    requires sides { AreSides history.now work.old (codes "EQUAL") kept sides }
    ensures line { IfOk result (λ found. IfSome found (λ n. LineHasOnly work.new n (term_at work.old.bank kept ∷ denials (terms_at work.old.bank assumed.now)))) }
    ensures grows { WorkGrows history.now work.old work.new }
    ensures out { result ≡ Err Stop.OutOfSteps → work.new.counter.used ≡ work.new.counter.limit }
{
    let new = part_under(work, history, assumed, h, sides.left)?;
    Ok(ends_in(work, history, assumed, kept, sides, new))
}

/// The line of a rewriting that takes one side of an equation to the other.
fn ends_in(
    work: &Work,
    history: &History,
    assumed: &[TermId],
    kept: TermId,
    sides: Sides,
    new: Rewritten,
) -> Option<u64>
    requires sides { AreSides history.now work.now (codes "EQUAL") kept sides }
    requires new { IsRewritten history.now work.now (terms_at work.now.bank assumed.now) (term_at work.now.bank sides.left) new }
    ensures { IfSome result (λ n. LineHasOnly work.now n (term_at work.now.bank kept ∷ denials (terms_at work.now.bank assumed.now))) }
{
    let _ = (history.len(), work.bank.alloc());
    if is_same(new.term, sides.right) {
        new.line
    } else {
        None
    }
}

/// A part of an object, by an assumption: that the object is not of its kind, or what it equals.
fn part_under(
    work: &mut Work,
    history: &History,
    assumed: &[TermId],
    h: TermId,
    t: TermId,
) -> Result<Rewritten, Stop>
    requires can { CanRewrite history.now work.old assumed.now t }
    requires assumed { IsAssumed history.now work.old assumed.now h }
    ensures ok { IfOk result (λ r. IsRewritten history.now work.new (terms_at work.old.bank assumed.now) (term_at work.old.bank t) r) }
    ensures grows { WorkGrows history.now work.old work.new }
    ensures out { result ≡ Err Stop.OutOfSteps → work.new.counter.used ≡ work.new.counter.limit }
{
    let step = by_shell(work, history, assumed, t)?;
    if step.line.is_some() {
        Ok(step)
    } else {
        part_by_equation(work, history, assumed, h, t)
    }
}

/// The same, by what it equals.
fn part_by_equation(
    work: &mut Work,
    history: &History,
    assumed: &[TermId],
    h: TermId,
    t: TermId,
) -> Result<Rewritten, Stop>
    requires can { CanRewrite history.now work.old assumed.now t }
    requires assumed { IsAssumed history.now work.old assumed.now h }
    ensures ok { IfOk result (λ r. IsRewritten history.now work.new (terms_at work.old.bank assumed.now) (term_at work.old.bank t) r) }
    ensures grows { WorkGrows history.now work.old work.new }
    ensures out { result ≡ Err Stop.OutOfSteps → work.new.counter.used ≡ work.new.counter.limit }
{
    match argument_of(work, history, t, 1) {
        Some(a) => lost_kind(work, history, assumed, h, a, t, Last::Part),
        None => Ok(unchanged(t)),
    }
}
