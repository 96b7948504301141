//! Equations of terms of different kinds: they are F.
//!
//! A recognizer holds of one side. If the sides were equal, it would hold of the other side too, of which it is known to be F.
ghost use Rattle.std.specs.Prelude.{◌≡◌, ◌∷◌, All, IfOk, IfSome, Err, codes};
ghost use Rattle.nq_logic.specs.Words.{false_term, not_term};
ghost use Rattle.nq_bank.specs.Content.{IsNamed, Stands, term_at, terms_at};
ghost use Rattle.nq_kernel.specs.Growing.{WorkGrows};
ghost use Rattle.nq_instances.specs.Parts.{AreSides};
ghost use Rattle.nq_lines.specs.Lines.{IsTermIn, LineHasOnly};
ghost use Rattle.nq_reduce.specs.Clauses.{LineIsIn};
ghost use Rattle.nq_reduce.specs.Equations.{IsAssumed};
ghost use Rattle.nq_reduce.specs.Held.{IsHeld};
ghost use Rattle.nq_reduce.specs.Rewriting.{CanRewrite, IsRewritten, ShowsEqual, denials};

use crate::assumptions::false_by_line;
use crate::branches::with_more;
use crate::congruence::{argument_of, congruent};
use crate::equations::by_sides;
use crate::following::follow;
use crate::kinds::{head_of, is_truth_value};
use crate::made::made_fact;
use crate::moved::{Last, last_step};
use crate::recognizing::{kind_of, kind_told};
use crate::results::{Rewritten, unchanged};
use crate::values::is_falsity;
use nq_bank::{Bank, TermId, ground};
use nq_history::History;
use nq_instances::two_in;
use nq_kernel::{Stop, Work};
use nq_lines::{Fact, Sides, cut, from_equal_false, is_same, opposites};

/// The equation of two terms of different kinds is F.
pub fn by_distinct(
    work: &mut Work,
    history: &History,
    assumed: &[TermId],
    t: TermId,
) -> Result<Rewritten, Stop>
    requires can { CanRewrite history.now work.old assumed.now t }
    ensures ok { IfOk result (λ r. IsRewritten history.now work.new (terms_at work.old.bank assumed.now) (term_at work.old.bank t) r) }
    ensures grows { WorkGrows history.now work.old work.new }
    ensures out { result ≡ Err Stop.OutOfSteps → work.new.counter.used ≡ work.new.counter.limit }
{
    match two_in(work, history, ground::EQUAL, t) {
        Some(sides) => by_distinct_sides(work, history, assumed, t, sides),
        None => Ok(unchanged(t)),
    }
}

/// The same, by its sides.
fn by_distinct_sides(
    work: &mut Work,
    history: &History,
    assumed: &[TermId],
    t: TermId,
    sides: Sides,
) -> Result<Rewritten, Stop>
    requires can { CanRewrite history.now work.old assumed.now t }
    requires sides { AreSides history.now work.old (codes "EQUAL") t sides }
    ensures ok { IfOk result (λ r. IsRewritten history.now work.new (terms_at work.old.bank assumed.now) (term_at work.old.bank t) r) }
    ensures grows { WorkGrows history.now work.old work.new }
    ensures out { result ≡ Err Stop.OutOfSteps → work.new.counter.used ≡ work.new.counter.limit }
{
    if differ(&work.bank, history, assumed, sides.left, sides.right) {
        by_kind_of(work, history, assumed, t, sides.left)
    } else if differ(&work.bank, history, assumed, sides.right, sides.left) {
        by_kind_of(work, history, assumed, t, sides.right)
    } else {
        Ok(unchanged(t))
    }
}

/// Is the first term of a kind, and the second of another, or T or F?
fn differ(bank: &Bank, history: &History, assumed: &[TermId], a: TermId, b: TermId) -> bool
    requires assumed { All (Stands bank.now) assumed.now }
    requires first { Stands bank.now a }
    requires second { Stands bank.now b }
{
    match kind_of(bank, history, assumed, a) {
        Some(place) => match kind_of(bank, history, assumed, b) {
            Some(other) => place != other,
            None => is_truth_value(head_of(bank, b)),
        },
        None => false,
    }
}

/// The same, by the kind of one side.
fn by_kind_of(
    work: &mut Work,
    history: &History,
    assumed: &[TermId],
    t: TermId,
    a: TermId,
) -> Result<Rewritten, Stop>
    requires can { CanRewrite history.now work.old assumed.now t }
    requires side { IsTermIn history.now work.old a }
    ensures ok { IfOk result (λ r. IsRewritten history.now work.new (terms_at work.old.bank assumed.now) (term_at work.old.bank t) r) }
    ensures grows { WorkGrows history.now work.old work.new }
    ensures out { result ≡ Err Stop.OutOfSteps → work.new.counter.used ≡ work.new.counter.limit }
{
    match kind_fact(work, history, assumed, a)? {
        Some(fact) => by_kind_fact(work, history, assumed, t, a, fact),
        None => Ok(unchanged(t)),
    }
}

/// A line that says of what kind a term is.
fn kind_fact(
    work: &mut Work,
    history: &History,
    assumed: &[TermId],
    t: TermId,
) -> Result<Option<Fact>, Stop>
    requires can { CanRewrite history.now work.old assumed.now t }
    ensures held { IfOk result (λ found. IfSome found (IsHeld history.now work.new (terms_at work.old.bank assumed.now))) }
    ensures grows { WorkGrows history.now work.old work.new }
    ensures out { result ≡ Err Stop.OutOfSteps → work.new.counter.used ≡ work.new.counter.limit }
{
    match assumed_kind_of(work, history, assumed, t) {
        Some(h) => assumed_fact(work, history, assumed, h, t),
        None => made_fact(work, history, assumed, t),
    }
}

/// An assumption that says of what kind a term is.
fn assumed_kind_of(work: &Work, history: &History, assumed: &[TermId], t: TermId) -> Option<TermId>
    requires can { CanRewrite history.now work.now assumed.now t }
    ensures { IfSome result (IsAssumed history.now work.now assumed.now) }
{
    for a in assumed {
        if tells_kind(&work.bank, history, *a, t) {
            return Some(*a);
        }
    }
    None
}

/// Does a term say of what kind another is?
fn tells_kind(bank: &Bank, history: &History, h: TermId, t: TermId) -> bool
    requires { Stands bank.now h }
{
    kind_told(bank, history, h, t).is_some()
}

/// The line of an assumption.
fn assumed_fact(
    work: &mut Work,
    history: &History,
    assumed: &[TermId],
    a: TermId,
    t: TermId,
) -> Result<Option<Fact>, Stop>
    requires can { CanRewrite history.now work.old assumed.now t }
    requires assumed { IsAssumed history.now work.old assumed.now a }
    ensures held { IfOk result (λ found. IfSome found (IsHeld history.now work.new (terms_at work.old.bank assumed.now))) }
    ensures grows { WorkGrows history.now work.old work.new }
    ensures out { result ≡ Err Stop.OutOfSteps → work.new.counter.used ≡ work.new.counter.limit }
{
    let line = opposites(work, history, a)?;
    Ok(Some(Fact { term: a, line }))
}

/// An equation is F by the line that says of what kind one of its sides is.
fn by_kind_fact(
    work: &mut Work,
    history: &History,
    assumed: &[TermId],
    t: TermId,
    a: TermId,
    fact: Fact,
) -> Result<Rewritten, Stop>
    requires can { CanRewrite history.now work.old assumed.now t }
    requires side { IsTermIn history.now work.old a }
    requires fact { IsHeld history.now work.old (terms_at work.old.bank assumed.now) fact }
    ensures ok { IfOk result (λ r. IsRewritten history.now work.new (terms_at work.old.bank assumed.now) (term_at work.old.bank t) r) }
    ensures grows { WorkGrows history.now work.old work.new }
    ensures out { result ≡ Err Stop.OutOfSteps → work.new.counter.used ≡ work.new.counter.limit }
{
    let all = with_more(work, t, assumed)?;
    lost_under(work, history, assumed, all.as_slice(), t, a, fact)
}

/// The same, where all that is assumed then is made.
fn lost_under(
    work: &mut Work,
    history: &History,
    assumed: &[TermId],
    all: &[TermId],
    t: TermId,
    a: TermId,
    fact: Fact,
) -> Result<Rewritten, Stop>
    requires can { CanRewrite history.now work.old assumed.now t }
    requires all { all.now ≡ t ∷ assumed.now }
    requires side { IsTermIn history.now work.old a }
    requires fact { IsHeld history.now work.old (terms_at work.old.bank assumed.now) fact }
    ensures ok { IfOk result (λ r. IsRewritten history.now work.new (terms_at work.old.bank assumed.now) (term_at work.old.bank t) r) }
    ensures grows { WorkGrows history.now work.old work.new }
    ensures out { result ≡ Err Stop.OutOfSteps → work.new.counter.used ≡ work.new.counter.limit }
{
    let new = lost_kind(work, history, all, t, a, fact.term, Last::Kind)?;
    by_contradiction(work, history, assumed, t, fact, new)
}

/// What a call on one side comes to where the equation is assumed, by this last step.
pub fn lost_kind(
    work: &mut Work,
    history: &History,
    assumed: &[TermId],
    e: TermId,
    a: TermId,
    t: TermId,
    last: Last,
) -> Result<Rewritten, Stop>
    requires can { CanRewrite history.now work.old assumed.now t }
    requires side { IsTermIn history.now work.old a }
    requires equation { IsAssumed history.now work.old assumed.now e }
    ensures ok { IfOk result (λ r. IsRewritten history.now work.new (terms_at work.old.bank assumed.now) (term_at work.old.bank t) r) }
    ensures grows { WorkGrows history.now work.old work.new }
    ensures out { result ≡ Err Stop.OutOfSteps → work.new.counter.used ≡ work.new.counter.limit }
{
    let line = opposites(work, history, e)?;
    lost_by_equation(work, history, assumed, Fact { term: e, line }, a, t, last)
}

/// The same, by the line of the equation.
fn lost_by_equation(
    work: &mut Work,
    history: &History,
    assumed: &[TermId],
    fact: Fact,
    a: TermId,
    t: TermId,
    last: Last,
) -> Result<Rewritten, Stop>
    requires can { CanRewrite history.now work.old assumed.now t }
    requires side { IsTermIn history.now work.old a }
    requires fact { IsHeld history.now work.old (terms_at work.old.bank assumed.now) fact }
    ensures ok { IfOk result (λ r. IsRewritten history.now work.new (terms_at work.old.bank assumed.now) (term_at work.old.bank t) r) }
    ensures grows { WorkGrows history.now work.old work.new }
    ensures out { result ≡ Err Stop.OutOfSteps → work.new.counter.used ≡ work.new.counter.limit }
{
    let other = by_sides(work, history, assumed, fact, a)?;
    lost_by_side(work, history, assumed, a, other, t, last)
}

/// The same, by what the side is rewritten to.
fn lost_by_side(
    work: &mut Work,
    history: &History,
    assumed: &[TermId],
    a: TermId,
    other: Rewritten,
    t: TermId,
    last: Last,
) -> Result<Rewritten, Stop>
    requires can { CanRewrite history.now work.old assumed.now t }
    requires side { IsTermIn history.now work.old a }
    requires other { IsRewritten history.now work.old (terms_at work.old.bank assumed.now) (term_at work.old.bank a) other }
    ensures ok { IfOk result (λ r. IsRewritten history.now work.new (terms_at work.old.bank assumed.now) (term_at work.old.bank t) r) }
    ensures grows { WorkGrows history.now work.old work.new }
    ensures out { result ≡ Err Stop.OutOfSteps → work.new.counter.used ≡ work.new.counter.limit }
{
    match argument_of(work, history, t, 1) {
        Some(x) => {
            if is_same(x, a) {
                let moved = congruent(work, history, assumed, t, 1, x, other)?;
                lost_after(work, history, assumed, t, moved, last)
            } else {
                Ok(unchanged(t))
            }
        }
        None => Ok(unchanged(t)),
    }
}

/// What a call on the other side comes to.
fn lost_after(
    work: &mut Work,
    history: &History,
    assumed: &[TermId],
    t: TermId,
    moved: Rewritten,
    last: Last,
) -> Result<Rewritten, Stop>
    requires can { CanRewrite history.now work.old assumed.now t }
    requires moved { IsRewritten history.now work.old (terms_at work.old.bank assumed.now) (term_at work.old.bank t) moved }
    ensures ok { IfOk result (λ r. IsRewritten history.now work.new (terms_at work.old.bank assumed.now) (term_at work.old.bank t) r) }
    ensures grows { WorkGrows history.now work.old work.new }
    ensures out { result ≡ Err Stop.OutOfSteps → work.new.counter.used ≡ work.new.counter.limit }
{
    let rest = last_step(work, history, assumed, last, moved.term)?;
    follow(work, history, assumed, t, moved, rest)
}

/// A term is F, where what a line shows comes to F if it is assumed.
fn by_contradiction(
    work: &mut Work,
    history: &History,
    assumed: &[TermId],
    t: TermId,
    fact: Fact,
    new: Rewritten,
) -> Result<Rewritten, Stop>
    requires can { CanRewrite history.now work.old assumed.now t }
    requires fact { IsHeld history.now work.old (terms_at work.old.bank assumed.now) fact }
    requires new { IsRewritten history.now work.old (term_at work.old.bank t ∷ terms_at work.old.bank assumed.now) (term_at work.old.bank fact.term) new }
    ensures ok { IfOk result (λ r. IsRewritten history.now work.new (terms_at work.old.bank assumed.now) (term_at work.old.bank t) r) }
    ensures grows { WorkGrows history.now work.old work.new }
    ensures out { result ≡ Err Stop.OutOfSteps → work.new.counter.used ≡ work.new.counter.limit }
{
    match new.line {
        Some(n) => by_contradicted(work, history, assumed, t, fact, new.term, n),
        None => Ok(unchanged(t)),
    }
}

/// The same, by the line of what it comes to.
fn by_contradicted(
    work: &mut Work,
    history: &History,
    assumed: &[TermId],
    t: TermId,
    fact: Fact,
    f: TermId,
    n: u64,
) -> Result<Rewritten, Stop>
    requires can { CanRewrite history.now work.old assumed.now t }
    requires fact { IsHeld history.now work.old (terms_at work.old.bank assumed.now) fact }
    requires end { IsTermIn history.now work.old f }
    requires new { ShowsEqual work.old n (term_at work.old.bank t ∷ terms_at work.old.bank assumed.now) (term_at work.old.bank fact.term) (term_at work.old.bank f) }
    ensures ok { IfOk result (λ r. IsRewritten history.now work.new (terms_at work.old.bank assumed.now) (term_at work.old.bank t) r) }
    ensures grows { WorkGrows history.now work.old work.new }
    ensures out { result ≡ Err Stop.OutOfSteps → work.new.counter.used ≡ work.new.counter.limit }
{
    if is_falsity(&work.bank, f) {
        let line = contradicted(work, history, assumed, t, fact, n)?;
        false_by_line(work, history, assumed, t, line)
    } else {
        Ok(unchanged(t))
    }
}

/// The line that a term is false, since what a line shows would be F.
fn contradicted(
    work: &mut Work,
    history: &History,
    assumed: &[TermId],
    t: TermId,
    fact: Fact,
    n: u64,
) -> Result<u64, Stop>
    requires can { CanRewrite history.now work.old assumed.now t }
    requires fact { IsHeld history.now work.old (terms_at work.old.bank assumed.now) fact }
    requires new { ShowsEqual work.old n (term_at work.old.bank t ∷ terms_at work.old.bank assumed.now) (term_at work.old.bank fact.term) false_term }
    ensures line { IfOk result (λ line. LineHasOnly work.new line (not_term (term_at work.old.bank t) ∷ denials (terms_at work.old.bank assumed.now))) }
    ensures grows { WorkGrows history.now work.old work.new }
    ensures out { result ≡ Err Stop.OutOfSteps → work.new.counter.used ≡ work.new.counter.limit }
{
    let denied = from_equal_false(work, history, fact.term, n)?;
    cut(work, history, fact.line, denied, fact.term)
}
