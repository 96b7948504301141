//! Lines that a part of two objects just made is one, where their equation is assumed: what the first was made of is its part, which
//! is that of the second.
ghost use Rattle.std.specs.Prelude.{◌≡◌, ◌∷◌, IfOk, IfSome, Err, codes};
ghost use Rattle.nq_bank.specs.Content.{term_at, terms_at};
ghost use Rattle.nq_instances.specs.Parts.{AreSides};
ghost use Rattle.nq_kernel.specs.Growing.{WorkGrows};
ghost use Rattle.nq_lines.specs.Lines.{IsTermIn};
ghost use Rattle.nq_reduce.specs.Equations.{IsAssumed};
ghost use Rattle.nq_reduce.specs.Held.{IsHeld};
ghost use Rattle.nq_reduce.specs.Rewriting.{CanRewrite, IsArgument, IsRewritten, ShowsEqual};

use crate::alike::part_fact;
use crate::branches::with_more;
use crate::distinct::lost_kind;
use crate::equations::by_sides;
use crate::following::follow;
use crate::moved::Last;
use crate::results::Rewritten;
use crate::unequal::Unequal;
use nq_bank::TermId;
use nq_history::History;
use nq_kernel::{Stop, Work};
use nq_lines::{Fact, Sides, is_same};

/// The line that a part of both sides is one, where the equation is assumed.
pub fn parts_line(
    work: &mut Work,
    history: &History,
    assumed: &[TermId],
    t: TermId,
    sides: Sides,
    unequal: Unequal,
    a: TermId,
    b: TermId,
) -> Result<Option<u64>, Stop>
    requires can { CanRewrite history.now work.old assumed.now t }
    requires sides { AreSides history.now work.old (codes "EQUAL") t sides }
    requires left { IsArgument history.now work.old sides.left unequal.part a }
    requires right { IsTermIn history.now work.old b }
    ensures line { IfOk result (λ found. IfSome found (λ n. ShowsEqual work.new n (term_at work.old.bank t ∷ terms_at work.old.bank assumed.now) (term_at work.old.bank a) (term_at work.old.bank b))) }
    ensures grows { WorkGrows history.now work.old work.new }
    ensures out { result ≡ Err Stop.OutOfSteps → work.new.counter.used ≡ work.new.counter.limit }
{
    let all = with_more(work, t, assumed)?;
    parts_under(work, history, all.as_slice(), t, sides.left, unequal, a, b)
}

/// The same, where all that is assumed is made.
fn parts_under(
    work: &mut Work,
    history: &History,
    assumed: &[TermId],
    e: TermId,
    l: TermId,
    unequal: Unequal,
    a: TermId,
    b: TermId,
) -> Result<Option<u64>, Stop>
    requires can { CanRewrite history.now work.old assumed.now a }
    requires right { IsTermIn history.now work.old b }
    requires assumed { IsAssumed history.now work.old assumed.now e }
    requires object { IsTermIn history.now work.old l }
    ensures line { IfOk result (λ found. IfSome found (λ n. ShowsEqual work.new n (terms_at work.old.bank assumed.now) (term_at work.old.bank a) (term_at work.old.bank b))) }
    ensures grows { WorkGrows history.now work.old work.new }
    ensures out { result ≡ Err Stop.OutOfSteps → work.new.counter.used ≡ work.new.counter.limit }
{
    match part_fact(
        work,
        history,
        assumed,
        unequal.place,
        unequal.part as u64,
        l,
    )? {
        Some(fact) => parts_by_fact(work, history, assumed, e, l, a, b, fact),
        None => Ok(None),
    }
}

/// The same, by the line of the part of the left side.
fn parts_by_fact(
    work: &mut Work,
    history: &History,
    assumed: &[TermId],
    e: TermId,
    l: TermId,
    a: TermId,
    b: TermId,
    fact: Fact,
) -> Result<Option<u64>, Stop>
    requires can { CanRewrite history.now work.old assumed.now a }
    requires right { IsTermIn history.now work.old b }
    requires assumed { IsAssumed history.now work.old assumed.now e }
    requires object { IsTermIn history.now work.old l }
    requires fact { IsHeld history.now work.old (terms_at work.old.bank assumed.now) fact }
    ensures line { IfOk result (λ found. IfSome found (λ n. ShowsEqual work.new n (terms_at work.old.bank assumed.now) (term_at work.old.bank a) (term_at work.old.bank b))) }
    ensures grows { WorkGrows history.now work.old work.new }
    ensures out { result ≡ Err Stop.OutOfSteps → work.new.counter.used ≡ work.new.counter.limit }
{
    let step = by_sides(work, history, assumed, fact, a)?;
    parts_by_step(work, history, assumed, e, l, a, b, step)
}

/// The same, by the part of the left side.
fn parts_by_step(
    work: &mut Work,
    history: &History,
    assumed: &[TermId],
    e: TermId,
    l: TermId,
    a: TermId,
    b: TermId,
    step: Rewritten,
) -> Result<Option<u64>, Stop>
    requires can { CanRewrite history.now work.old assumed.now a }
    requires right { IsTermIn history.now work.old b }
    requires assumed { IsAssumed history.now work.old assumed.now e }
    requires object { IsTermIn history.now work.old l }
    requires step { IsRewritten history.now work.old (terms_at work.old.bank assumed.now) (term_at work.old.bank a) step }
    ensures line { IfOk result (λ found. IfSome found (λ n. ShowsEqual work.new n (terms_at work.old.bank assumed.now) (term_at work.old.bank a) (term_at work.old.bank b))) }
    ensures grows { WorkGrows history.now work.old work.new }
    ensures out { result ≡ Err Stop.OutOfSteps → work.new.counter.used ≡ work.new.counter.limit }
{
    let rest = lost_kind(work, history, assumed, e, l, step.term, Last::Part)?;
    parts_followed(work, history, assumed, a, b, step, rest)
}

/// The same, by the part of the right side.
fn parts_followed(
    work: &mut Work,
    history: &History,
    assumed: &[TermId],
    a: TermId,
    b: TermId,
    step: Rewritten,
    rest: Rewritten,
) -> Result<Option<u64>, Stop>
    requires can { CanRewrite history.now work.old assumed.now a }
    requires step { IsRewritten history.now work.old (terms_at work.old.bank assumed.now) (term_at work.old.bank a) step }
    requires rest { IsRewritten history.now work.old (terms_at work.old.bank assumed.now) (term_at work.old.bank step.term) rest }
    requires right { IsTermIn history.now work.old b }
    ensures line { IfOk result (λ found. IfSome found (λ n. ShowsEqual work.new n (terms_at work.old.bank assumed.now) (term_at work.old.bank a) (term_at work.old.bank b))) }
    ensures grows { WorkGrows history.now work.old work.new }
    ensures out { result ≡ Err Stop.OutOfSteps → work.new.counter.used ≡ work.new.counter.limit }
{
    let whole = follow(work, history, assumed, a, step, rest)?;
    Ok(reaches(work, history, assumed, a, b, whole))
}

/// The line of a rewriting, where it leads to this term.
fn reaches(
    work: &Work,
    history: &History,
    assumed: &[TermId],
    a: TermId,
    b: TermId,
    whole: Rewritten,
) -> Option<u64>
    requires whole { IsRewritten history.now work.now (terms_at work.now.bank assumed.now) (term_at work.now.bank a) whole }
    ensures { IfSome result (λ n. ShowsEqual work.now n (terms_at work.now.bank assumed.now) (term_at work.now.bank a) (term_at work.now.bank b)) }
{
    let _ = (history.len(), work.bank.alloc());
    if is_same(whole.term, b) {
        whole.line
    } else {
        None
    }
}
