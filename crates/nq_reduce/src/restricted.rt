//! Recognizers of restricted parts: a part that must be of a kind is of that kind, whatever the object is.
//!
//! If it were not, the part would be the default, by each row of the shell: where the object is of another kind, where it is the
//! base, and where it is made of its parts. Of the default the recognizer holds.
ghost use Rattle.std.specs.Prelude.{◌≡◌, ◌∷◌, IfOk, IfSome, Err};
ghost use Rattle.nq_logic.specs.Words.{not_term};
ghost use Rattle.nq_bank.specs.Content.{IsIdOf, IsNamed, term_at, terms_at};
ghost use Rattle.nq_kernel.specs.Growing.{WorkGrows};
ghost use Rattle.nq_lines.specs.Lines.{IsTermIn};
ghost use Rattle.nq_reduce.specs.Clauses.{AreLiterals, LineIsIn};
ghost use Rattle.nq_reduce.specs.Held.{IsHeld};
ghost use Rattle.nq_reduce.specs.Rewriting.{CanRewrite, IsArgument, IsKnown, IsRewritten};

use crate::branches::with_more;
use crate::cases::led_to;
use crate::clauses::{last_literal, literals_of};
use crate::congruence::{argument_of, congruent};
use crate::held::rewritten_by;
use crate::kinds::{constructor_at, restricted_part};
use crate::knowledge::Known;
use crate::parted::parted_line;
use crate::results::Rewritten;
use crate::rows::{Chosen, row_instance};
use crate::settling::{settled as settled_at_once, value_told};
use crate::trials::PART_OF_OTHER;
use nq_bank::{Sym, TermId};
use nq_history::History;
use nq_kernel::{Stop, Work};
use nq_lines::{Fact, deny, undeny};

/// What is known of a term at once, or since it is the recognizer of a part that must be of that kind.
pub fn settled(
    work: &mut Work,
    history: &History,
    assumed: &[TermId],
    t: TermId,
) -> Result<Option<Known>, Stop>
    requires can { CanRewrite history.now work.old assumed.now t }
    ensures known { IfOk result (λ found. IfSome found (λ known. IsKnown work.new (terms_at work.old.bank assumed.now) (term_at work.old.bank t) known)) }
    ensures grows { WorkGrows history.now work.old work.new }
    ensures out { result ≡ Err Stop.OutOfSteps → work.new.counter.used ≡ work.new.counter.limit }
{
    match settled_at_once(work, history, assumed, t)? {
        Some(known) => Ok(Some(known)),
        None => told_by_part(work, history, assumed, t),
    }
}

/// That the recognizer of a restricted part holds.
pub fn told_by_part(
    work: &mut Work,
    history: &History,
    assumed: &[TermId],
    t: TermId,
) -> Result<Option<Known>, Stop>
    requires can { CanRewrite history.now work.old assumed.now t }
    ensures known { IfOk result (λ found. IfSome found (λ known. IsKnown work.new (terms_at work.old.bank assumed.now) (term_at work.old.bank t) known)) }
    ensures grows { WorkGrows history.now work.old work.new }
    ensures out { result ≡ Err Stop.OutOfSteps → work.new.counter.used ≡ work.new.counter.limit }
{
    match restricted_part(&work.bank, history, t) {
        Some((place, part)) => told_of_part(work, history, assumed, place, part, t),
        None => Ok(None),
    }
}

/// The same, of this part of the shell at a place.
fn told_of_part(
    work: &mut Work,
    history: &History,
    assumed: &[TermId],
    place: usize,
    part: u64,
    t: TermId,
) -> Result<Option<Known>, Stop>
    requires can { CanRewrite history.now work.old assumed.now t }
    ensures known { IfOk result (λ found. IfSome found (λ known. IsKnown work.new (terms_at work.old.bank assumed.now) (term_at work.old.bank t) known)) }
    ensures grows { WorkGrows history.now work.old work.new }
    ensures out { result ≡ Err Stop.OutOfSteps → work.new.counter.used ≡ work.new.counter.limit }
{
    let denied = deny(work, history, t)?;
    told_if_denied(work, history, assumed, place, part, t, denied)
}

/// The same, where the NOT of it is made.
fn told_if_denied(
    work: &mut Work,
    history: &History,
    assumed: &[TermId],
    place: usize,
    part: u64,
    t: TermId,
    denied: TermId,
) -> Result<Option<Known>, Stop>
    requires can { CanRewrite history.now work.old assumed.now t }
    requires denied { IsIdOf work.old.bank denied (not_term (term_at work.old.bank t)) }
    requires over { IsTermIn history.now work.old denied }
    ensures known { IfOk result (λ found. IfSome found (λ known. IsKnown work.new (terms_at work.old.bank assumed.now) (term_at work.old.bank t) known)) }
    ensures grows { WorkGrows history.now work.old work.new }
    ensures out { result ≡ Err Stop.OutOfSteps → work.new.counter.used ≡ work.new.counter.limit }
{
    match told_under(work, history, assumed, place, part, t, denied)? {
        Some(known) => withdrawn(work, history, assumed, t, denied, known),
        None => Ok(None),
    }
}

/// What is known of a term where its NOT is assumed.
fn told_under(
    work: &mut Work,
    history: &History,
    assumed: &[TermId],
    place: usize,
    part: u64,
    t: TermId,
    denied: TermId,
) -> Result<Option<Known>, Stop>
    requires can { CanRewrite history.now work.old assumed.now t }
    requires over { IsTermIn history.now work.old denied }
    ensures known { IfOk result (λ found. IfSome found (λ known. IsKnown work.new (term_at work.old.bank denied ∷ terms_at work.old.bank assumed.now) (term_at work.old.bank t) known)) }
    ensures grows { WorkGrows history.now work.old work.new }
    ensures out { result ≡ Err Stop.OutOfSteps → work.new.counter.used ≡ work.new.counter.limit }
{
    let all = with_more(work, denied, assumed)?;
    told_by_default(work, history, all.as_slice(), place, part, t)
}

/// A term that is true where its NOT is assumed is true.
fn withdrawn(
    work: &mut Work,
    history: &History,
    assumed: &[TermId],
    t: TermId,
    denied: TermId,
    known: Known,
) -> Result<Option<Known>, Stop>
    requires can { CanRewrite history.now work.old assumed.now t }
    requires denied { IsIdOf work.old.bank denied (not_term (term_at work.old.bank t)) }
    requires over { IsTermIn history.now work.old denied }
    requires known { IsKnown work.old (term_at work.old.bank denied ∷ terms_at work.old.bank assumed.now) (term_at work.old.bank t) known }
    ensures known { IfOk result (λ found. IfSome found (λ known. IsKnown work.new (terms_at work.old.bank assumed.now) (term_at work.old.bank t) known)) }
    ensures grows { WorkGrows history.now work.old work.new }
    ensures out { result ≡ Err Stop.OutOfSteps → work.new.counter.used ≡ work.new.counter.limit }
{
    if known.value {
        let line = undeny(work, history, t, known.line)?;
        Ok(Some(Known { value: true, line }))
    } else {
        Ok(None)
    }
}

/// What is known of the recognizer of a part, since the part is the default.
fn told_by_default(
    work: &mut Work,
    history: &History,
    assumed: &[TermId],
    place: usize,
    part: u64,
    t: TermId,
) -> Result<Option<Known>, Stop>
    requires can { CanRewrite history.now work.old assumed.now t }
    ensures known { IfOk result (λ found. IfSome found (λ known. IsKnown work.new (terms_at work.old.bank assumed.now) (term_at work.old.bank t) known)) }
    ensures grows { WorkGrows history.now work.old work.new }
    ensures out { result ≡ Err Stop.OutOfSteps → work.new.counter.used ≡ work.new.counter.limit }
{
    match argument_of(work, history, t, 1) {
        Some(x) => told_of_default(work, history, assumed, place, part, t, x),
        None => Ok(None),
    }
}

/// The same, of the recognizer of this term.
fn told_of_default(
    work: &mut Work,
    history: &History,
    assumed: &[TermId],
    place: usize,
    part: u64,
    t: TermId,
    x: TermId,
) -> Result<Option<Known>, Stop>
    requires can { CanRewrite history.now work.old assumed.now t }
    requires argument { IsArgument history.now work.old t 1 x }
    ensures known { IfOk result (λ found. IfSome found (λ known. IsKnown work.new (terms_at work.old.bank assumed.now) (term_at work.old.bank t) known)) }
    ensures grows { WorkGrows history.now work.old work.new }
    ensures out { result ≡ Err Stop.OutOfSteps → work.new.counter.used ≡ work.new.counter.limit }
{
    match default_fact(work, history, assumed, place, part, x)? {
        Some(fact) => told_by_fact(work, history, assumed, t, x, fact),
        None => Ok(None),
    }
}

/// The same, by the line of the part and the default.
fn told_by_fact(
    work: &mut Work,
    history: &History,
    assumed: &[TermId],
    t: TermId,
    x: TermId,
    fact: Fact,
) -> Result<Option<Known>, Stop>
    requires can { CanRewrite history.now work.old assumed.now t }
    requires argument { IsArgument history.now work.old t 1 x }
    requires fact { IsHeld history.now work.old (terms_at work.old.bank assumed.now) fact }
    ensures known { IfOk result (λ found. IfSome found (λ known. IsKnown work.new (terms_at work.old.bank assumed.now) (term_at work.old.bank t) known)) }
    ensures grows { WorkGrows history.now work.old work.new }
    ensures out { result ≡ Err Stop.OutOfSteps → work.new.counter.used ≡ work.new.counter.limit }
{
    let new = rewritten_by(work, history, assumed, fact, x)?;
    told_after_part(work, history, assumed, t, x, new)
}

/// The same, by what the part comes to.
fn told_after_part(
    work: &mut Work,
    history: &History,
    assumed: &[TermId],
    t: TermId,
    x: TermId,
    new: Rewritten,
) -> Result<Option<Known>, Stop>
    requires can { CanRewrite history.now work.old assumed.now t }
    requires argument { IsArgument history.now work.old t 1 x }
    requires new { IsRewritten history.now work.old (terms_at work.old.bank assumed.now) (term_at work.old.bank x) new }
    ensures known { IfOk result (λ found. IfSome found (λ known. IsKnown work.new (terms_at work.old.bank assumed.now) (term_at work.old.bank t) known)) }
    ensures grows { WorkGrows history.now work.old work.new }
    ensures out { result ≡ Err Stop.OutOfSteps → work.new.counter.used ≡ work.new.counter.limit }
{
    let moved = congruent(work, history, assumed, t, 1, x, new)?;
    told_after(work, history, assumed, t, moved)
}

/// What is known of a term by what it comes to.
fn told_after(
    work: &mut Work,
    history: &History,
    assumed: &[TermId],
    t: TermId,
    new: Rewritten,
) -> Result<Option<Known>, Stop>
    requires can { CanRewrite history.now work.old assumed.now t }
    requires new { IsRewritten history.now work.old (terms_at work.old.bank assumed.now) (term_at work.old.bank t) new }
    ensures known { IfOk result (λ found. IfSome found (λ known. IsKnown work.new (terms_at work.old.bank assumed.now) (term_at work.old.bank t) known)) }
    ensures grows { WorkGrows history.now work.old work.new }
    ensures out { result ≡ Err Stop.OutOfSteps → work.new.counter.used ≡ work.new.counter.limit }
{
    match settled_at_once(work, history, assumed, new.term)? {
        Some(known) => value_told(work, history, assumed, t, new, known),
        None => Ok(None),
    }
}

/// The line of the equation of a part and its default.
fn default_fact(
    work: &mut Work,
    history: &History,
    assumed: &[TermId],
    place: usize,
    part: u64,
    t: TermId,
) -> Result<Option<Fact>, Stop>
    requires can { CanRewrite history.now work.old assumed.now t }
    ensures held { IfOk result (λ found. IfSome found (IsHeld history.now work.new (terms_at work.old.bank assumed.now))) }
    ensures grows { WorkGrows history.now work.old work.new }
    ensures out { result ≡ Err Stop.OutOfSteps → work.new.counter.used ≡ work.new.counter.limit }
{
    match default_equation(work, history, assumed, place, part, t)? {
        Some(e) => default_shown(work, history, assumed, place, t, e),
        None => Ok(None),
    }
}

/// The equation of a part and its default.
fn default_equation(
    work: &mut Work,
    history: &History,
    assumed: &[TermId],
    place: usize,
    part: u64,
    t: TermId,
) -> Result<Option<TermId>, Stop>
    requires can { CanRewrite history.now work.old assumed.now t }
    ensures equation { IfOk result (λ found. IfSome found (IsTermIn history.now work.new)) }
    ensures grows { WorkGrows history.now work.old work.new }
    ensures out { result ≡ Err Stop.OutOfSteps → work.new.counter.used ≡ work.new.counter.limit }
{
    match constructor_at(work, history, place) {
        Some(name) => default_by_row(work, history, assumed, name, part, t),
        None => Ok(None),
    }
}

/// The same, by the constructor.
fn default_by_row(
    work: &mut Work,
    history: &History,
    assumed: &[TermId],
    name: Sym,
    part: u64,
    t: TermId,
) -> Result<Option<TermId>, Stop>
    requires can { CanRewrite history.now work.old assumed.now t }
    requires name { IsNamed work.old.bank name }
    ensures equation { IfOk result (λ found. IfSome found (IsTermIn history.now work.new)) }
    ensures grows { WorkGrows history.now work.old work.new }
    ensures out { result ≡ Err Stop.OutOfSteps → work.new.counter.used ≡ work.new.counter.limit }
{
    match row_instance(work, history, name, PART_OF_OTHER, part, Chosen::Last, t)? {
        Some(line) => last_literal(work, history, line),
        None => Ok(None),
    }
}

/// The line of the equation, since each case of an object leads to it.
fn default_shown(
    work: &mut Work,
    history: &History,
    assumed: &[TermId],
    place: usize,
    t: TermId,
    e: TermId,
) -> Result<Option<Fact>, Stop>
    requires can { CanRewrite history.now work.old assumed.now t }
    requires equation { IsTermIn history.now work.old e }
    ensures held { IfOk result (λ found. IfSome found (IsHeld history.now work.new (terms_at work.old.bank assumed.now))) }
    ensures grows { WorkGrows history.now work.old work.new }
    ensures out { result ≡ Err Stop.OutOfSteps → work.new.counter.used ≡ work.new.counter.limit }
{
    match argument_of(work, history, t, 1) {
        Some(a) => default_by_object(work, history, assumed, place, a, e),
        None => Ok(None),
    }
}

/// The same, by the object.
fn default_by_object(
    work: &mut Work,
    history: &History,
    assumed: &[TermId],
    place: usize,
    a: TermId,
    e: TermId,
) -> Result<Option<Fact>, Stop>
    requires can { CanRewrite history.now work.old assumed.now e }
    requires object { IsTermIn history.now work.old a }
    ensures held { IfOk result (λ found. IfSome found (IsHeld history.now work.new (terms_at work.old.bank assumed.now))) }
    ensures grows { WorkGrows history.now work.old work.new }
    ensures out { result ≡ Err Stop.OutOfSteps → work.new.counter.used ≡ work.new.counter.limit }
{
    match parted_line(work, history, place, a)? {
        Some(line) => default_by_line(work, history, assumed, line, e),
        None => Ok(None),
    }
}

/// The same, by the line that says that the object is made of its parts.
fn default_by_line(
    work: &mut Work,
    history: &History,
    assumed: &[TermId],
    line: u64,
    e: TermId,
) -> Result<Option<Fact>, Stop>
    requires can { CanRewrite history.now work.old assumed.now e }
    requires line { LineIsIn history.now work.old line }
    ensures held { IfOk result (λ found. IfSome found (IsHeld history.now work.new (terms_at work.old.bank assumed.now))) }
    ensures grows { WorkGrows history.now work.old work.new }
    ensures out { result ≡ Err Stop.OutOfSteps → work.new.counter.used ≡ work.new.counter.limit }
{
    let literals = literals_of(work, history, line)?;
    default_by_cases(work, history, assumed, line, literals.as_slice(), e)
}

/// The same, where its literals are known.
fn default_by_cases(
    work: &mut Work,
    history: &History,
    assumed: &[TermId],
    line: u64,
    literals: &[TermId],
    e: TermId,
) -> Result<Option<Fact>, Stop>
    requires can { CanRewrite history.now work.old assumed.now e }
    requires literals { AreLiterals history.now work.old line literals.now }
    ensures held { IfOk result (λ found. IfSome found (IsHeld history.now work.new (terms_at work.old.bank assumed.now))) }
    ensures grows { WorkGrows history.now work.old work.new }
    ensures out { result ≡ Err Stop.OutOfSteps → work.new.counter.used ≡ work.new.counter.limit }
{
    match led_to(work, history, assumed, e, literals, line)? {
        Some(n) => Ok(Some(Fact { term: e, line: n })),
        None => Ok(None),
    }
}
