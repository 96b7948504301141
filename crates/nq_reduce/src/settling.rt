//! What is known of a term at once: by what is assumed, by its value, or since it is the recognizer of an object just made.
ghost use Rattle.std.specs.Prelude.{◌≡◌, IfOk, IfSome, Err, codes, false};
ghost use Rattle.nq_bank.specs.Content.{IsNamed, term_at, terms_at};
ghost use Rattle.nq_kernel.specs.Growing.{WorkGrows};
ghost use Rattle.nq_instances.specs.Parts.{AreSides};
ghost use Rattle.nq_lines.specs.Facts.{IsFact};
ghost use Rattle.nq_reduce.specs.Clauses.{LineIsIn};
ghost use Rattle.nq_reduce.specs.Equations.{IsTurned};
ghost use Rattle.nq_reduce.specs.Held.{IsHeld};
ghost use Rattle.nq_reduce.specs.Rewriting.{CanRewrite, IsKnown, IsRewritten};

use crate::branches::known_before;
use crate::clauses::row_of;
use crate::kinds::{constructor_at, kind_row};
use crate::knowledge::{Known, known_truth};
use crate::results::Rewritten;
use crate::values::by_value;
use nq_bank::{Sym, TermId, ground};
use nq_history::History;
use nq_instances::two_in;
use nq_kernel::{Stop, Work};
use nq_lines::{
    Fact, Sides, cut, equate, is_same, literal_of, matched_fact, opposites, reflexive, symmetric,
};
use nq_rules::left_side;

/// Adds the instance of a row of one literal that takes its left side to a term, if there is one.
pub fn instance_of_row(
    work: &mut Work,
    history: &History,
    assumed: &[TermId],
    name: Sym,
    row: u64,
    part: u64,
    t: TermId,
) -> Result<Option<Fact>, Stop>
    requires can { CanRewrite history.now work.old assumed.now t }
    requires name { IsNamed work.old.bank name }
    ensures held { IfOk result (λ found. IfSome found (IsHeld history.now work.new (terms_at work.old.bank assumed.now))) }
    ensures grows { WorkGrows history.now work.old work.new }
    ensures out { result ≡ Err Stop.OutOfSteps → work.new.counter.used ≡ work.new.counter.limit }
{
    match row_of(work, history, name, row, part)? {
        Some(line) => instance_of_line(work, history, assumed, line, t),
        None => Ok(None),
    }
}

/// The same, of a line.
fn instance_of_line(
    work: &mut Work,
    history: &History,
    assumed: &[TermId],
    line: u64,
    t: TermId,
) -> Result<Option<Fact>, Stop>
    requires can { CanRewrite history.now work.old assumed.now t }
    requires line { LineIsIn history.now work.old line }
    ensures held { IfOk result (λ found. IfSome found (IsHeld history.now work.new (terms_at work.old.bank assumed.now))) }
    ensures grows { WorkGrows history.now work.old work.new }
    ensures out { result ≡ Err Stop.OutOfSteps → work.new.counter.used ≡ work.new.counter.limit }
{
    match literal_of(work, history, line) {
        Some(literal) => instance_of_fact(
            work,
            history,
            assumed,
            Fact {
                term: literal,
                line,
            },
            t,
        ),
        None => Ok(None),
    }
}

/// The same, of a line of this one literal.
fn instance_of_fact(
    work: &mut Work,
    history: &History,
    assumed: &[TermId],
    fact: Fact,
    t: TermId,
) -> Result<Option<Fact>, Stop>
    requires can { CanRewrite history.now work.old assumed.now t }
    requires fact { IsFact history.now work.old fact }
    ensures held { IfOk result (λ found. IfSome found (IsHeld history.now work.new (terms_at work.old.bank assumed.now))) }
    ensures grows { WorkGrows history.now work.old work.new }
    ensures out { result ≡ Err Stop.OutOfSteps → work.new.counter.used ≡ work.new.counter.limit }
{
    let pattern = left_side(&work.bank, fact.term);
    matched_fact(work, history, fact, pattern, t)
}

/// What is known of a term at once.
pub fn settled(
    work: &mut Work,
    history: &History,
    assumed: &[TermId],
    t: TermId,
) -> Result<Option<Known>, Stop>
    requires can { CanRewrite history.now work.old assumed.now t }
    ensures known { IfOk result (λ found. IfSome found (λ known. IsKnown work.new (terms_at work.old.bank assumed.now) (term_at work.old.bank t) known)) }
    ensures grows { WorkGrows history.now work.old work.new }
    ensures out { result ≡ Err Stop.OutOfSteps → work.new.counter.used ≡ work.new.counter.limit }
{
    match known_truth(work, history, assumed, t)? {
        Some(known) => Ok(Some(known)),
        None => settled_by_value(work, history, assumed, t),
    }
}

/// The same, where nothing is assumed of it.
fn settled_by_value(
    work: &mut Work,
    history: &History,
    assumed: &[TermId],
    t: TermId,
) -> Result<Option<Known>, Stop>
    requires can { CanRewrite history.now work.old assumed.now t }
    ensures known { IfOk result (λ found. IfSome found (λ known. IsKnown work.new (terms_at work.old.bank assumed.now) (term_at work.old.bank t) known)) }
    ensures grows { WorkGrows history.now work.old work.new }
    ensures out { result ≡ Err Stop.OutOfSteps → work.new.counter.used ≡ work.new.counter.limit }
{
    let new = by_value(work, history, assumed, t)?;
    if new.line.is_some() {
        known_by_value(work, history, assumed, t, new)
    } else {
        settled_by_kind(work, history, assumed, t)
    }
}

/// What is known of a term by its value.
pub fn known_by_value(
    work: &mut Work,
    history: &History,
    assumed: &[TermId],
    t: TermId,
    new: Rewritten,
) -> Result<Option<Known>, Stop>
    requires can { CanRewrite history.now work.old assumed.now t }
    requires new { IsRewritten history.now work.old (terms_at work.old.bank assumed.now) (term_at work.old.bank t) new }
    ensures known { IfOk result (λ found. IfSome found (λ known. IsKnown work.new (terms_at work.old.bank assumed.now) (term_at work.old.bank t) known)) }
    ensures grows { WorkGrows history.now work.old work.new }
    ensures out { result ≡ Err Stop.OutOfSteps → work.new.counter.used ≡ work.new.counter.limit }
{
    match known_truth(work, history, assumed, new.term)? {
        Some(known) => value_told(work, history, assumed, t, new, known),
        None => Ok(None),
    }
}

/// The same, by what is known of the value.
pub fn value_told(
    work: &mut Work,
    history: &History,
    assumed: &[TermId],
    t: TermId,
    new: Rewritten,
    known: Known,
) -> Result<Option<Known>, Stop>
    requires can { CanRewrite history.now work.old assumed.now t }
    requires new { IsRewritten history.now work.old (terms_at work.old.bank assumed.now) (term_at work.old.bank t) new }
    requires known { IsKnown work.old (terms_at work.old.bank assumed.now) (term_at work.old.bank new.term) known }
    ensures known { IfOk result (λ found. IfSome found (λ known. IsKnown work.new (terms_at work.old.bank assumed.now) (term_at work.old.bank t) known)) }
    ensures grows { WorkGrows history.now work.old work.new }
    ensures out { result ≡ Err Stop.OutOfSteps → work.new.counter.used ≡ work.new.counter.limit }
{
    let before = known_before(work, history, assumed, t, new, known)?;
    Ok(Some(before))
}

/// That a term is true, where it is the recognizer of an object that was just made.
fn settled_by_kind(
    work: &mut Work,
    history: &History,
    assumed: &[TermId],
    t: TermId,
) -> Result<Option<Known>, Stop>
    requires can { CanRewrite history.now work.old assumed.now t }
    ensures known { IfOk result (λ found. IfSome found (λ known. IsKnown work.new (terms_at work.old.bank assumed.now) (term_at work.old.bank t) known)) }
    ensures grows { WorkGrows history.now work.old work.new }
    ensures out { result ≡ Err Stop.OutOfSteps → work.new.counter.used ≡ work.new.counter.limit }
{
    match recognized(work, history, assumed, t)? {
        Some(fact) => Ok(known_by_fact(work, history, assumed, t, fact)),
        None => settled_by_sides(work, history, assumed, t),
    }
}

/// The line of a recognizer of an object that was just made.
pub fn recognized(
    work: &mut Work,
    history: &History,
    assumed: &[TermId],
    t: TermId,
) -> Result<Option<Fact>, Stop>
    requires can { CanRewrite history.now work.old assumed.now t }
    ensures held { IfOk result (λ found. IfSome found (IsHeld history.now work.new (terms_at work.old.bank assumed.now))) }
    ensures grows { WorkGrows history.now work.old work.new }
    ensures out { result ≡ Err Stop.OutOfSteps → work.new.counter.used ≡ work.new.counter.limit }
{
    match kind_row(&work.bank, history, t) {
        Some((place, row)) => recognized_by(work, history, assumed, place, row, t),
        None => Ok(None),
    }
}

/// The same, by a row of the shell at a place.
fn recognized_by(
    work: &mut Work,
    history: &History,
    assumed: &[TermId],
    place: usize,
    row: u64,
    t: TermId,
) -> Result<Option<Fact>, Stop>
    requires can { CanRewrite history.now work.old assumed.now t }
    ensures held { IfOk result (λ found. IfSome found (IsHeld history.now work.new (terms_at work.old.bank assumed.now))) }
    ensures grows { WorkGrows history.now work.old work.new }
    ensures out { result ≡ Err Stop.OutOfSteps → work.new.counter.used ≡ work.new.counter.limit }
{
    match constructor_at(work, history, place) {
        Some(name) => instance_of_row(work, history, assumed, name, row, 0, t),
        None => Ok(None),
    }
}

/// That a term is true, by its line.
fn known_by_fact(
    work: &Work,
    history: &History,
    assumed: &[TermId],
    t: TermId,
    fact: Fact,
) -> Option<Known>
    requires can { CanRewrite history.now work.now assumed.now t }
    requires fact { IsHeld history.now work.now (terms_at work.now.bank assumed.now) fact }
    ensures { IfSome result (λ known. IsKnown work.now (terms_at work.now.bank assumed.now) (term_at work.now.bank t) known) }
{
    if is_same(fact.term, t) {
        Some(Known {
            value: true,
            line: fact.line,
        })
    } else {
        None
    }
}

/// What is known of an equation, of which nothing is assumed as it stands.
fn settled_by_sides(
    work: &mut Work,
    history: &History,
    assumed: &[TermId],
    t: TermId,
) -> Result<Option<Known>, Stop>
    requires can { CanRewrite history.now work.old assumed.now t }
    ensures known { IfOk result (λ found. IfSome found (λ known. IsKnown work.new (terms_at work.old.bank assumed.now) (term_at work.old.bank t) known)) }
    ensures grows { WorkGrows history.now work.old work.new }
    ensures out { result ≡ Err Stop.OutOfSteps → work.new.counter.used ≡ work.new.counter.limit }
{
    match two_in(work, history, ground::EQUAL, t) {
        Some(sides) => sides_told(work, history, assumed, t, sides),
        None => Ok(None),
    }
}

/// The same, by its sides.
fn sides_told(
    work: &mut Work,
    history: &History,
    assumed: &[TermId],
    t: TermId,
    sides: Sides,
) -> Result<Option<Known>, Stop>
    requires can { CanRewrite history.now work.old assumed.now t }
    requires sides { AreSides history.now work.old (codes "EQUAL") t sides }
    ensures known { IfOk result (λ found. IfSome found (λ known. IsKnown work.new (terms_at work.old.bank assumed.now) (term_at work.old.bank t) known)) }
    ensures grows { WorkGrows history.now work.old work.new }
    ensures out { result ≡ Err Stop.OutOfSteps → work.new.counter.used ≡ work.new.counter.limit }
{
    if is_same(sides.left, sides.right) {
        let line = reflexive(work, history, sides.left)?;
        Ok(Some(Known { value: true, line }))
    } else {
        turned_told(work, history, assumed, t, sides)
    }
}

/// What is known of an equation by the equation that is turned.
fn turned_told(
    work: &mut Work,
    history: &History,
    assumed: &[TermId],
    t: TermId,
    sides: Sides,
) -> Result<Option<Known>, Stop>
    requires can { CanRewrite history.now work.old assumed.now t }
    requires sides { AreSides history.now work.old (codes "EQUAL") t sides }
    ensures known { IfOk result (λ found. IfSome found (λ known. IsKnown work.new (terms_at work.old.bank assumed.now) (term_at work.old.bank t) known)) }
    ensures grows { WorkGrows history.now work.old work.new }
    ensures out { result ≡ Err Stop.OutOfSteps → work.new.counter.used ≡ work.new.counter.limit }
{
    let turned = equate(work, history, sides.right, sides.left)?;
    by_turned(work, history, assumed, t, sides, turned)
}

/// The same, where the turned equation is made.
fn by_turned(
    work: &mut Work,
    history: &History,
    assumed: &[TermId],
    t: TermId,
    sides: Sides,
    turned: TermId,
) -> Result<Option<Known>, Stop>
    requires can { CanRewrite history.now work.old assumed.now t }
    requires sides { AreSides history.now work.old (codes "EQUAL") t sides }
    requires turned { IsTurned history.now work.old sides turned }
    ensures known { IfOk result (λ found. IfSome found (λ known. IsKnown work.new (terms_at work.old.bank assumed.now) (term_at work.old.bank t) known)) }
    ensures grows { WorkGrows history.now work.old work.new }
    ensures out { result ≡ Err Stop.OutOfSteps → work.new.counter.used ≡ work.new.counter.limit }
{
    match known_truth(work, history, assumed, turned)? {
        Some(known) => turned_back(work, history, assumed, t, sides, turned, known),
        None => Ok(None),
    }
}

/// The same, by what is known of the turned equation.
pub fn turned_back(
    work: &mut Work,
    history: &History,
    assumed: &[TermId],
    t: TermId,
    sides: Sides,
    turned: TermId,
    known: Known,
) -> Result<Option<Known>, Stop>
    requires can { CanRewrite history.now work.old assumed.now t }
    requires sides { AreSides history.now work.old (codes "EQUAL") t sides }
    requires turned { IsTurned history.now work.old sides turned }
    requires known { IsKnown work.old (terms_at work.old.bank assumed.now) (term_at work.old.bank turned) known }
    ensures known { IfOk result (λ found. IfSome found (λ known. IsKnown work.new (terms_at work.old.bank assumed.now) (term_at work.old.bank t) known)) }
    ensures grows { WorkGrows history.now work.old work.new }
    ensures out { result ≡ Err Stop.OutOfSteps → work.new.counter.used ≡ work.new.counter.limit }
{
    if known.value {
        let line = symmetric(work, history, sides.right, sides.left, known.line)?;
        Ok(Some(Known { value: true, line }))
    } else {
        turned_denied(work, history, assumed, t, sides, turned, known)
    }
}

/// An equation is false, since the turned one is.
fn turned_denied(
    work: &mut Work,
    history: &History,
    assumed: &[TermId],
    t: TermId,
    sides: Sides,
    turned: TermId,
    known: Known,
) -> Result<Option<Known>, Stop>
    requires can { CanRewrite history.now work.old assumed.now t }
    requires sides { AreSides history.now work.old (codes "EQUAL") t sides }
    requires turned { IsTurned history.now work.old sides turned }
    requires known { IsKnown work.old (terms_at work.old.bank assumed.now) (term_at work.old.bank turned) known }
    requires denied { known.value ≡ false }
    ensures known { IfOk result (λ found. IfSome found (λ known. IsKnown work.new (terms_at work.old.bank assumed.now) (term_at work.old.bank t) known)) }
    ensures grows { WorkGrows history.now work.old work.new }
    ensures out { result ≡ Err Stop.OutOfSteps → work.new.counter.used ≡ work.new.counter.limit }
{
    let either = opposites(work, history, t)?;
    let other = symmetric(work, history, sides.left, sides.right, either)?;
    let line = cut(work, history, other, known.line, turned)?;
    Ok(Some(Known { value: false, line }))
}
