//! Single steps under what is known of the kinds of calls: that `(PLUS X Y)` is a number is assumed, and the line that shows it cuts
//! the assumption away.
ghost use Rattle.std.specs.Prelude.{◌≡◌, ◌∷◌, IfOk, IfSome, Err};
ghost use Rattle.nq_bank.specs.Content.{IsNamed, term_at, terms_at};
ghost use Rattle.nq_kernel.specs.Growing.{WorkGrows, WorkStands};
ghost use Rattle.nq_lines.specs.Lines.{IsTermIn};
ghost use Rattle.nq_reduce.specs.Held.{IsHeld};
ghost use Rattle.nq_reduce.specs.Rewriting.{CanRewrite, IsRewritten};

use crate::kinds::{kind_fact, kind_line, named_function};
use nq_bank::{Sym, TermId, ground};
use nq_history::History;
use nq_kernel::{Stop, Work};
use nq_lines::{Fact, cut};
use nq_reduce::{Rewritten, argument_of, reduce_call, with_more};

/// How many places within an argument are looked at, the argument itself among them.
const WIDTH: usize = 4;

/// How many places within a call are looked at.
const PLACES: usize = 16;

/// One step on a call whose arguments were rewritten, where the kinds of calls are known: no rule, no opening.
pub fn reduce_kinded(
    work: &mut Work,
    history: &History,
    assumed: &[TermId],
    t: TermId,
) -> Result<Rewritten, Stop>
    requires can { CanRewrite history.now work.old assumed.now t }
    ensures ok { IfOk result (λ r. IsRewritten history.now work.new (terms_at work.old.bank assumed.now) (term_at work.old.bank t) r) }
    ensures grows { WorkGrows history.now work.old work.new }
    ensures out { result ≡ Err Stop.OutOfSteps → work.new.counter.used ≡ work.new.counter.limit }
{
    if has_kinds(work, history, t) {
        reduce_from(work, history, assumed, t, 0)
    } else {
        reduce_call(work, history, assumed, t)
    }
}

/// Is a function EQUAL, or of a shell?
fn tells_kinds(history: &History, f: Sym) -> bool {
    if f.0 == ground::EQUAL.0 {
        return true;
    }
    for shell in history.shells() {
        if shell.recognizer.0 == f.0 || shell.constructor.0 == f.0 {
            return true;
        }
        for part in shell.parts.as_slice() {
            if part.accessor.0 == f.0 {
                return true;
            }
        }
    }
    false
}

/// May a step on a call rest on the known kinds of what stands in it?
fn has_kinds(work: &Work, history: &History, t: TermId) -> bool
    requires stands { WorkStands history.now work.now }
    requires term { IsTermIn history.now work.now t }
{
    if work.known.as_slice().is_empty() {
        return false;
    }
    match named_function(&work.bank, t) {
        Some(f) => tells_kinds(history, f) && has_kind_within(work, history, t),
        None => false,
    }
}

/// Is the kind known of a call that stands in a term?
fn has_kind_within(work: &Work, history: &History, t: TermId) -> bool
    requires stands { WorkStands history.now work.now }
    requires term { IsTermIn history.now work.now t }
{
    for place in 0..PLACES {
        if has_kind_at(work, history, t, place) {
            return true;
        }
    }
    false
}

/// The same, of the call at a place.
fn has_kind_at(work: &Work, history: &History, t: TermId, place: usize) -> bool
    requires stands { WorkStands history.now work.now }
    requires term { IsTermIn history.now work.now t }
{
    match part_at(work, history, t, place) {
        Some(a) => match named_function(&work.bank, a) {
            Some(f) => kind_line(work, history, f).is_some(),
            None => false,
        },
        None => false,
    }
}

/// An argument of a call, or an argument of one, by the number of its place.
fn part_at(work: &Work, history: &History, t: TermId, place: usize) -> Option<TermId>
    requires stands { WorkStands history.now work.now }
    requires term { IsTermIn history.now work.now t }
    ensures { IfSome result (IsTermIn history.now work.now) }
{
    match argument_of(work, history, t, place / WIDTH + 1) {
        Some(a) => part_of(work, history, a, place % WIDTH),
        None => None,
    }
}

/// A term, or its argument at a place.
fn part_of(work: &Work, history: &History, a: TermId, place: usize) -> Option<TermId>
    requires stands { WorkStands history.now work.now }
    requires term { IsTermIn history.now work.now a }
    ensures { IfSome result (IsTermIn history.now work.now) }
{
    if place == 0 {
        return Some(a);
    }
    match argument_of(work, history, a, place) {
        Some(b) => Some(b),
        None => None,
    }
}

/// The line that shows of what kind the call at a place is.
fn kind_at(
    work: &mut Work,
    history: &History,
    assumed: &[TermId],
    t: TermId,
    place: usize,
) -> Result<Option<Fact>, Stop>
    requires can { CanRewrite history.now work.old assumed.now t }
    ensures held { IfOk result (λ found. IfSome found (IsHeld history.now work.new (terms_at work.old.bank assumed.now))) }
    ensures grows { WorkGrows history.now work.old work.new }
    ensures out { result ≡ Err Stop.OutOfSteps → work.new.counter.used ≡ work.new.counter.limit }
{
    match part_at(work, history, t, place) {
        Some(a) => kind_of(work, history, assumed, t, a),
        None => Ok(None),
    }
}

/// The line that shows of what kind a term is.
fn kind_of(
    work: &mut Work,
    history: &History,
    assumed: &[TermId],
    t: TermId,
    a: TermId,
) -> Result<Option<Fact>, Stop>
    requires can { CanRewrite history.now work.old assumed.now t }
    requires part { IsTermIn history.now work.old a }
    ensures held { IfOk result (λ found. IfSome found (IsHeld history.now work.new (terms_at work.old.bank assumed.now))) }
    ensures grows { WorkGrows history.now work.old work.new }
    ensures out { result ≡ Err Stop.OutOfSteps → work.new.counter.used ≡ work.new.counter.limit }
{
    match named_function(&work.bank, a) {
        Some(f) => kind_of_call(work, history, assumed, t, f, a),
        None => Ok(None),
    }
}

/// The same, of a call of this function.
fn kind_of_call(
    work: &mut Work,
    history: &History,
    assumed: &[TermId],
    t: TermId,
    f: Sym,
    a: TermId,
) -> Result<Option<Fact>, Stop>
    requires can { CanRewrite history.now work.old assumed.now t }
    requires function { IsNamed work.old.bank f }
    requires part { IsTermIn history.now work.old a }
    ensures held { IfOk result (λ found. IfSome found (IsHeld history.now work.new (terms_at work.old.bank assumed.now))) }
    ensures grows { WorkGrows history.now work.old work.new }
    ensures out { result ≡ Err Stop.OutOfSteps → work.new.counter.used ≡ work.new.counter.limit }
{
    match kind_line(work, history, f) {
        Some(_) => kind_fact(work, history, f, a),
        None => Ok(None),
    }
}

/// One step on a call, where the kinds are assumed of what stands in it from a place on.
#[cycle(kinded)]
fn reduce_from(
    work: &mut Work,
    history: &History,
    assumed: &[TermId],
    t: TermId,
    place: usize,
) -> Result<Rewritten, Stop>
    requires can { CanRewrite history.now work.old assumed.now t }
    ensures ok { IfOk result (λ r. IsRewritten history.now work.new (terms_at work.old.bank assumed.now) (term_at work.old.bank t) r) }
    ensures grows { WorkGrows history.now work.old work.new }
    ensures out { result ≡ Err Stop.OutOfSteps → work.new.counter.used ≡ work.new.counter.limit }
{
    if place >= PLACES {
        return reduce_call(work, history, assumed, t);
    }
    match kind_at(work, history, assumed, t, place)? {
        Some(fact) => reduce_under(work, history, assumed, t, place + 1, fact),
        None => reduce_from(work, history, assumed, t, place + 1),
    }
}

/// The same, where what a line shows is assumed too.
#[cycle(kinded)]
pub fn reduce_under(
    work: &mut Work,
    history: &History,
    assumed: &[TermId],
    t: TermId,
    place: usize,
    fact: Fact,
) -> Result<Rewritten, Stop>
    requires can { CanRewrite history.now work.old assumed.now t }
    requires fact { IsHeld history.now work.old (terms_at work.old.bank assumed.now) fact }
    ensures ok { IfOk result (λ r. IsRewritten history.now work.new (terms_at work.old.bank assumed.now) (term_at work.old.bank t) r) }
    ensures grows { WorkGrows history.now work.old work.new }
    ensures out { result ≡ Err Stop.OutOfSteps → work.new.counter.used ≡ work.new.counter.limit }
{
    let all = with_more(work, fact.term, assumed)?;
    reduce_assumed(work, history, assumed, all.as_slice(), t, place, fact)
}

/// The same, where all that is assumed then is made.
#[cycle(kinded)]
fn reduce_assumed(
    work: &mut Work,
    history: &History,
    assumed: &[TermId],
    all: &[TermId],
    t: TermId,
    place: usize,
    fact: Fact,
) -> Result<Rewritten, Stop>
    requires can { CanRewrite history.now work.old assumed.now t }
    requires all { all.now ≡ fact.term ∷ assumed.now }
    requires fact { IsHeld history.now work.old (terms_at work.old.bank assumed.now) fact }
    ensures ok { IfOk result (λ r. IsRewritten history.now work.new (terms_at work.old.bank assumed.now) (term_at work.old.bank t) r) }
    ensures grows { WorkGrows history.now work.old work.new }
    ensures out { result ≡ Err Stop.OutOfSteps → work.new.counter.used ≡ work.new.counter.limit }
{
    let new = reduce_from(work, history, all, t, place)?;
    without_kind(work, history, assumed, t, fact, new)
}

/// A step that rests on what a line shows, without that.
pub fn without_kind(
    work: &mut Work,
    history: &History,
    assumed: &[TermId],
    t: TermId,
    fact: Fact,
    new: Rewritten,
) -> Result<Rewritten, Stop>
    requires can { CanRewrite history.now work.old assumed.now t }
    requires fact { IsHeld history.now work.old (terms_at work.old.bank assumed.now) fact }
    requires new { IsRewritten history.now work.old (term_at work.old.bank fact.term ∷ terms_at work.old.bank assumed.now) (term_at work.old.bank t) new }
    ensures ok { IfOk result (λ r. IsRewritten history.now work.new (terms_at work.old.bank assumed.now) (term_at work.old.bank t) r) }
    ensures grows { WorkGrows history.now work.old work.new }
    ensures out { result ≡ Err Stop.OutOfSteps → work.new.counter.used ≡ work.new.counter.limit }
{
    match new.line {
        Some(n) => {
            let line = cut(work, history, fact.line, n, fact.term)?;
            Ok(Rewritten {
                term: new.term,
                line: Some(line),
            })
        }
        None => Ok(new),
    }
}
