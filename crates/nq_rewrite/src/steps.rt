//! Single steps: a term as an IF of two equal branches, and back; what shown terms make known; IFs within calls.
ghost use Rattle.std.specs.Prelude.{◌≡◌, IfOk, IfSome, Err};
ghost use Rattle.nq_bank.specs.Content.{Stands, term_at, terms_at};
ghost use Rattle.nq_kernel.specs.Growing.{WorkGrows, WorkStands};
ghost use Rattle.nq_lines.specs.Lines.{IsTermIn};
ghost use Rattle.nq_instances.specs.Parts.{IsIfOf};
ghost use Rattle.nq_reduce.specs.Held.{IsHeld};
ghost use Rattle.nq_reduce.specs.Rewriting.{CanRewrite, IsKnown, IsRewritten};

use crate::comparing::compared_side;
use crate::measures::is_recursive;
use crate::terms::{function_of, has_id};
use nq_bank::{Bank, Sym, TermId, ground};
use nq_history::History;
use nq_instances::if_parts_of;
use nq_kernel::{Stop, Work};
use nq_lines::{Fact, condition, if_same, is_same, symmetric};
use nq_reduce::{
    Known, Rewritten, argument_count, argument_of, congruent, known_before, unchanged,
};
use nq_rule::Branches;
use nq_rules::one_of;

/// A term as the IF of a test with the term as both branches.
pub fn doubled(
    work: &mut Work,
    history: &History,
    assumed: &[TermId],
    t: TermId,
    p: TermId,
) -> Result<Rewritten, Stop>
    requires can { CanRewrite history.now work.old assumed.now t }
    requires test { IsTermIn history.now work.old p }
    ensures ok { IfOk result (λ r. IsRewritten history.now work.new (terms_at work.old.bank assumed.now) (term_at work.old.bank t) r) }
    ensures grows { WorkGrows history.now work.old work.new }
    ensures out { result ≡ Err Stop.OutOfSteps → work.new.counter.used ≡ work.new.counter.limit }
{
    let parts = Branches {
        test: p,
        first: t,
        second: t,
    };
    let whole = condition(work, history, parts)?;
    let same = if_same(work, history, p, t)?;
    let line = symmetric(work, history, whole, t, same)?;
    Ok(Rewritten {
        term: whole,
        line: Some(line),
    })
}

/// An IF of two equal branches is that branch.
pub fn undoubled(
    work: &mut Work,
    history: &History,
    assumed: &[TermId],
    t: TermId,
) -> Result<Rewritten, Stop>
    requires can { CanRewrite history.now work.old assumed.now t }
    ensures ok { IfOk result (λ r. IsRewritten history.now work.new (terms_at work.old.bank assumed.now) (term_at work.old.bank t) r) }
    ensures grows { WorkGrows history.now work.old work.new }
    ensures out { result ≡ Err Stop.OutOfSteps → work.new.counter.used ≡ work.new.counter.limit }
{
    match if_parts_of(work, history, t) {
        Some(parts) => undoubled_if(work, history, assumed, t, parts),
        None => Ok(unchanged(t)),
    }
}

/// The same, where the parts of the IF are known.
fn undoubled_if(
    work: &mut Work,
    history: &History,
    assumed: &[TermId],
    t: TermId,
    parts: Branches,
) -> Result<Rewritten, Stop>
    requires can { CanRewrite history.now work.old assumed.now t }
    requires parts { IsIfOf history.now work.old t parts }
    ensures ok { IfOk result (λ r. IsRewritten history.now work.new (terms_at work.old.bank assumed.now) (term_at work.old.bank t) r) }
    ensures grows { WorkGrows history.now work.old work.new }
    ensures out { result ≡ Err Stop.OutOfSteps → work.new.counter.used ≡ work.new.counter.limit }
{
    if is_same(parts.second, parts.first) {
        let line = if_same(work, history, parts.test, parts.first)?;
        Ok(Rewritten {
            term: parts.first,
            line: Some(line),
        })
    } else {
        Ok(unchanged(t))
    }
}

/// An IF with its rewritten test.
pub fn with_test(
    work: &mut Work,
    history: &History,
    assumed: &[TermId],
    t: TermId,
    parts: Branches,
    test: Rewritten,
) -> Result<Rewritten, Stop>
    requires can { CanRewrite history.now work.old assumed.now t }
    requires test { IsRewritten history.now work.old (terms_at work.old.bank assumed.now) (term_at work.old.bank parts.test) test }
    ensures ok { IfOk result (λ r. IsRewritten history.now work.new (terms_at work.old.bank assumed.now) (term_at work.old.bank t) r) }
    ensures grows { WorkGrows history.now work.old work.new }
    ensures out { result ≡ Err Stop.OutOfSteps → work.new.counter.used ≡ work.new.counter.limit }
{
    match argument_of(work, history, t, 1) {
        Some(a) => {
            if is_same(a, parts.test) {
                congruent(work, history, assumed, t, 1, a, test)
            } else {
                Ok(unchanged(t))
            }
        }
        None => Ok(unchanged(t)),
    }
}

/// What is known of a term by a shown term: that it is true, where it is that one.
pub fn known_by_fact(
    work: &Work,
    history: &History,
    assumed: &[TermId],
    fact: Fact,
    t: TermId,
) -> Option<Known>
    requires fact { IsHeld history.now work.now (terms_at work.now.bank assumed.now) fact }
    ensures { IfSome result (λ k. IsKnown work.now (terms_at work.now.bank assumed.now) (term_at work.now.bank t) k) }
{
    if is_same(fact.term, t) {
        Some(Known {
            value: true,
            line: fact.line,
        })
    } else {
        None
    }
}

/// The line of a hypothesis, by what is known of the term that it was rewritten to.
pub fn relieved_by(
    work: &mut Work,
    history: &History,
    assumed: &[TermId],
    t: TermId,
    new: Rewritten,
    known: Known,
) -> Result<Option<Fact>, Stop>
    requires can { CanRewrite history.now work.old assumed.now t }
    requires new { IsRewritten history.now work.old (terms_at work.old.bank assumed.now) (term_at work.old.bank t) new }
    requires known { IsKnown work.old (terms_at work.old.bank assumed.now) (term_at work.old.bank new.term) known }
    ensures held { IfOk result (λ found. IfSome found (IsHeld history.now work.new (terms_at work.old.bank assumed.now))) }
    ensures grows { WorkGrows history.now work.old work.new }
    ensures out { result ≡ Err Stop.OutOfSteps → work.new.counter.used ≡ work.new.counter.limit }
{
    let before = known_before(work, history, assumed, t, new, known)?;
    if before.value {
        Ok(Some(Fact {
            term: t,
            line: before.line,
        }))
    } else {
        Ok(None)
    }
}

/// Is a function a recognizer or an accessor?
fn is_of_shell(history: &History, f: Sym) -> bool {
    for shell in history.shells() {
        if shell.recognizer.0 == f.0 {
            return true;
        }
        for part in shell.parts.as_slice() {
            if part.accessor.0 == f.0 {
                return true;
            }
        }
    }
    false
}

/// Are IFs taken out of the arguments of a term?
fn is_lifting(bank: &Bank, history: &History, t: TermId) -> bool
    requires { Stands bank.now t }
{
    match function_of(bank, t) {
        Some(f) => {
            f.0 == ground::EQUAL.0
                || f.0 == ground::LESSP.0
                || is_recursive(history, f) == Some(true)
                || is_of_shell(history, f)
        }
        None => false,
    }
}

/// Is a term assumed, or its NOT?
fn is_decided(bank: &Bank, assumed: &[TermId], p: TermId) -> bool {
    if has_id(assumed, p) {
        return true;
    }
    for a in assumed {
        if a.0 < bank.len() {
            match one_of(bank, ground::NOT, *a) {
                Some(q) => {
                    if q.0 == p.0 {
                        return true;
                    }
                }
                None => {}
            }
        }
    }
    false
}

/// The test by which a call is divided: that of an IF among its arguments, which is to be taken out of it, or a truth value that it
/// compares.
pub fn lifted_test(work: &Work, history: &History, assumed: &[TermId], t: TermId) -> Option<TermId>
    requires stands { WorkStands history.now work.now }
    requires term { IsTermIn history.now work.now t }
    ensures { IfSome result (IsTermIn history.now work.now) }
{
    if !is_lifting(&work.bank, history, t) {
        return None;
    }
    match test_within(work, history, assumed, t) {
        Some(p) => Some(p),
        None => compared_test(work, history, assumed, t),
    }
}

/// The truth value by which an equation is divided, if it is not decided.
fn compared_test(work: &Work, history: &History, assumed: &[TermId], t: TermId) -> Option<TermId>
    requires stands { WorkStands history.now work.now }
    requires term { IsTermIn history.now work.now t }
    ensures { IfSome result (IsTermIn history.now work.now) }
{
    match compared_side(work, history, t) {
        Some(p) => {
            if is_decided(&work.bank, assumed, p) {
                None
            } else {
                Some(p)
            }
        }
        None => None,
    }
}

/// The test of the first argument of a call that is an IF.
fn test_within(work: &Work, history: &History, assumed: &[TermId], t: TermId) -> Option<TermId>
    requires stands { WorkStands history.now work.now }
    requires term { IsTermIn history.now work.now t }
    ensures { IfSome result (IsTermIn history.now work.now) }
{
    let count = argument_count(&work.bank, t);
    for place in 0..count {
        let found = test_at(work, history, assumed, t, place + 1);
        if found.is_some() {
            return found;
        }
    }
    None
}

/// The test of the argument of a call at a place, if that is an IF.
fn test_at(
    work: &Work,
    history: &History,
    assumed: &[TermId],
    t: TermId,
    place: usize,
) -> Option<TermId>
    requires stands { WorkStands history.now work.now }
    requires term { IsTermIn history.now work.now t }
    ensures { IfSome result (IsTermIn history.now work.now) }
{
    match argument_of(work, history, t, place) {
        Some(a) => test_of(work, history, assumed, a),
        None => None,
    }
}

/// The test of a term that is an IF, if it is not decided.
pub fn test_of(work: &Work, history: &History, assumed: &[TermId], t: TermId) -> Option<TermId>
    requires stands { WorkStands history.now work.now }
    requires term { IsTermIn history.now work.now t }
    ensures { IfSome result (IsTermIn history.now work.now) }
{
    match if_parts_of(work, history, t) {
        Some(parts) => {
            if is_decided(&work.bank, assumed, parts.test) {
                None
            } else {
                Some(parts.test)
            }
        }
        None => None,
    }
}
