//! Equations of truth values, which are divided by one of them: `(EQUAL P F)` comes to `(IF P F T)`. It decides only what is tried.
ghost use Rattle.std.specs.Prelude.{◌≡◌, IfSome};
ghost use Rattle.nq_bank.specs.Content.{Stands};
ghost use Rattle.nq_kernel.specs.Growing.{WorkStands};
ghost use Rattle.nq_lines.specs.Lines.{IsTermIn};

use crate::measures::is_recursive;
use crate::terms::{function_of, is_call_of};
use crate::true_calls::is_known_truth;
use nq_bank::{Bank, Sym, TermId, ground};
use nq_history::History;
use nq_kernel::Work;
use nq_reduce::argument_of;

/// Is each value of a function T or F by an axiom?
fn is_truth_function(history: &History, f: Sym) -> bool {
    if f.0 == ground::EQUAL.0 {
        return true;
    }
    for shell in history.shells() {
        if shell.recognizer.0 == f.0 {
            return true;
        }
    }
    false
}

/// Is a term a call of a function whose values are T or F by an axiom, or of LESSP, where that is known of it? An equation of such a
/// call is divided. One of two calls of defined functions serves as it stands, as a hypothesis of an induction does.
fn is_plain_truth(work: &Work, history: &History, t: TermId) -> bool
    requires stands { WorkStands history.now work.now }
    requires term { IsTermIn history.now work.now t }
{
    match function_of(&work.bank, t) {
        Some(f) => {
            is_truth_function(history, f)
                || (f.0 == ground::LESSP.0 && is_known_truth(work, history, f))
        }
        None => false,
    }
}

/// Is a term T, or a call of a function whose values are known to be T or F?
fn is_truth(work: &Work, history: &History, t: TermId) -> bool
    requires stands { WorkStands history.now work.now }
    requires term { IsTermIn history.now work.now t }
{
    match function_of(&work.bank, t) {
        Some(f) => {
            f.0 == ground::TRUE.0
                || is_plain_truth(work, history, t)
                || is_known_truth(work, history, f)
        }
        None => false,
    }
}

/// Is a term a call of a defined function, or of one whose values are T or F?
fn may_divide(bank: &Bank, history: &History, t: TermId) -> bool
    requires { Stands bank.now t }
{
    match function_of(bank, t) {
        Some(f) => is_recursive(history, f).is_some() || is_truth_function(history, f),
        None => false,
    }
}

/// Is an equation of these two divided by the first?
fn is_divided(work: &Work, history: &History, p: TermId, q: TermId) -> bool
    requires stands { WorkStands history.now work.now }
    requires first { IsTermIn history.now work.now p }
    requires second { IsTermIn history.now work.now q }
{
    if work.bank.is_value(p) || !may_divide(&work.bank, history, p) {
        return false;
    }
    is_call_of(&work.bank, ground::FALSE, q)
        || (is_plain_truth(work, history, p) && is_truth(work, history, q))
}

/// The side of an equation by which it is divided.
fn dividing_side(work: &Work, history: &History, p: TermId, q: TermId) -> Option<TermId>
    requires stands { WorkStands history.now work.now }
    requires first { IsTermIn history.now work.now p }
    requires second { IsTermIn history.now work.now q }
    ensures { IfSome result (IsTermIn history.now work.now) }
{
    if is_divided(work, history, p, q) {
        Some(p)
    } else if is_divided(work, history, q, p) {
        Some(q)
    } else {
        None
    }
}

/// The same, where this is its first side.
fn dividing_side_with(work: &Work, history: &History, t: TermId, p: TermId) -> Option<TermId>
    requires stands { WorkStands history.now work.now }
    requires term { IsTermIn history.now work.now t }
    requires first { IsTermIn history.now work.now p }
    ensures { IfSome result (IsTermIn history.now work.now) }
{
    match argument_of(work, history, t, 2) {
        Some(q) => dividing_side(work, history, p, q),
        None => None,
    }
}

/// The side by which an equation is divided: the one beside F; or one that is T or F by an axiom or, of LESSP, by what is known of
/// it, beside one that is T or that is known to be T or F.
pub fn compared_side(work: &Work, history: &History, t: TermId) -> Option<TermId>
    requires stands { WorkStands history.now work.now }
    requires term { IsTermIn history.now work.now t }
    ensures { IfSome result (IsTermIn history.now work.now) }
{
    if !is_call_of(&work.bank, ground::EQUAL, t) {
        return None;
    }
    match argument_of(work, history, t, 1) {
        Some(p) => dividing_side_with(work, history, t, p),
        None => None,
    }
}
