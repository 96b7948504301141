//! Whether a literal says that a term is none of the recognizers outside a set: the right nest of AND of the NOTs of these.
ghost use Rattle.std.specs.Prelude.{◌≡◌, ◌+◌, ◌≤◌, ◌<◌, All, IfSome, IsTrue, ℕ, length, true};
ghost use Rattle.nq_logic.specs.Terms.{call};
ghost use Rattle.nq_logic.specs.ShellPrinciple.{shells_of};
ghost use Rattle.nq_bank.specs.Content.{IsNamed, Stands, term_at, terms_at, text_at};
ghost use Rattle.nq_history.specs.Events.{HistoryStands, events_at};
ghost use Rattle.nq_types.specs.TypeSets.{is_in, recognizers};
ghost use Rattle.nq_types.specs.Outside.{HasBoth, IsNameAt, IsOneRecognizer, IsOutsiderAt, IsRecognizerAt, IsRest};

use crate::judging::{is_both, is_one_among, recognizer_place};
use crate::sets::{TypeSet, has};
use nq_bank::{Bank, Node, Sym, TermId, ground};
use nq_history::History;

/// The parts of an AND.
#[derive(Clone, Copy, Debug, PartialEq, Eq)]
pub struct Both {
    /// The first.
    pub first: TermId,
    /// The second, which is the rest of a nest.
    pub rest: TermId,
}

/// The parts of a call of f on these arguments that is an AND.
fn both_of_call(bank: &Bank, t: TermId, f: Sym, arguments: &[TermId]) -> Option<Both>
    requires function { IsNamed bank.now f }
    requires before { All (λ a. a.0 < t.0) arguments.now }
    requires call { term_at bank.now t ≡ call (text_at bank.now f) (terms_at bank.now arguments.now) }
    ensures { IfSome result (HasBoth bank.now t) }
{
    if !bank.is_ground(f, ground::AND) {
        return None;
    }
    match arguments {
        [first, rest] => Some(Both {
            first: *first,
            rest: *rest,
        }),
        [] => None,
        [_] => None,
        _ => None,
    }
}

/// The parts of a term that is an AND.
pub fn both_of(bank: &Bank, t: TermId) -> Option<Both>
    requires { Stands bank.now t }
    ensures { IfSome result (HasBoth bank.now t) }
{
    match bank.node(t) {
        Node::App(f, _) => both_of_call(bank, t, f, bank.args(t)),
        Node::Num(_) => None,
        Node::Var(_) => None,
    }
}

/// Is a recognizer that of a bit?
fn is_at(bank: &Bank, history: &History, f: Sym, place: usize) -> bool
    requires history { HistoryStands bank.now history.now }
    requires name { IsNamed bank.now f }
    requires room { length (shells_of (events_at bank.now history.now)) ≤ 61 }
    ensures { IsTrue result → IsNameAt (events_at bank.now history.now) place (text_at bank.now f) }
{
    match recognizer_place(bank, history, f) {
        Some(found) => found == place,
        None => false,
    }
}

/// Is a literal the recognizer at a bit, of this term?
fn recognizes_at(bank: &Bank, history: &History, place: usize, t: TermId, literal: TermId) -> bool
    requires history { HistoryStands bank.now history.now }
    requires literal { Stands bank.now literal }
    requires room { length (shells_of (events_at bank.now history.now)) ≤ 61 }
    ensures { IsTrue result → IsRecognizerAt (events_at bank.now history.now) place (term_at bank.now t) (term_at bank.now literal) }
{
    match bank.node(literal) {
        Node::App(f, _) => {
            let arguments = bank.args(literal);
            let named = is_at(bank, history, f, place);
            let one = is_one_among(arguments, &[t]);
            is_both(named, one)
        }
        Node::Num(_) => false,
        Node::Var(_) => false,
    }
}

/// Is the one term of a list the recognizer at a bit, of this term?
fn is_one_recognizer(
    bank: &Bank,
    history: &History,
    place: usize,
    t: TermId,
    found: &[TermId],
) -> bool
    requires history { HistoryStands bank.now history.now }
    requires found { All (Stands bank.now) found.now }
    requires room { length (shells_of (events_at bank.now history.now)) ≤ 61 }
    ensures { IsTrue result → IsOneRecognizer (events_at bank.now history.now) place (term_at bank.now t) (terms_at bank.now found.now) }
{
    match found {
        [q] => recognizes_at(bank, history, place, t, *q),
        [] => false,
        _ => false,
    }
}

/// Is a literal the NOT of the recognizer at a bit, of this term?
pub fn denies_at(bank: &Bank, history: &History, place: usize, t: TermId, literal: TermId) -> bool
    requires history { HistoryStands bank.now history.now }
    requires literal { Stands bank.now literal }
    requires room { length (shells_of (events_at bank.now history.now)) ≤ 61 }
    ensures { IsTrue result → IsOutsiderAt (events_at bank.now history.now) place (term_at bank.now t) (term_at bank.now literal) }
{
    match bank.node(literal) {
        Node::App(f, _) => {
            let arguments = bank.args(literal);
            let denies = bank.is_ground(f, ground::NOT);
            let one = is_one_recognizer(bank, history, place, t, arguments);
            is_both(denies, one)
        }
        Node::Num(_) => false,
        Node::Var(_) => false,
    }
}

/// How many recognizers there are.
pub fn recognizer_count(bank: &Bank, history: &History) -> u32
    requires history { HistoryStands bank.now history.now }
    requires room { length (shells_of (events_at bank.now history.now)) ≤ 61 }
    ensures count { result ≡ length (recognizers (events_at bank.now history.now)) }
    ensures most { result ≤ 63 }
{
    let _ = bank.alloc();
    history.shells().len() as u32 + 2
}

/// Has a set all bits from one to another?
fn is_full(set: TypeSet, from: u32, to: u32) -> bool
    requires { to ≤ 63 }
    ensures { IsTrue result → (k : ℕ) → from ≤ k → k < to → is_in set.0 k ≡ true }
{
    for place in from..to {
        if !has(set, place) {
            return false;
        }
    }
    true
}

/// Does a literal say that a term is none of the recognizers outside a set, from a bit on, of which there is one?
pub fn says_rest(
    bank: &Bank,
    history: &History,
    set: TypeSet,
    t: TermId,
    from: u32,
    literal: TermId,
) -> bool
    requires history { HistoryStands bank.now history.now }
    requires literal { Stands bank.now literal }
    requires room { length (shells_of (events_at bank.now history.now)) ≤ 61 }
    ensures { IsTrue result → IsRest (events_at bank.now history.now) set.0 from (term_at bank.now t) (term_at bank.now literal) }
{
    let count = recognizer_count(bank, history);
    if from >= count {
        return false;
    }
    if has(set, from) {
        return says_rest(bank, history, set, t, from + 1, literal);
    }
    if is_full(set, from + 1, count) {
        return denies_at(bank, history, from as usize, t, literal);
    }
    match both_of(bank, literal) {
        Some(both) => {
            let first = denies_at(bank, history, from as usize, t, both.first);
            let rest = says_rest(bank, history, set, t, from + 1, both.rest);
            is_both(first, rest)
        }
        None => false,
    }
}
