//! Whether a line shows a type: its literals are members of the set, and denials of what is assumed.
ghost use Rattle.std.specs.Prelude.{◌≡◌, ◌<◌, ◌≤◌, ◌++◌, ◌&&◌, ◌||◌, All, IfSome, IsTrue, length, nat_eq, Some, slice_get};
ghost use Rattle.std.specs.List.{list_any};
ghost use Rattle.nq_logic.specs.Terms.{IsAmong};
ghost use Rattle.nq_logic.specs.ShellPrinciple.{shells_of};
ghost use Rattle.nq_bank.specs.Content.{IsNamed, Stands, text_at, term_at, terms_at};
ghost use Rattle.nq_bank.specs.Shells.{ShellStands, shells_at};
ghost use Rattle.nq_history.specs.Events.{HistoryStands, events_at};
ghost use Rattle.nq_kernel.specs.Growing.{LineStands, WorkStands};
ghost use Rattle.nq_lines.specs.Lines.{LineHasOnly};
ghost use Rattle.nq_types.specs.Finding.{first_from, recognizes_by};
ghost use Rattle.nq_types.specs.TypeSets.{denials, is_in, members, recognizers};
ghost use Rattle.nq_types.specs.Shown.{AreAllowed, IsAllowed, IsOneAmong, IsRecognizerIn, allowed_literals};

use crate::sets::{TypeSet, has};
use nq_bank::{Bank, Node, Shell, Sym, TermId, ground, is_same_name};
use nq_history::History;
use nq_kernel::Work;

/// Is a term among these?
pub fn has_id(ids: &[TermId], t: TermId) -> bool
    ensures { result ≡ list_any (λ u. nat_eq u.0 t.0) ids.now }
{
    ids.iter().any(|u| u.0 == t.0)
}

/// Do both hold?
pub fn is_both(left: bool, right: bool) -> bool
    ensures { result ≡ (left && right) }
{
    left && right
}

/// Is it just one term, and among others?
pub fn is_one_among(found: &[TermId], ids: &[TermId]) -> bool
    ensures { IsTrue result → IsOneAmong found.now ids.now }
{
    match found {
        [t] => has_id(ids, *t),
        [] => false,
        _ => false,
    }
}

/// Is a literal the denial of one of these?
pub fn is_denial(bank: &Bank, assumed: &[TermId], literal: TermId) -> bool
    requires { Stands bank.now literal }
    ensures { IsTrue result → IsAmong (term_at bank.now literal) (denials (terms_at bank.now assumed.now)) }
{
    match bank.node(literal) {
        Node::App(f, _) => {
            let arguments = bank.args(literal);
            let denies = bank.is_ground(f, ground::NOT);
            let one = is_one_among(arguments, assumed);
            is_both(denies, one)
        }
        Node::Num(_) => false,
        Node::Var(_) => false,
    }
}

/// The place of the first shell with this recognizer.
fn shell_place(bank: &Bank, shells: &[Shell], f: Sym) -> Option<usize>
    requires name { IsNamed bank.now f }
    requires shells { All (ShellStands bank.now) shells.now }
    ensures { result ≡ first_from (recognizes_by (text_at bank.now f)) 0 (shells_at bank.now shells.now) }
{
    let mut place = 0;
    for shell in shells {
        if is_same_name(bank, f, shell.recognizer) {
            return Some(place);
        }
        place += 1;
    }
    None
}

/// The bit of a recognizer.
pub fn recognizer_place(bank: &Bank, history: &History, f: Sym) -> Option<usize>
    requires history { HistoryStands bank.now history.now }
    requires name { IsNamed bank.now f }
    requires room { length (shells_of (events_at bank.now history.now)) ≤ 61 }
    ensures { IfSome result (λ k. slice_get (recognizers (events_at bank.now history.now)) k ≡ Some (text_at bank.now f)) }
{
    if bank.is_ground(f, ground::TRUEP) {
        return Some(0);
    }
    if bank.is_ground(f, ground::FALSEP) {
        return Some(1);
    }
    match shell_place(bank, history.shells(), f) {
        Some(place) => { if place < 61 { Some(place + 2) } else { None } }
        None => None,
    }
}

/// Is a literal the call of a recognizer on this term?
pub fn recognizes(bank: &Bank, history: &History, literal: TermId, t: TermId) -> bool
    requires history { HistoryStands bank.now history.now }
    requires literal { Stands bank.now literal }
    requires room { length (shells_of (events_at bank.now history.now)) ≤ 61 }
{
    match bank.node(literal) {
        Node::App(f, _) => {
            let one = is_one_among(bank.args(literal), &[t]);
            one && recognizer_place(bank, history, f).is_some()
        }
        Node::Num(_) => false,
        Node::Var(_) => false,
    }
}

/// Has a set the bit of a recognizer?
fn has_recognizer(bank: &Bank, history: &History, set: TypeSet, f: Sym) -> bool
    requires history { HistoryStands bank.now history.now }
    requires name { IsNamed bank.now f }
    requires room { length (shells_of (events_at bank.now history.now)) ≤ 61 }
    ensures { IsTrue result → IsRecognizerIn (events_at bank.now history.now) set.0 (text_at bank.now f) }
{
    match recognizer_place(bank, history, f) {
        Some(place) => {
            if place < 63 {
                has(set, place as u32)
            } else {
                false
            }
        }
        None => false,
    }
}

/// Is a literal a recognizer of a set on this term?
fn is_member(bank: &Bank, history: &History, set: TypeSet, t: TermId, literal: TermId) -> bool
    requires history { HistoryStands bank.now history.now }
    requires literal { Stands bank.now literal }
    requires room { length (shells_of (events_at bank.now history.now)) ≤ 61 }
    ensures { IsTrue result → IsAmong (term_at bank.now literal) (members (is_in set.0) 0 (recognizers (events_at bank.now history.now)) (term_at bank.now t)) }
{
    match bank.node(literal) {
        Node::App(f, _) => {
            let arguments = bank.args(literal);
            let within = has_recognizer(bank, history, set, f);
            let one = is_one_among(arguments, &[t]);
            is_both(within, one)
        }
        Node::Num(_) => false,
        Node::Var(_) => false,
    }
}

/// Does either hold?
pub fn is_either(left: bool, right: bool) -> bool
    ensures { result ≡ (left || right) }
{
    left || right
}

/// Is a literal a member, or a denial of what is assumed?
fn is_right(
    bank: &Bank,
    history: &History,
    set: TypeSet,
    assumed: &[TermId],
    t: TermId,
    literal: TermId,
) -> bool
    requires history { HistoryStands bank.now history.now }
    requires literal { Stands bank.now literal }
    requires room { length (shells_of (events_at bank.now history.now)) ≤ 61 }
    ensures { IsTrue result → IsAllowed bank.now (allowed_literals (events_at bank.now history.now) set.0 (terms_at bank.now assumed.now) (term_at bank.now t)) literal }
{
    let member = is_member(bank, history, set, t, literal);
    let denial = is_denial(bank, assumed, literal);
    is_either(member, denial)
}

/// Are all literals so?
fn are_right(
    bank: &Bank,
    history: &History,
    set: TypeSet,
    assumed: &[TermId],
    t: TermId,
    literals: &[TermId],
) -> bool
    requires history { HistoryStands bank.now history.now }
    requires literals { All (Stands bank.now) literals.now }
    requires room { length (shells_of (events_at bank.now history.now)) ≤ 61 }
    ensures { IsTrue result → AreAllowed bank.now (allowed_literals (events_at bank.now history.now) set.0 (terms_at bank.now assumed.now) (term_at bank.now t)) literals.now }
{
    for literal in literals {
        if !is_right(bank, history, set, assumed, t, *literal) {
            return false;
        }
    }
    true
}

/// Are all literals of a line members, or denials of what is assumed?
pub fn has_type(
    work: &Work,
    history: &History,
    set: TypeSet,
    assumed: &[TermId],
    t: TermId,
    line: u64,
) -> bool
    requires stands { WorkStands history.now work.now }
    requires line { LineStands work.now line }
    requires room { length (shells_of (events_at work.now.bank history.now)) ≤ 61 }
    ensures { IsTrue result → LineHasOnly work.now line (allowed_literals (events_at work.now.bank history.now) set.0 (terms_at work.now.bank assumed.now) (term_at work.now.bank t)) }
{
    let literals = work.log.clause_over(&work.bank, line);
    are_right(&work.bank, history, set, assumed, t, literals)
}
