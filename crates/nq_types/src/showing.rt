//! Types that lines show: what a term is, by recognizers of it, or what it is not, by their NOTs in one literal.
ghost use Rattle.std.specs.Prelude.{◌≡◌, ◌∷◌, ◌≤◌, ◌<◌, All, IfSome, IsTrue, length};
ghost use Rattle.nq_logic.specs.ShellPrinciple.{shells_of};
ghost use Rattle.nq_bank.specs.Content.{IsNamed, Stands, term_at, terms_at};
ghost use Rattle.nq_history.specs.Events.{HistoryStands, events_at};
ghost use Rattle.nq_kernel.specs.Growing.{LineStands, WorkStands};
ghost use Rattle.nq_lines.specs.Lines.{LineHasOnly};
ghost use Rattle.nq_types.specs.Shown.{AreAllowed, IsAllowed, IsShown};
ghost use Rattle.nq_types.specs.TypeSets.{denials};

use crate::judging::{has_type, is_denial, is_either, recognizer_place};
use crate::outside::{both_of, denies_at, says_rest};
use crate::sets::{OTHER_PLACE, TypeSet, has, with};
use nq_bank::{Bank, Node, Sym, TermId};
use nq_history::History;
use nq_kernel::Work;
use nq_lines::is_same;

/// The set with the bit of a recognizer.
fn with_recognizer(bank: &Bank, history: &History, set: TypeSet, f: Sym) -> TypeSet
    requires history { HistoryStands bank.now history.now }
    requires name { IsNamed bank.now f }
    requires room { length (shells_of (events_at bank.now history.now)) ≤ 61 }
{
    match recognizer_place(bank, history, f) {
        Some(place) => {
            if place < 63 {
                with(set, place as u32)
            } else {
                set
            }
        }
        None => set,
    }
}

/// The set with the bit of a literal, where that is a call of a recognizer.
fn with_literal(bank: &Bank, history: &History, set: TypeSet, literal: TermId) -> TypeSet
    requires history { HistoryStands bank.now history.now }
    requires literal { Stands bank.now literal }
    requires room { length (shells_of (events_at bank.now history.now)) ≤ 61 }
{
    match bank.node(literal) {
        Node::App(f, _) => with_recognizer(bank, history, set, f),
        Node::Num(_) => set,
        Node::Var(_) => set,
    }
}

/// The bits of the recognizers of which these literals are calls.
fn set_told(bank: &Bank, history: &History, literals: &[TermId]) -> TypeSet
    requires history { HistoryStands bank.now history.now }
    requires literals { All (Stands bank.now) literals.now }
    requires room { length (shells_of (events_at bank.now history.now)) ≤ 61 }
{
    let mut set = TypeSet(0);
    for literal in literals {
        set = with_literal(bank, history, set, *literal);
    }
    set
}

/// The set without other objects that a line shows, where it has only recognizers of the term and denials of what is assumed.
fn inside_type(
    work: &Work,
    history: &History,
    assumed: &[TermId],
    t: TermId,
    line: u64,
) -> Option<(TypeSet, u64)>
    requires stands { WorkStands history.now work.now }
    requires line { LineStands work.now line }
    requires room { length (shells_of (events_at work.now.bank history.now)) ≤ 61 }
    ensures { IfSome result (IsShown (events_at work.now.bank history.now) work.now (terms_at work.now.bank assumed.now) (term_at work.now.bank t)) }
{
    let set = set_told(&work.bank, history, work.log.clause_over(&work.bank, line));
    if has(set, OTHER_PLACE) {
        return None;
    }
    if has_type(work, history, set, assumed, t, line) {
        Some((set, line))
    } else {
        None
    }
}

/// Does a nest of ANDs say that a term is not the recognizer at a bit?
fn is_said(bank: &Bank, history: &History, place: usize, t: TermId, literal: TermId) -> bool
    requires history { HistoryStands bank.now history.now }
    requires literal { Stands bank.now literal }
    requires room { length (shells_of (events_at bank.now history.now)) ≤ 61 }
{
    if denies_at(bank, history, place, t, literal) {
        return true;
    }
    match both_of(bank, literal) {
        Some(both) => {
            denies_at(bank, history, place, t, both.first)
                || is_said(bank, history, place, t, both.rest)
        }
        None => false,
    }
}

/// All bits but those of the recognizers that a nest of ANDs says a term is not.
fn set_left(bank: &Bank, history: &History, t: TermId, literal: TermId) -> TypeSet
    requires history { HistoryStands bank.now history.now }
    requires literal { Stands bank.now literal }
    requires room { length (shells_of (events_at bank.now history.now)) ≤ 61 }
{
    let mut set = TypeSet(0);
    for place in 0..64u32 {
        if !is_said(bank, history, place as usize, t, literal) {
            set = with(set, place);
        }
    }
    set
}

/// The first of some literals that is no denial of what is assumed.
fn fact_of(bank: &Bank, assumed: &[TermId], literals: &[TermId]) -> Option<TermId>
    requires { All (Stands bank.now) literals.now }
    ensures { IfSome result (Stands bank.now) }
{
    for literal in literals {
        if !is_denial(bank, assumed, *literal) {
            return Some(*literal);
        }
    }
    None
}

/// Is a literal this one, or a denial of what is assumed?
fn is_fact_or_denial(bank: &Bank, assumed: &[TermId], fact: TermId, literal: TermId) -> bool
    requires { Stands bank.now literal }
    ensures { IsTrue result → IsAllowed bank.now (term_at bank.now fact ∷ denials (terms_at bank.now assumed.now)) literal }
{
    let same = is_same(literal, fact);
    let denial = is_denial(bank, assumed, literal);
    is_either(same, denial)
}

/// Are all literals so?
fn are_fact_or_denials(bank: &Bank, assumed: &[TermId], fact: TermId, literals: &[TermId]) -> bool
    requires { All (Stands bank.now) literals.now }
    ensures { IsTrue result → AreAllowed bank.now (term_at bank.now fact ∷ denials (terms_at bank.now assumed.now)) literals.now }
{
    for literal in literals {
        if !is_fact_or_denial(bank, assumed, fact, *literal) {
            return false;
        }
    }
    true
}

/// Are all literals of a line this one, or denials of what is assumed?
fn has_fact(work: &Work, history: &History, assumed: &[TermId], fact: TermId, line: u64) -> bool
    requires stands { WorkStands history.now work.now }
    requires line { LineStands work.now line }
    ensures { IsTrue result → LineHasOnly work.now line (term_at work.now.bank fact ∷ denials (terms_at work.now.bank assumed.now)) }
{
    let _ = history.len();
    let literals = work.log.clause_over(&work.bank, line);
    are_fact_or_denials(&work.bank, assumed, fact, literals)
}

/// The set with other objects that a line shows by a literal, where that is the one beside denials of what is assumed.
fn outside_type(
    work: &Work,
    history: &History,
    assumed: &[TermId],
    t: TermId,
    fact: TermId,
    line: u64,
) -> Option<(TypeSet, u64)>
    requires stands { WorkStands history.now work.now }
    requires fact { Stands work.now.bank fact }
    requires line { LineStands work.now line }
    requires room { length (shells_of (events_at work.now.bank history.now)) ≤ 61 }
    ensures { IfSome result (IsShown (events_at work.now.bank history.now) work.now (terms_at work.now.bank assumed.now) (term_at work.now.bank t)) }
{
    let set = set_left(&work.bank, history, t, fact);
    if !has(set, OTHER_PLACE) {
        return None;
    }
    if !says_rest(&work.bank, history, set, t, 0, fact) {
        return None;
    }
    if has_fact(work, history, assumed, fact, line) {
        Some((set, line))
    } else {
        None
    }
}

/// The type that a line shows, where it has only the fact of a set and denials of what is assumed.
pub fn shown_type(
    work: &Work,
    history: &History,
    assumed: &[TermId],
    t: TermId,
    line: u64,
) -> Option<(TypeSet, u64)>
    requires stands { WorkStands history.now work.now }
    requires line { LineStands work.now line }
    requires room { length (shells_of (events_at work.now.bank history.now)) ≤ 61 }
    ensures { IfSome result (IsShown (events_at work.now.bank history.now) work.now (terms_at work.now.bank assumed.now) (term_at work.now.bank t)) }
{
    match inside_type(work, history, assumed, t, line) {
        Some(found) => Some(found),
        None => {
            let literals = work.log.clause_over(&work.bank, line);
            let fact = fact_of(&work.bank, assumed, literals)?;
            outside_type(work, history, assumed, t, fact, line)
        }
    }
}
