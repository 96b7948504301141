//! Which axiom or lemma of the history a goal is an instance of.
//!
//! The entries are searched oldest first, and each axiom or lemma is matched with the goal, where their functions are the same
//! down to a few levels; most entries are passed by at the head, and nothing is made for them. A log names an axiom or lemma by
//! its name alone, and has the first one of that name, so a match counts only where the name has this very term.
ghost use Rattle.std.specs.Prelude.{◌≡◌, ◌↔◌, IsTrue, IfOk, IfSome, MatchOption, Some};
ghost use Rattle.nq_proof.specs.Rules.{event_term};
ghost use Rattle.nq_fragments.specs.Instances.{IsEarlierInstance};
ghost use Rattle.nq_bank.specs.Content.{IsNamed, Stands, text_at, term_at};
ghost use Rattle.nq_history.specs.Events.{events_at, kind_term, EntryStands, HistoryStands};
ghost use Rattle.nq_quick.specs.Earlier.{IsFound, IsNoInstance, IsPassed};

use crate::fitting::may_fit;
use nq_bank::{Bank, Sym, TermId};
use nq_clause::{Binding, match_term};
use nq_history::{Entry, EntryKind, History};
use std::alloc::AllocError;

/// How many levels of a term are looked at before it is matched with the goal.
const LEVELS: u64 = 3;

/// An axiom or lemma, and terms in place of its variables.
#[derive(Drop)]
pub struct Earlier {
    /// Its name.
    pub name: Sym,
    /// Its term.
    pub term: TermId,
    /// What the variables of its term are bound to.
    pub bindings: Vec<Binding>,
}

/// The oldest axiom or lemma of which the goal is an instance, with the bindings; none exactly where there is no such axiom
/// or lemma. It fails only for want of memory.
pub fn earlier_instance(
    bank: &Bank,
    history: &History,
    goal: TermId,
) -> Result<Option<Earlier>, AllocError>
    requires history { HistoryStands bank.now history.now }
    requires goal { Stands bank.now goal }
    ensures { IfOk result (λ found. MatchOption found (IsEarlierInstance (events_at bank.now history.now) (term_at bank.now goal) → ⊥) (IsFound bank.now (events_at bank.now history.now) goal)) }
{
    for e in history.past_ground() {
        if let Some(found) = instance_of_entry(bank, history, goal, e)? {
            return Ok(Some(found));
        }
    }
    Ok(None)
}

/// The bindings that take an entry's term to the goal, where it is an axiom or lemma and the first of its name.
fn instance_of_entry(
    bank: &Bank,
    history: &History,
    goal: TermId,
    e: &Entry,
) -> Result<Option<Earlier>, AllocError>
    requires history { HistoryStands bank.now history.now }
    requires goal { Stands bank.now goal }
    requires entry { EntryStands bank.now e.now }
    ensures { IfOk result (λ found. MatchOption found (IsPassed bank.now (events_at bank.now history.now) goal e.now) (IsFound bank.now (events_at bank.now history.now) goal)) }
{
    match term_of_kind(&e.kind) {
        Some(t) => instance_of_event(bank, history, goal, e.name, t),
        None => Ok(None),
    }
}

/// The term of an axiom or lemma.
fn term_of_kind(kind: &EntryKind) -> Option<TermId>
    ensures { result ≡ kind_term kind.now }
{
    match kind {
        EntryKind::Axiom(_, t) => Some(*t),
        EntryKind::Lemma(_, t) => Some(*t),
        EntryKind::Shell(_) => None,
        EntryKind::Dcl(_) => None,
        EntryKind::Defn(_, _, _) => None,
        EntryKind::Toggle(_, _) => None,
    }
}

/// The bindings that take a term to the goal, where it is the term of the axiom or lemma of this name.
fn instance_of_event(
    bank: &Bank,
    history: &History,
    goal: TermId,
    name: Sym,
    t: TermId,
) -> Result<Option<Earlier>, AllocError>
    requires history { HistoryStands bank.now history.now }
    requires goal { Stands bank.now goal }
    requires name { IsNamed bank.now name }
    requires term { Stands bank.now t }
    ensures { IfOk result (λ found. MatchOption found (IsNoInstance bank.now (events_at bank.now history.now) goal name t) (IsFound bank.now (events_at bank.now history.now) goal)) }
{
    if !may_fit(bank, t, goal, LEVELS) {
        return Ok(None);
    }
    let mut bindings = Vec::new(bank.alloc());
    if !match_term(bank, t, goal, &mut bindings)? {
        return Ok(None);
    }
    if !has_term(bank, history, name, t) {
        return Ok(None);
    }
    Ok(Some(Earlier {
        name,
        term: t,
        bindings,
    }))
}

/// Is this the term of the axiom or lemma of this name?
fn has_term(bank: &Bank, history: &History, name: Sym, t: TermId) -> bool
    requires history { HistoryStands bank.now history.now }
    requires name { IsNamed bank.now name }
    requires term { Stands bank.now t }
    ensures { IsTrue result ↔ (event_term (text_at bank.now name) (events_at bank.now history.now) ≡ Some (term_at bank.now t)) }
{
    bank.is_sound();
    match history.term_of(bank, name) {
        Some(u) => u.0 == t.0,
        None => false,
    }
}
