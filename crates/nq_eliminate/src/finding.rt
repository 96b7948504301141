//! Axioms and lemmas of the class ELIM: whether the rule of one has a candidate in a goal, and which.
//!
//! A destructor call of a rule is a call of distinct variables that stands in the left side of its conclusion, as `(QUOTIENT X Y)` in
//! `(EQUAL (PLUS (REMAINDER X Y) (TIMES Y (QUOTIENT X Y))) X)`. The rule has a candidate where one of its destructor calls becomes a call
//! of the goal, as `(QUOTIENT A B)`, with a variable for each of its variables, the eliminated one among them: it must become another than the others
//! do, and no two destructor calls may become one. The variables that the call does not have can be new ones, so that they do no harm.
ghost use Rattle.std.specs.Prelude.{◌≡◌, ◌∷◌, [], ◌&&◌, All, IfOk, MatchOption, true, map};
ghost use Rattle.std.specs.Option.{option_map};
ghost use Rattle.nq_logic.specs.Terms.{Each};
ghost use Rattle.nq_bank.specs.Content.{IsNamed, Stands, term_at, terms_at, text_at};
ghost use Rattle.nq_history.specs.Events.{EntryStands, HistoryStands, all_events_at, class_of, event_at, events_at};
ghost use Rattle.nq_history.specs.Hints.{HintsStand};
ghost use Rattle.nq_event.specs.EventsAt.{hints_at};
ghost use Rattle.nq_goals.specs.Eliminating.{has_elim};
ghost use Rattle.nq_goals.specs.Hints.{is_enabled_for};
ghost use Rattle.nq_eliminate.specs.Finding.{EventServesNone, HasNoneOfEvents, IsCandidate, RuleServes, TermServes, TermServesNone, candidate_by};

use crate::rules::rule_of;
use crate::serving::{Served, find_served, is_both};
use nq_bank::{Bank, Sym, TermId};
use nq_history::{Class, Entry, EntryKind, Hints, History};
use nq_normal::is_enabled_for;
use nq_stuck::{Fault, calls_in};

/// An axiom or a lemma whose rule has a candidate in a goal.
#[derive(Clone, Copy)]
pub struct Candidate {
    /// The name of the axiom or lemma.
    pub name: Sym,
    /// Its term.
    pub term: TermId,
    /// Its rule, with a destructor call and the call of the goal that it becomes.
    pub served: Served,
}

/// Is ELIM among the classes?
fn has_elim(classes: &[Class]) -> bool
    ensures { result ≡ has_elim (map class_of classes.now) }
{
    match classes {
        [] => false,
        [Class::Elim, ..] => true,
        [_, rest @ ..] => has_elim(rest),
    }
}

/// A destructor call of the rule of a term that becomes one of these calls of the goal.
fn find_in_term(
    bank: &Bank,
    goal: &[TermId],
    calls: &[TermId],
    t: TermId,
) -> Result<Option<Served>, Fault>
    requires goal { All (Stands bank.now) goal.now }
    requires calls { All (Stands bank.now) calls.now }
    requires term { Stands bank.now t }
    ensures { IfOk result (λ found. MatchOption found (TermServesNone (terms_at bank.now goal.now) (terms_at bank.now calls.now) (term_at bank.now t)) (TermServes bank.now (terms_at bank.now goal.now) (term_at bank.now t))) }
{
    match rule_of(bank, t) {
        Some(rule) => find_served(bank, rule, goal, calls),
        None => Ok(None),
    }
}

/// The same of an axiom or a lemma of this name and of these classes.
fn find_by_rule(
    bank: &Bank,
    history: &History,
    hints: &Hints,
    goal: &[TermId],
    calls: &[TermId],
    name: Sym,
    classes: &[Class],
    t: TermId,
) -> Result<Option<Served>, Fault>
    requires history { HistoryStands bank.now history.now }
    requires hints { HintsStand bank.now hints.now }
    requires goal { All (Stands bank.now) goal.now }
    requires calls { All (Stands bank.now) calls.now }
    requires name { IsNamed bank.now name }
    requires term { Stands bank.now t }
    ensures { IfOk result (λ found. MatchOption found ((has_elim (map class_of classes.now) && is_enabled_for (events_at bank.now history.now) (hints_at bank.now hints.now) (text_at bank.now name)) ≡ true → TermServesNone (terms_at bank.now goal.now) (terms_at bank.now calls.now) (term_at bank.now t)) (RuleServes bank.now (events_at bank.now history.now) (hints_at bank.now hints.now) (terms_at bank.now goal.now) (text_at bank.now name) (map class_of classes.now) (term_at bank.now t))) }
{
    let class = has_elim(classes);
    let enabled = is_enabled_for(bank, history, hints, name);
    let wanted = is_both(class, enabled);
    if wanted {
        find_in_term(bank, goal, calls, t)
    } else {
        Ok(None)
    }
}

/// The candidate of an axiom or a lemma.
fn candidate_of(name: Sym, term: TermId, found: Option<Served>) -> Option<Candidate>
    ensures { result ≡ option_map (candidate_by name term) found }
{
    match found {
        Some(served) => Some(Candidate { name, term, served }),
        None => None,
    }
}

/// The candidate of an entry, where it is an axiom or a lemma.
fn find_by_entry(
    bank: &Bank,
    history: &History,
    hints: &Hints,
    goal: &[TermId],
    calls: &[TermId],
    entry: &Entry,
) -> Result<Option<Candidate>, Fault>
    requires history { HistoryStands bank.now history.now }
    requires hints { HintsStand bank.now hints.now }
    requires goal { All (Stands bank.now) goal.now }
    requires calls { All (Stands bank.now) calls.now }
    requires entry { EntryStands bank.now entry.now }
    ensures { IfOk result (λ found. MatchOption found (EventServesNone (events_at bank.now history.now) (hints_at bank.now hints.now) (terms_at bank.now goal.now) (terms_at bank.now calls.now) (event_at bank.now entry.now)) (IsCandidate bank.now (events_at bank.now history.now) (hints_at bank.now hints.now) (terms_at bank.now goal.now) (event_at bank.now entry.now ∷ []))) }
{
    match &entry.kind {
        EntryKind::Axiom(classes, t) => {
            let classes = classes.as_slice();
            let found = find_by_rule(bank, history, hints, goal, calls, entry.name, classes, *t)?;
            Ok(candidate_of(entry.name, *t, found))
        }
        EntryKind::Lemma(classes, t) => {
            let classes = classes.as_slice();
            let found = find_by_rule(bank, history, hints, goal, calls, entry.name, classes, *t)?;
            Ok(candidate_of(entry.name, *t, found))
        }
        EntryKind::Shell(_) => Ok(None),
        EntryKind::Dcl(_) => Ok(None),
        EntryKind::Defn(_, _, _) => Ok(None),
        EntryKind::Toggle(_, _) => Ok(None),
    }
}

/// The first candidate of these entries.
fn find_by_entries(
    bank: &Bank,
    history: &History,
    hints: &Hints,
    goal: &[TermId],
    calls: &[TermId],
    entries: &[Entry],
) -> Result<Option<Candidate>, Fault>
    requires history { HistoryStands bank.now history.now }
    requires hints { HintsStand bank.now hints.now }
    requires goal { All (Stands bank.now) goal.now }
    requires calls { All (Stands bank.now) calls.now }
    requires entries { All (EntryStands bank.now) entries.now }
    ensures { IfOk result (λ found. MatchOption found (Each (EventServesNone (events_at bank.now history.now) (hints_at bank.now hints.now) (terms_at bank.now goal.now) (terms_at bank.now calls.now)) (all_events_at bank.now entries.now)) (IsCandidate bank.now (events_at bank.now history.now) (hints_at bank.now hints.now) (terms_at bank.now goal.now) (all_events_at bank.now entries.now))) }
{
    for entry in entries {
        let found = find_by_entry(bank, history, hints, goal, calls, entry)?;
        if let Some(candidate) = found {
            return Ok(Some(candidate));
        }
    }
    Ok(None)
}

/// The first enabled axiom or lemma whose rule has a candidate in the goal. There is none exactly where none has.
pub fn find_candidate(
    bank: &Bank,
    history: &History,
    hints: &Hints,
    goal: &[TermId],
) -> Result<Option<Candidate>, Fault>
    requires history { HistoryStands bank.now history.now }
    requires hints { HintsStand bank.now hints.now }
    requires goal { All (Stands bank.now) goal.now }
    ensures { IfOk result (λ found. MatchOption found (HasNoneOfEvents (events_at bank.now history.now) (hints_at bank.now hints.now) (terms_at bank.now goal.now)) (IsCandidate bank.now (events_at bank.now history.now) (hints_at bank.now hints.now) (terms_at bank.now goal.now) (events_at bank.now history.now))) }
{
    let calls = calls_in(bank, goal, usize::MAX)?;
    find_by_entries(
        bank,
        history,
        hints,
        goal,
        calls.as_slice(),
        history.past_ground(),
    )
}
