//! Rules without hypotheses, and whether one of them rewrites a goal.
ghost use Rattle.std.specs.Prelude.{◌≡◌, ◌<◌, ◌||◌, [], if◌then◌else◌, All, IfOk, map};
ghost use Rattle.std.specs.List.{list_any};
ghost use Rattle.nq_logic.specs.Terms.{call};
ghost use Rattle.nq_logic.specs.RuleShapes.{and_parts, rule_parts};
ghost use Rattle.nq_bank.specs.Content.{Stands, IsNamed, text_at, term_at, terms_at};
ghost use Rattle.nq_history.specs.Events.{class_of, event_at, events_at, EntryStands, HistoryStands};
ghost use Rattle.nq_history.specs.Hints.{HintsStand};
ghost use Rattle.nq_goals.specs.Hints.{is_enabled_for};
ghost use Rattle.nq_goals.specs.Normal.{event_parts, has_rewritable, is_rewrite, parts_if_rule, parts_of_events, plain_parts, rewrites};
ghost use Rattle.nq_normal.specs.Definitions.{hints_at};
ghost use Rattle.nq_normal.specs.Rules.{TellsImplication, TellsSides};

use crate::barred::is_either;
use crate::openings::is_enabled_for;
use crate::parts::rewrites;
use nq_bank::{Bank, Node, Sym, TermId, ground};
use nq_history::{Class, Entry, EntryKind, Hints, History};
use std::alloc::AllocError;

/// The two arguments of a call of AND.
#[derive(Clone, Copy)]
pub struct Sides {
    pub left: TermId,
    pub right: TermId,
}

/// The two sides of a call of AND.
fn sides_of_call(bank: &Bank, t: TermId, f: Sym, arguments: &[TermId]) -> Option<Sides>
    requires name { IsNamed bank.now f }
    requires arguments { All (Stands bank.now) arguments.now }
    requires earlier { All (λ a. a.0 < t.0) arguments.now }
    ensures { TellsSides bank.now t (call (text_at bank.now f) (terms_at bank.now arguments.now)) result }
{
    match arguments {
        [] => None,
        [_] => None,
        [left, right] => {
            if bank.is_ground(f, ground::AND) {
                Some(Sides {
                    left: *left,
                    right: *right,
                })
            } else {
                None
            }
        }
        [_, _, _, ..] => None,
    }
}

/// The two sides of an AND.
fn sides_of(bank: &Bank, t: TermId) -> Option<Sides>
    requires { Stands bank.now t }
    ensures { TellsSides bank.now t (term_at bank.now t) result }
{
    match bank.node(t) {
        Node::Var(_) => None,
        Node::Num(_) => None,
        Node::App(f, _) => sides_of_call(bank, t, f, bank.args(t)),
    }
}

/// Does some AND part of a rule's conclusion rewrite the goal?
fn part_rewrites(bank: &Bank, t: TermId, goal: &[TermId]) -> Result<bool, AllocError>
    requires stands { Stands bank.now t }
    requires goal { All (Stands bank.now) goal.now }
    ensures { IfOk result (λ answer. answer ≡ list_any (rewrites (terms_at bank.now goal.now)) (and_parts (term_at bank.now t))) }
{
    match sides_of(bank, t) {
        Some(sides) => {
            let left = part_rewrites(bank, sides.left, goal)?;
            let right = part_rewrites(bank, sides.right, goal)?;
            Ok(is_either(left, right))
        }
        None => rewrites(bank, t, goal),
    }
}

/// Is a call one of IMPLIES on two arguments?
fn is_implication_call(bank: &Bank, f: Sym, arguments: &[TermId]) -> bool
    requires name { IsNamed bank.now f }
    requires arguments { All (Stands bank.now) arguments.now }
    ensures { TellsImplication (call (text_at bank.now f) (terms_at bank.now arguments.now)) result }
{
    match arguments {
        [] => false,
        [_] => false,
        [_, _] => bank.is_ground(f, ground::IMPLIES),
        [_, _, _, ..] => false,
    }
}

/// Has a rule hypotheses: is its term an IMPLIES?
fn is_implication(bank: &Bank, t: TermId) -> bool
    requires { Stands bank.now t }
    ensures { TellsImplication (term_at bank.now t) result }
{
    match bank.node(t) {
        Node::Var(_) => false,
        Node::Num(_) => false,
        Node::App(f, _) => is_implication_call(bank, f, bank.args(t)),
    }
}

/// Does some part without hypotheses of a term, as a rule, rewrite the goal?
fn term_rewrites(bank: &Bank, t: TermId, goal: &[TermId]) -> Result<bool, AllocError>
    requires stands { Stands bank.now t }
    requires goal { All (Stands bank.now) goal.now }
    ensures { IfOk result (λ answer. answer ≡ list_any (rewrites (terms_at bank.now goal.now)) (plain_parts (rule_parts (term_at bank.now t)))) }
{
    if is_implication(bank, t) {
        Ok(false)
    } else {
        part_rewrites(bank, t, goal)
    }
}

/// Is REWRITE one of the classes?
fn has_rewrite(classes: &[Class]) -> bool
    ensures { result ≡ list_any is_rewrite (map class_of classes.now) }
{
    match classes {
        [] => false,
        [first, rest @ ..] => match first {
            Class::Rewrite => true,
            Class::Elim => has_rewrite(rest),
            Class::Generalize => has_rewrite(rest),
        },
    }
}

/// Does some part without hypotheses of a term rewrite the goal, where its event is enabled? That is asked last, since all events are
/// walked for it.
fn enabled_rewrites(
    bank: &Bank,
    history: &History,
    hints: &Hints,
    name: Sym,
    t: TermId,
    goal: &[TermId],
) -> Result<bool, AllocError>
    requires history { HistoryStands bank.now history.now }
    requires hints { HintsStand bank.now hints.now }
    requires name { IsNamed bank.now name }
    requires stands { Stands bank.now t }
    requires goal { All (Stands bank.now) goal.now }
    ensures { IfOk result (λ answer. answer ≡ list_any (rewrites (terms_at bank.now goal.now)) (if is_enabled_for (events_at bank.now history.now) (hints_at bank.now hints.now) (text_at bank.now name) then plain_parts (rule_parts (term_at bank.now t)) else [])) }
{
    if term_rewrites(bank, t, goal)? {
        Ok(is_enabled_for(bank, history, hints, name))
    } else {
        Ok(false)
    }
}

/// Does an axiom or lemma of these classes, as an enabled rule, rewrite the goal?
fn rule_rewrites(
    bank: &Bank,
    history: &History,
    hints: &Hints,
    name: Sym,
    classes: &[Class],
    t: TermId,
    goal: &[TermId],
) -> Result<bool, AllocError>
    requires history { HistoryStands bank.now history.now }
    requires hints { HintsStand bank.now hints.now }
    requires name { IsNamed bank.now name }
    requires stands { Stands bank.now t }
    requires goal { All (Stands bank.now) goal.now }
    ensures { IfOk result (λ answer. answer ≡ list_any (rewrites (terms_at bank.now goal.now)) (parts_if_rule (events_at bank.now history.now) (hints_at bank.now hints.now) (text_at bank.now name) (map class_of classes.now) (term_at bank.now t))) }
{
    if has_rewrite(classes) {
        enabled_rewrites(bank, history, hints, name, t, goal)
    } else {
        Ok(false)
    }
}

/// Does the rule of an entry rewrite the goal?
fn entry_rewrites(
    bank: &Bank,
    history: &History,
    hints: &Hints,
    entry: &Entry,
    goal: &[TermId],
) -> Result<bool, AllocError>
    requires history { HistoryStands bank.now history.now }
    requires hints { HintsStand bank.now hints.now }
    requires entry { EntryStands bank.now entry.now }
    requires goal { All (Stands bank.now) goal.now }
    ensures { IfOk result (λ answer. answer ≡ list_any (rewrites (terms_at bank.now goal.now)) (event_parts (events_at bank.now history.now) (hints_at bank.now hints.now) (event_at bank.now entry.now))) }
{
    match &entry.kind {
        EntryKind::Axiom(classes, t) => {
            rule_rewrites(
                bank,
                history,
                hints,
                entry.name,
                classes.as_slice(),
                *t,
                goal,
            )
        }
        EntryKind::Lemma(classes, t) => {
            rule_rewrites(
                bank,
                history,
                hints,
                entry.name,
                classes.as_slice(),
                *t,
                goal,
            )
        }
        EntryKind::Shell(_) => Ok(false),
        EntryKind::Dcl(_) => Ok(false),
        EntryKind::Defn(_, _, _) => Ok(false),
        EntryKind::Toggle(_, _) => Ok(false),
    }
}

/// Does the rule of one of these entries rewrite the goal?
fn entries_rewrite(
    bank: &Bank,
    history: &History,
    hints: &Hints,
    entries: &[Entry],
    goal: &[TermId],
) -> Result<bool, AllocError>
    requires history { HistoryStands bank.now history.now }
    requires hints { HintsStand bank.now hints.now }
    requires entries { All (EntryStands bank.now) entries.now }
    requires goal { All (Stands bank.now) goal.now }
    ensures { IfOk result (λ answer. answer ≡ list_any (rewrites (terms_at bank.now goal.now)) (parts_of_events (events_at bank.now history.now) (hints_at bank.now hints.now) (map (event_at bank.now) entries.now))) }
{
    match entries {
        [] => Ok(false),
        [first, rest @ ..] => {
            if entry_rewrites(bank, history, hints, first, goal)? {
                Ok(true)
            } else {
                entries_rewrite(bank, history, hints, rest, goal)
            }
        }
    }
}

/// Does a part without hypotheses of an enabled rule, which is not permutative, rewrite the goal?
pub fn has_rewritable(
    bank: &Bank,
    history: &History,
    hints: &Hints,
    goal: &[TermId],
) -> Result<bool, AllocError>
    requires history { HistoryStands bank.now history.now }
    requires hints { HintsStand bank.now hints.now }
    requires goal { All (Stands bank.now) goal.now }
    ensures { IfOk result (λ answer. answer ≡ has_rewritable (events_at bank.now history.now) (hints_at bank.now hints.now) (terms_at bank.now goal.now)) }
{
    entries_rewrite(bank, history, hints, history.past_ground(), goal)
}
