//! The rules that a history has beside those of its table, and whether an instance of a rule may rewrite a term. They decide only what
//! is tried.
ghost use Rattle.nq_bank.specs.Content.{Stands};
ghost use Rattle.nq_history.specs.Events.{HistoryStands};
ghost use Rattle.std.specs.Prelude.{◌≡◌, Err};

use crate::terms::{is_before, is_walked};
use nq_bank::{Bank, Node, Sym, TermId, ground};
use nq_clause::match_term;
use nq_history::{Hints, History};
use nq_kernel::Stop;
use nq_rule_table::Rules;
use nq_rules::{conclusion_of, left_side, two_of};
use std::alloc::AllocError;

/// A left side of a rule.
#[derive(Clone, Copy)]
pub struct Head {
    /// Its function.
    pub function: Sym,
    /// The place of the rule in the history.
    pub place: u64,
    /// Whether the rule says that the left side is true, and not what it equals.
    pub truth: bool,
    /// Whether the right side is an instance of the left side, as in commutativity.
    pub permutes: bool,
}

/// Is one term an instance of another?
fn is_instance(bank: &Bank, pattern: TermId, t: TermId) -> Result<bool, AllocError>
    requires pattern { Stands bank.now pattern }
    requires term { Stands bank.now t }
{
    let mut bindings = Vec::new(bank.alloc());
    match_term(bank, pattern, t, &mut bindings)
}

/// The same, where a lack of memory stops the work.
pub fn takes(bank: &Bank, pattern: TermId, t: TermId) -> Result<bool, Stop>
    requires pattern { Stands bank.now pattern }
    requires term { Stands bank.now t }
    ensures memory { result ≡ Err Stop.OutOfSteps → ⊥ }
{
    match is_instance(bank, pattern, t) {
        Ok(found) => Ok(found),
        Err(_) => Err(Stop::Memory),
    }
}

/// Adds the left side of a part of a conclusion.
fn add_head(bank: &Bank, heads: &mut Vec<Head>, place: u64, part: TermId) -> Result<(), AllocError>
    requires { Stands bank.now part }
{
    let left = left_side(bank, part);
    if let Node::App(function, _) = bank.node(left) {
        let permutes = match two_of(bank, ground::EQUAL, part) {
            Some((l, r)) => is_instance(bank, l, r)?,
            None => false,
        };
        heads.push(Head {
            function,
            place,
            truth: left.0 == part.0,
            permutes,
        })?;
    }
    Ok(())
}

/// Adds the left sides of a conclusion. A part that is an implication has a conclusion of its own.
fn add_heads(bank: &Bank, heads: &mut Vec<Head>, place: u64, part: TermId) -> Result<(), AllocError>
    requires { Stands bank.now part }
{
    match two_of(bank, ground::AND, part) {
        Some((p, q)) => {
            add_heads(bank, heads, place, p)?;
            add_heads(bank, heads, place, q)
        }
        None => match two_of(bank, ground::IMPLIES, part) {
            Some((_, conclusion)) => add_heads(bank, heads, place, conclusion),
            None => add_head(bank, heads, place, part),
        },
    }
}

/// Adds the left sides of those parts of a conclusion that are implications.
fn add_nested(
    bank: &Bank,
    heads: &mut Vec<Head>,
    place: u64,
    part: TermId,
) -> Result<(), AllocError>
    requires { Stands bank.now part }
{
    match two_of(bank, ground::AND, part) {
        Some((p, q)) => {
            add_nested(bank, heads, place, p)?;
            add_nested(bank, heads, place, q)
        }
        None => match two_of(bank, ground::IMPLIES, part) {
            Some((_, conclusion)) => add_heads(bank, heads, place, conclusion),
            None => Ok(()),
        },
    }
}

/// Adds those of the axiom or lemma at a place.
fn add_entry(
    bank: &Bank,
    history: &History,
    heads: &mut Vec<Head>,
    place: u64,
) -> Result<(), AllocError>
    requires stands { HistoryStands bank.now history.now }
{
    if place < history.len() {
        let e = history.entry(place);
        if let Some(t) = history.term_of(bank, e.name) {
            add_nested(bank, heads, place, conclusion_of(bank, t))?;
        }
    }
    Ok(())
}

/// The left sides under implications within the conclusions of the rules that are enabled for these hints, the newest first. The table
/// of rules has such a part as a rule about IMPLIES.
pub fn nested_heads(
    bank: &Bank,
    history: &History,
    hints: &Hints,
    rules: &Rules,
) -> Result<Vec<Head>, AllocError>
    requires { HistoryStands bank.now history.now }
{
    let mut heads = Vec::new(bank.alloc());
    let mut before = history.len();
    let implications = rules.rewrites(ground::IMPLIES);
    for at in 0..implications.len() {
        let rule = implications[implications.len() - 1 - at];
        if rule.truth && rule.place < before {
            before = rule.place;
            if rules.is_enabled_for(hints, rule.event) {
                add_entry(bank, history, &mut heads, rule.place)?;
            }
        }
    }
    Ok(heads)
}

/// May an instance of a rule rewrite a term? One whose right side is an instance of its left side may where what it gives comes
/// before the term.
pub fn is_allowed(bank: &Bank, head: Head, t: TermId, fact: TermId) -> bool
    requires term { Stands bank.now t }
    requires fact { Stands bank.now fact }
{
    if !head.permutes {
        return true;
    }
    let part = conclusion_of(bank, fact);
    match right_for(bank, part, t) {
        Some(r) => {
            if r.0 < bank.len() {
                is_walked(bank, r) && is_walked(bank, t) && is_before(bank, r, t)
            } else {
                false
            }
        }
        None => true,
    }
}

/// The right side of the part of a term that has t as its left side.
fn right_for(bank: &Bank, u: TermId, t: TermId) -> Option<TermId>
    requires { Stands bank.now u }
{
    match two_of(bank, ground::AND, u) {
        Some((p, q)) => match right_for(bank, p, t) {
            Some(found) => Some(found),
            None => right_for(bank, q, t),
        },
        None => match two_of(bank, ground::EQUAL, u) {
            Some((l, r)) => if l.0 == t.0 { Some(r) } else { None },
            None => None,
        },
    }
}
