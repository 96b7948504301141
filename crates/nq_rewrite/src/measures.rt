//! Which calls of a recursive function are worth having in the place of another. It decides only what is tried.
ghost use Rattle.nq_bank.specs.Content.{Stands};

use crate::terms::{has_id, has_variable};
use nq_bank::{Bank, Node, Sym, TermId};
use nq_history::{Entry, EntryKind, History};

/// The greatest number for which a call is opened.
const NUMBER_LIMIT: u128 = 12;

/// Is a function defined, and if so, is it recursive?
pub fn is_recursive(history: &History, f: Sym) -> Option<bool> {
    match history.lookup(f) {
        Some(e) => match &e.kind {
            EntryKind::Defn(_, _, measure) => Some(measure.is_some()),
            EntryKind::Axiom(_, _) => None,
            EntryKind::Lemma(_, _) => None,
            EntryKind::Shell(_) => None,
            EntryKind::Dcl(_) => None,
            EntryKind::Toggle(_, _) => None,
        },
        None => None,
    }
}

/// The number that a numeral stands for.
fn number_of(bank: &Bank, t: TermId) -> Option<u128>
    requires { Stands bank.now t }
{
    match bank.node(t) {
        Node::Num(n) => Some(n),
        Node::Var(_) => None,
        Node::App(_, _) => None,
    }
}

/// How much less a number is than another: one node, where both are small numerals and it is less.
fn less_number(bank: &Bank, old: TermId, new: TermId) -> u64
    requires old { Stands bank.now old }
    requires new { Stands bank.now new }
{
    match number_of(bank, old) {
        Some(m) => match number_of(bank, new) {
            Some(n) => if n < m && m <= NUMBER_LIMIT { 1 } else { 0 },
            None => 0,
        },
        None => 0,
    }
}

/// Does a formal stand in a measure?
fn is_measured(bank: &Bank, x: Sym, measure: TermId) -> bool {
    if measure.0 < bank.len() {
        has_variable(bank, x, measure)
    } else {
        false
    }
}

/// One for a value, else nothing.
fn value_count(bank: &Bank, t: TermId) -> u64
    requires { Stands bank.now t }
{
    if bank.is_value(t) { 1 } else { 0 }
}

/// Are the measured arguments of one call smaller than those of another, or are more of them values?
fn are_simpler(bank: &Bank, formals: &[Sym], measure: TermId, old: TermId, new: TermId) -> bool
    requires old { Stands bank.now old }
    requires new { Stands bank.now new }
{
    let olds = bank.args(old);
    let news = bank.args(new);
    let mut before: u64 = 0;
    let mut after: u64 = 0;
    let mut values_before: u64 = 0;
    let mut values_after: u64 = 0;
    for i in 0..formals.len() {
        if i < olds.len() && i < news.len() && is_measured(bank, formals[i], measure) {
            let less = less_number(bank, olds[i], news[i]);
            before = before
                .saturating_add(bank.size(olds[i]))
                .saturating_add(less);
            after = after.saturating_add(bank.size(news[i]));
            values_before = values_before.saturating_add(value_count(bank, olds[i]));
            values_after = values_after.saturating_add(value_count(bank, news[i]));
        }
    }
    after < before || values_after > values_before
}

/// The same, by the entry of the function.
fn are_simpler_by(bank: &Bank, e: &Entry, old: TermId, new: TermId) -> bool
    requires old { Stands bank.now old }
    requires new { Stands bank.now new }
{
    match &e.kind {
        EntryKind::Defn(formals, _, Some(measure)) => {
            are_simpler(bank, formals.as_slice(), *measure, old, new)
        }
        EntryKind::Defn(_, _, None) => false,
        EntryKind::Axiom(_, _) => false,
        EntryKind::Lemma(_, _) => false,
        EntryKind::Shell(_) => false,
        EntryKind::Dcl(_) => false,
        EntryKind::Toggle(_, _) => false,
    }
}

/// Is a term a value other than a large numeral? One more opening of a call on a large numeral leaves a call on the next.
fn is_plain_value(bank: &Bank, t: TermId) -> bool
    requires { Stands bank.now t }
{
    match number_of(bank, t) {
        Some(n) => n <= NUMBER_LIMIT,
        None => bank.is_value(t),
    }
}

/// Does each argument of a call stand in the goal, or is it a value other than a large numeral?
fn are_seen(bank: &Bank, goal: &[TermId], t: TermId) -> bool
    requires { Stands bank.now t }
{
    for a in bank.args(t) {
        if !is_plain_value(bank, *a) && !has_id(goal, *a) {
            return false;
        }
    }
    true
}

/// Is a call of a recursive function worth having in the place of another? It is where its measured arguments are smaller or more
/// of them are values other than large numerals, or where all its arguments stand in the goal.
pub fn is_good(
    bank: &Bank,
    history: &History,
    goal: &[TermId],
    f: Sym,
    old: TermId,
    new: TermId,
) -> bool
    requires old { Stands bank.now old }
    requires new { Stands bank.now new }
{
    let simpler = match history.lookup(f) {
        Some(e) => are_simpler_by(bank, e, old, new),
        None => false,
    };
    simpler || are_seen(bank, goal, new)
}

/// Is each call of a function within a term worth having in the place of one call?
pub fn are_good(
    bank: &Bank,
    history: &History,
    goal: &[TermId],
    f: Sym,
    old: TermId,
    t: TermId,
) -> bool
    requires old { Stands bank.now old }
    requires term { Stands bank.now t }
{
    match bank.node(t) {
        Node::App(g, _) => {
            if g.0 == f.0 && !is_good(bank, history, goal, f, old, t) {
                return false;
            }
            for a in bank.args(t) {
                if !are_good(bank, history, goal, f, old, *a) {
                    return false;
                }
            }
            true
        }
        Node::Num(_) => true,
        Node::Var(_) => true,
    }
}
