//! The lemmas of a history that say something about the numbers of a goal, and their instances.
ghost use Rattle.std.specs.Prelude.{◌≡◌, ◌<◌, All, IfOk, OnOk, Err, length};
ghost use Rattle.nq_bank.specs.Content.{IsNamed, Stands};
ghost use Rattle.nq_history.specs.Events.{events_at};
ghost use Rattle.nq_kernel.specs.Growing.{WorkGrows, WorkStands};
ghost use Rattle.nq_lines.specs.Lines.{IsTermIn};
ghost use Rattle.nq_lines.specs.OwnTerms.{HasOwnTerms};
ghost use Rattle.nq_instances.specs.Parts.{IsLine};

use crate::hypotheses::conclusion_in;
use crate::matching::add_matches;
use crate::reading::{is_call_of, operands_of, terms_in};
use crate::triggers::trigger_of;
use nq_bank::{Bank, Node, Sym, TermId, ground};
use nq_history::{Class, Entry, EntryKind, Hints, History};
use nq_kernel::{Stop, Work};
use nq_lines::Fact;

/// From so many instances on no further lemma is tried.
const INSTANCE_LIMIT: usize = 60;

/// Is a name among these?
fn has_name(names: &[Sym], name: Sym) -> bool {
    for s in names {
        if s.0 == name.0 {
            return true;
        }
    }
    false
}

/// Is an event enabled for the hints?
fn is_enabled(history: &History, hints: &Hints, name: Sym) -> bool {
    if has_name(hints.disable.as_slice(), name) {
        return false;
    }
    if has_name(hints.enable.as_slice(), name) {
        return true;
    }
    history.enabled(name)
}

/// Is REWRITE or ELIM among these classes?
fn are_used(classes: &[Class]) -> bool {
    for class in classes {
        if *class == Class::Rewrite || *class == Class::Elim {
            return true;
        }
    }
    false
}

/// Is an entry an axiom or lemma that is a rule?
fn is_rule(e: &Entry) -> bool {
    match &e.kind {
        EntryKind::Axiom(classes, _) => are_used(classes.as_slice()),
        EntryKind::Lemma(classes, _) => are_used(classes.as_slice()),
        EntryKind::Shell(_) => false,
        EntryKind::Dcl(_) => false,
        EntryKind::Defn(_, _, _) => false,
        EntryKind::Toggle(_, _) => false,
    }
}

/// Is an entry tried, where so many instances leave room?
fn is_tried(history: &History, hints: &Hints, count: usize, e: &Entry) -> bool {
    count < INSTANCE_LIMIT && is_rule(e) && is_enabled(history, hints, e.name)
}

/// Is a term an equation whose left side is a sum?
fn is_sum_equation(work: &Work, history: &History, t: TermId) -> bool
    requires stands { WorkStands history.now work.now }
    requires term { IsTermIn history.now work.now t }
{
    if !is_call_of(&work.bank, t, ground::EQUAL) {
        return false;
    }
    match operands_of(work, history, t) {
        Some(sides) => is_call_of(&work.bank, sides.first, ground::PLUS),
        None => false,
    }
}

/// Does a term compare numbers, or say of a term that it is one?
fn is_comparison(work: &Work, history: &History, t: TermId) -> bool
    requires stands { WorkStands history.now work.now }
    requires term { IsTermIn history.now work.now t }
{
    is_call_of(&work.bank, t, ground::LESSP)
        || is_call_of(&work.bank, t, ground::NUMBERP)
        || is_sum_equation(work, history, t)
}

/// Is a term an equation with 0?
fn is_zero_equation(work: &Work, history: &History, t: TermId) -> bool
    requires stands { WorkStands history.now work.now }
    requires term { IsTermIn history.now work.now t }
{
    if !is_call_of(&work.bank, t, ground::EQUAL) {
        return false;
    }
    match operands_of(work, history, t) {
        Some(sides) => is_zero(&work.bank, sides.second),
        None => false,
    }
}

/// Is a term 0?
fn is_zero(bank: &Bank, t: TermId) -> bool
    requires { Stands bank.now t }
{
    match bank.node(t) {
        Node::Num(n) => n == 0,
        Node::Var(_) => false,
        Node::App(_, _) => false,
    }
}

/// Does the NOT of a term say something about numbers?
fn is_denied_bound(work: &Work, history: &History, t: TermId) -> bool
    requires stands { WorkStands history.now work.now }
    requires term { IsTermIn history.now work.now t }
{
    is_call_of(&work.bank, t, ground::LESSP) || is_zero_equation(work, history, t)
}

/// Does a lemma lead to a comparison of numbers, or to the NOT of one, or of an equation with 0?
fn is_bound(work: &Work, history: &History, rule: TermId) -> bool
    requires stands { WorkStands history.now work.now }
    requires rule { IsTermIn history.now work.now rule }
{
    let conclusion = conclusion_in(work, history, rule);
    if !is_call_of(&work.bank, conclusion, ground::NOT) {
        return is_comparison(work, history, conclusion);
    }
    match operands_of(work, history, conclusion) {
        Some(at) => is_denied_bound(work, history, at.first),
        None => false,
    }
}

/// Adds the instances of a lemma that leads to a comparison, for these terms.
fn add_bound(
    work: &mut Work,
    history: &History,
    found: &mut Vec<Fact>,
    name: Sym,
    rule: TermId,
    terms: &[TermId],
) -> Result<(), Stop>
    requires stands { WorkStands history.now work.old }
    requires ready { HasOwnTerms (events_at work.old.bank history.now) }
    requires name { IsNamed work.old.bank name }
    requires found { All (IsLine history.now work.old) found.old.items }
    requires rule { IsTermIn history.now work.old rule }
    requires terms { All (IsTermIn history.now work.old) terms.now }
    ensures found { OnOk result (All (IsLine history.now work.new) found.new.items) }
    ensures grows { WorkGrows history.now work.old work.new }
    ensures out { result ≡ Err Stop.OutOfSteps → work.new.counter.used ≡ work.new.counter.limit }
{
    match trigger_of(work, history, rule)? {
        Some(trigger) => add_matches(work, history, found, name, trigger, terms),
        None => Ok(()),
    }
}

/// The same, of any lemma.
fn add_lemma(
    work: &mut Work,
    history: &History,
    found: &mut Vec<Fact>,
    name: Sym,
    rule: TermId,
    terms: &[TermId],
) -> Result<(), Stop>
    requires stands { WorkStands history.now work.old }
    requires ready { HasOwnTerms (events_at work.old.bank history.now) }
    requires name { IsNamed work.old.bank name }
    requires found { All (IsLine history.now work.old) found.old.items }
    requires rule { IsTermIn history.now work.old rule }
    requires terms { All (IsTermIn history.now work.old) terms.now }
    ensures found { OnOk result (All (IsLine history.now work.new) found.new.items) }
    ensures grows { WorkGrows history.now work.old work.new }
    ensures out { result ≡ Err Stop.OutOfSteps → work.new.counter.used ≡ work.new.counter.limit }
{
    if is_bound(work, history, rule) {
        add_bound(work, history, found, name, rule, terms)
    } else {
        Ok(())
    }
}

/// The same, of the lemma of a name, if there is one.
fn add_named(
    work: &mut Work,
    history: &History,
    found: &mut Vec<Fact>,
    name: Sym,
    terms: &[TermId],
) -> Result<(), Stop>
    requires stands { WorkStands history.now work.old }
    requires ready { HasOwnTerms (events_at work.old.bank history.now) }
    requires name { IsNamed work.old.bank name }
    requires found { All (IsLine history.now work.old) found.old.items }
    requires terms { All (IsTermIn history.now work.old) terms.now }
    ensures found { OnOk result (All (IsLine history.now work.new) found.new.items) }
    ensures grows { WorkGrows history.now work.old work.new }
    ensures out { result ≡ Err Stop.OutOfSteps → work.new.counter.used ≡ work.new.counter.limit }
{
    match history.term_of(&work.bank, name) {
        Some(rule) => add_lemma(work, history, found, name, rule, terms),
        None => Ok(()),
    }
}

/// The same, of the entry at a place, if it is a rule that is enabled.
fn add_entry(
    work: &mut Work,
    history: &History,
    hints: &Hints,
    found: &mut Vec<Fact>,
    place: u64,
    terms: &[TermId],
) -> Result<(), Stop>
    requires stands { WorkStands history.now work.old }
    requires ready { HasOwnTerms (events_at work.old.bank history.now) }
    requires place { place < length history.now }
    requires found { All (IsLine history.now work.old) found.old.items }
    requires terms { All (IsTermIn history.now work.old) terms.now }
    ensures found { OnOk result (All (IsLine history.now work.new) found.new.items) }
    ensures grows { WorkGrows history.now work.old work.new }
    ensures out { result ≡ Err Stop.OutOfSteps → work.new.counter.used ≡ work.new.counter.limit }
{
    let e = history.entry(place);
    if is_tried(history, hints, found.len(), e) {
        add_named(work, history, found, e.name, terms)
    } else {
        Ok(())
    }
}

/// The instances of enabled lemmas that say something about numbers, for the terms in a goal, those of the newest first.
pub fn instances_of(
    work: &mut Work,
    history: &History,
    hints: &Hints,
    goal: &[TermId],
) -> Result<Vec<Fact>, Stop>
    requires stands { WorkStands history.now work.old }
    requires ready { HasOwnTerms (events_at work.old.bank history.now) }
    requires goal { All (IsTermIn history.now work.old) goal.now }
    ensures found { IfOk result (λ v. All (IsLine history.now work.new) v.items) }
    ensures grows { WorkGrows history.now work.old work.new }
    ensures out { result ≡ Err Stop.OutOfSteps → work.new.counter.used ≡ work.new.counter.limit }
{
    let terms = terms_in(work, history, goal)?;
    let mut found = Vec::new(work.bank.alloc());
    let count = history.len();
    for place in 0..count {
        add_entry(
            work,
            history,
            hints,
            &mut found,
            count - 1 - place,
            terms.as_slice(),
        )?;
    }
    Ok(found)
}
