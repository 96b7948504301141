//! What the variables of a call become at a recursive call.

use crate::draft::{Change, DraftCase, Step};
use crate::terms::{has_id, is_variable};
use nq_bank::{Bank, TermId};
use std::alloc::{AllocError, Global};

/// What a variable becomes, where it changes at all.
fn change_of(changes: &[Change], v: TermId) -> Option<TermId> {
    for c in changes {
        if c.variable.0 == v.0 {
            return Some(c.term);
        }
    }
    None
}

/// What a variable becomes.
pub fn becomes(changes: &[Change], v: TermId) -> TermId {
    match change_of(changes, v) {
        Some(t) => t,
        None => v,
    }
}

/// Does a step speak of a variable, and say that it becomes this?
pub fn says(changes: &[Change], c: Change) -> bool {
    match change_of(changes, c.variable) {
        Some(t) => t.0 == c.term.0,
        None => false,
    }
}

/// Does each change of a step agree with the others, where a variable of which nothing is said stays?
pub fn is_contained(changes: &[Change], others: &[Change]) -> bool {
    for c in changes {
        if becomes(others, c.variable).0 != c.term.0 {
            return false;
        }
    }
    true
}

/// Adds a change, unless one of its variable is there.
pub fn add_change(changes: &mut Vec<Change>, c: Change) -> Result<(), AllocError> {
    if change_of(changes.as_slice(), c.variable).is_none() {
        changes.push(c)?;
    }
    Ok(())
}

/// What the variable at a place becomes: it stays where it stands at several places and would become several terms.
fn agreed(places: &[usize], arguments: &[TermId], news: &[TermId], v: TermId, t: TermId) -> TermId {
    for i in 0..arguments.len() {
        if i < news.len() && !places.contains(&i) {
            if arguments[i].0 == v.0 && news[i].0 != t.0 {
                return v;
            }
        }
    }
    t
}

/// Adds the changes of the variables at the measured places.
fn add_measured(
    changes: &mut Vec<Change>,
    places: &[usize],
    arguments: &[TermId],
    news: &[TermId],
) -> Result<(), AllocError> {
    for i in places {
        if *i < arguments.len() && *i < news.len() {
            let c = Change {
                variable: arguments[*i],
                term: news[*i],
            };
            add_change(changes, c)?;
        }
    }
    Ok(())
}

/// Adds the changes of the variables at the other places.
fn add_carried(
    bank: &Bank,
    changes: &mut Vec<Change>,
    places: &[usize],
    arguments: &[TermId],
    news: &[TermId],
) -> Result<(), AllocError> {
    for i in 0..arguments.len() {
        let v = arguments[i];
        if i < news.len() && v.0 < bank.len() {
            if is_variable(bank, v) {
                let term = agreed(places, arguments, news, v, news[i]);
                add_change(changes, Change { variable: v, term })?;
            }
        }
    }
    Ok(())
}

/// What the variables of a call become at a recursive call with these arguments.
pub fn step_of(
    bank: &Bank,
    places: &[usize],
    arguments: &[TermId],
    news: &[TermId],
) -> Result<Step, AllocError> {
    let mut changes = Vec::new(bank.alloc());
    add_measured(&mut changes, places, arguments, news)?;
    add_carried(bank, &mut changes, places, arguments, news)?;
    Ok(Step { changes })
}

/// Does one of these steps change a variable?
fn changes_at(steps: &[Step], v: TermId) -> bool {
    for s in steps {
        if becomes(s.changes.as_slice(), v).0 != v.0 {
            return true;
        }
    }
    false
}

/// Does one of the steps of these cases change a variable?
pub fn is_changed(cases: &[DraftCase], v: TermId) -> bool {
    for case in cases {
        if changes_at(case.steps.as_slice(), v) {
            return true;
        }
    }
    false
}

/// Adds the variables that a step changes.
fn add_changed(changed: &mut Vec<TermId>, step: &Step) -> Result<(), AllocError> {
    for c in step.changes.as_slice() {
        if c.term.0 != c.variable.0 && !has_id(changed.as_slice(), c.variable) {
            changed.push(c.variable)?;
        }
    }
    Ok(())
}

/// Adds the variables that a case changes.
fn add_changed_in(changed: &mut Vec<TermId>, case: &DraftCase) -> Result<(), AllocError> {
    for step in case.steps.as_slice() {
        add_changed(changed, step)?;
    }
    Ok(())
}

/// The variables that these cases change.
pub fn changed_in(alloc: Global, cases: &[DraftCase]) -> Result<Vec<TermId>, AllocError> {
    let mut changed = Vec::new(alloc);
    for case in cases {
        add_changed_in(&mut changed, case)?;
    }
    Ok(changed)
}
