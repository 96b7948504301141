//! Drafts that are joined into one.

use crate::draft::{Change, Draft, DraftCase, Step};
use crate::steps::{add_change, becomes, changed_in, is_contained, says};
use crate::terms::{add_ids, are_apart};
use crate::tested::{exclude, joined_tests};
use std::alloc::{AllocError, Global};

/// Does a change agree with a step that may say nothing of its variable?
fn agrees(changes: &[Change], c: Change) -> bool {
    for d in changes {
        if d.variable.0 == c.variable.0 {
            return d.term.0 == c.term.0;
        }
    }
    true
}

/// Do two steps agree on the variables of which both speak?
fn agree(changes: &[Change], others: &[Change]) -> bool {
    for c in others {
        if !agrees(changes, *c) {
            return false;
        }
    }
    true
}

/// Do two steps change a variable in the same way?
fn share_change(changes: &[Change], others: &[Change]) -> bool {
    for c in others {
        if c.term.0 != c.variable.0 && says(changes, *c) {
            return true;
        }
    }
    false
}

/// The place of the first of these steps that can be joined with a step.
fn fitting(step: &Step, steps: &[Step]) -> Option<usize> {
    let changes = step.changes.as_slice();
    for i in 0..steps.len() {
        let others = steps[i].changes.as_slice();
        if agree(changes, others) && share_change(changes, others) {
            return Some(i);
        }
    }
    None
}

/// The step that makes the changes of two.
pub fn joined_step(alloc: Global, step: &Step, other: &Step) -> Result<Step, AllocError> {
    let mut changes = Vec::from_slice(alloc, step.changes.as_slice())?;
    for c in other.changes.as_slice() {
        add_change(&mut changes, *c)?;
    }
    Ok(Step { changes })
}

/// Each of these steps joined with one of the others; none where one cannot be.
fn joined_steps(
    alloc: Global,
    steps: &[Step],
    others: &[Step],
) -> Result<Option<Vec<Step>>, AllocError> {
    let mut joined = Vec::new(alloc);
    for step in steps {
        match fitting(step, others) {
            Some(i) => {
                if i < others.len() {
                    let both = joined_step(alloc, step, &others[i])?;
                    joined.push(both)?;
                }
            }
            None => return Ok(None),
        }
    }
    Ok(Some(joined))
}

/// Says one of these steps all that a step says?
fn is_said(step: &Step, steps: &[Step]) -> bool {
    for other in steps {
        if is_contained(step.changes.as_slice(), other.changes.as_slice()) {
            return true;
        }
    }
    false
}

/// Is each of these steps said by one of the others?
fn are_said(steps: &[Step], others: &[Step]) -> bool {
    for step in steps {
        if !is_said(step, others) {
            return false;
        }
    }
    true
}

/// One case of two; none where their tests exclude one another, or their steps cannot be joined.
fn joined_case(
    alloc: Global,
    case: &DraftCase,
    other: &DraftCase,
) -> Result<Option<DraftCase>, AllocError> {
    if exclude(other.tests.as_slice(), case.tests.as_slice()) {
        return Ok(None);
    }
    match joined_steps(alloc, case.steps.as_slice(), other.steps.as_slice())? {
        Some(steps) => {
            if !are_said(other.steps.as_slice(), steps.as_slice()) {
                return Ok(None);
            }
            let tests = joined_tests(alloc, case.tests.as_slice(), other.tests.as_slice())?;
            Ok(Some(DraftCase { tests, steps }))
        }
        None => Ok(None),
    }
}

/// A case joined with the first of others with which it can be; the place of that one is noted.
fn joined_with_one(
    alloc: Global,
    case: &DraftCase,
    others: &[DraftCase],
    used: &mut Vec<bool>,
) -> Result<Option<DraftCase>, AllocError> {
    for j in 0..others.len() {
        if let Some(both) = joined_case(alloc, case, &others[j])? {
            if j < used.len() {
                used[j] = true;
            }
            return Ok(Some(both));
        }
    }
    Ok(None)
}

/// Is none of these still false?
fn are_all(used: &[bool]) -> bool {
    for u in used {
        if !*u {
            return false;
        }
    }
    true
}

/// The cases of two drafts joined, where each case of either goes into one.
fn joined_cases(
    alloc: Global,
    cases: &[DraftCase],
    others: &[DraftCase],
) -> Result<Option<Vec<DraftCase>>, AllocError> {
    let mut used = vec![in alloc; false; others.len()]?;
    let mut joined = Vec::new(alloc);
    for case in cases {
        match joined_with_one(alloc, case, others, &mut used)? {
            Some(both) => joined.push(both)?,
            None => return Ok(None),
        }
    }
    if are_all(used.as_slice()) {
        Ok(Some(joined))
    } else {
        Ok(None)
    }
}

/// Does one draft change what the other does, and neither what the other keeps?
fn may_join(one: &Draft, other: &Draft) -> bool {
    !one.gone
        && !other.gone
        && !are_apart(one.changed.as_slice(), other.changed.as_slice())
        && are_apart(one.changed.as_slice(), other.still.as_slice())
        && are_apart(other.changed.as_slice(), one.still.as_slice())
}

/// The draft of these cases, which were those of two drafts.
pub fn draft_of_both(
    alloc: Global,
    one: &Draft,
    other: &Draft,
    cases: Vec<DraftCase>,
) -> Result<Draft, AllocError> {
    let mut calls = Vec::from_slice(alloc, one.calls.as_slice())?;
    add_ids(&mut calls, other.calls.as_slice())?;
    let mut still = Vec::from_slice(alloc, one.still.as_slice())?;
    add_ids(&mut still, other.still.as_slice())?;
    let changed = changed_in(alloc, cases.as_slice())?;
    Ok(Draft {
        calls,
        cases,
        changed,
        still,
        score: one.score.saturating_add(other.score),
        by_parts: one.by_parts && other.by_parts,
        order: if one.order < other.order {
            one.order
        } else {
            other.order
        },
        gone: false,
    })
}

/// One draft that does what two do, if there is one.
fn merged(alloc: Global, one: &Draft, other: &Draft) -> Result<Option<Draft>, AllocError> {
    if !may_join(one, other) {
        return Ok(None);
    }
    match joined_cases(alloc, one.cases.as_slice(), other.cases.as_slice())? {
        Some(cases) => {
            let both = draft_of_both(alloc, one, other, cases)?;
            Ok(Some(both))
        }
        None => Ok(None),
    }
}

/// Puts one draft in the place of those at two places, if there is one that does what both do.
fn merge_two(
    alloc: Global,
    drafts: &mut Vec<Draft>,
    i: usize,
    j: usize,
) -> Result<bool, AllocError> {
    if i < drafts.len() && j < drafts.len() && i != j {
        if let Some(both) = merged(alloc, &drafts[i], &drafts[j])? {
            drafts[i].gone = true;
            drafts[j].gone = true;
            drafts.push(both)?;
            return Ok(true);
        }
    }
    Ok(false)
}

/// Merges the draft at a place with the first with which it can be.
fn merge_at(alloc: Global, drafts: &mut Vec<Draft>, i: usize) -> Result<bool, AllocError> {
    for j in 0..drafts.len() {
        if merge_two(alloc, drafts, i, j)? {
            return Ok(true);
        }
    }
    Ok(false)
}

/// Merges two drafts, the first that can be.
fn merge_first(alloc: Global, drafts: &mut Vec<Draft>) -> Result<bool, AllocError> {
    for i in 0..drafts.len() {
        if merge_at(alloc, drafts, i)? {
            return Ok(true);
        }
    }
    Ok(false)
}

/// Merges drafts as long as there are two that can be. Each time there is one less.
pub fn merge(alloc: Global, drafts: &mut Vec<Draft>) -> Result<(), AllocError> {
    for _ in 0..drafts.len() {
        if !merge_first(alloc, drafts)? {
            return Ok(());
        }
    }
    Ok(())
}
