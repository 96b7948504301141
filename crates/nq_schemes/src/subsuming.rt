//! Drafts that are contained in others.

use crate::draft::{Draft, DraftCase, Step};
use crate::drafting::ids_without;
use crate::steps::is_contained;
use crate::terms::add_ids;
use crate::tested::are_within;
use std::alloc::{AllocError, Global};

/// Is a step contained in one of these?
fn is_step_within(step: &Step, steps: &[Step]) -> bool {
    for other in steps {
        if is_contained(step.changes.as_slice(), other.changes.as_slice()) {
            return true;
        }
    }
    false
}

/// Is each of these steps contained in one of the others?
fn are_steps_within(steps: &[Step], others: &[Step]) -> bool {
    for step in steps {
        if !is_step_within(step, others) {
            return false;
        }
    }
    true
}

/// Which of two cases has all tests of the other.
#[derive(Clone, Copy, Debug, PartialEq, Eq)]
enum Tests {
    /// The case that contains the other.
    Around,
    /// The case that is contained: the hypotheses of the other stand in more cases.
    Within,
}

/// Has the one case or the other all tests?
fn are_fitting(tests: Tests, case: &DraftCase, other: &DraftCase) -> bool {
    match tests {
        Tests::Around => are_within(case.tests.as_slice(), other.tests.as_slice()),
        Tests::Within => are_within(other.tests.as_slice(), case.tests.as_slice()),
    }
}

/// Is a case contained in one of these?
fn is_case_within(tests: Tests, case: &DraftCase, cases: &[DraftCase]) -> bool {
    for other in cases {
        if are_fitting(tests, case, other)
            && are_steps_within(case.steps.as_slice(), other.steps.as_slice())
        {
            return true;
        }
    }
    false
}

/// Is each case of a draft contained in a case of the other?
fn is_within(tests: Tests, draft: &Draft, other: &Draft) -> bool {
    for case in draft.cases.as_slice() {
        if !is_case_within(tests, case, other.cases.as_slice()) {
            return false;
        }
    }
    true
}

/// Is the draft at one place contained in the one at the other, and are both still there?
fn may_go(tests: Tests, drafts: &[Draft], i: usize, j: usize) -> bool {
    if i < drafts.len() && j < drafts.len() && i != j {
        let one = &drafts[i];
        let other = &drafts[j];
        !one.gone && !other.gone && is_within(tests, one, other)
    } else {
        false
    }
}

/// Gives the calls of the draft at one place to the one at the other.
fn give(alloc: Global, drafts: &mut Vec<Draft>, i: usize, j: usize) -> Result<(), AllocError> {
    if i < drafts.len() && j < drafts.len() {
        let one = &drafts[i];
        let other = &drafts[j];
        let score = one.score.saturating_add(other.score);
        let by_parts = one.by_parts && other.by_parts;
        let mut calls = Vec::from_slice(alloc, other.calls.as_slice())?;
        add_ids(&mut calls, one.calls.as_slice())?;
        let mut still = Vec::from_slice(alloc, other.still.as_slice())?;
        let more = ids_without(alloc, one.still.as_slice(), other.changed.as_slice())?;
        add_ids(&mut still, more.as_slice())?;
        drafts[i].gone = true;
        let kept = &mut drafts[j];
        kept.score = score;
        kept.by_parts = by_parts;
        kept.calls = calls;
        kept.still = still;
    }
    Ok(())
}

/// Gives the draft at a place to the first one that it is contained in.
fn subsume_at(
    alloc: Global,
    tests: Tests,
    drafts: &mut Vec<Draft>,
    i: usize,
) -> Result<(), AllocError> {
    for j in 0..drafts.len() {
        if may_go(tests, drafts.as_slice(), i, j) {
            give(alloc, drafts, i, j)?;
        }
    }
    Ok(())
}

/// Gives each draft that is contained in another to that one.
fn subsume_by(alloc: Global, tests: Tests, drafts: &mut Vec<Draft>) -> Result<(), AllocError> {
    for i in 0..drafts.len() {
        subsume_at(alloc, tests, drafts, i)?;
    }
    Ok(())
}

/// Gives each draft that is contained in another to that one: first to those with more tests, then to those with fewer, as that of
/// `(MEMBER E A)` to that of a reversal of A with an accumulator.
pub fn subsume(alloc: Global, drafts: &mut Vec<Draft>) -> Result<(), AllocError> {
    subsume_by(alloc, Tests::Around, drafts)?;
    subsume_by(alloc, Tests::Within, drafts)
}
