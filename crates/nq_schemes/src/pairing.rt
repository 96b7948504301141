//! Drafts by which two calls of one function, which go through different variables, go on together.

ghost use Rattle.nq_bank.specs.Content.{Stands};

use crate::draft::{Draft, DraftCase, Step};
use crate::merging::{draft_of_both, joined_step};
use crate::parted::Test;
use crate::steps::is_contained;
use crate::terms::{are_apart, function_of};
use crate::tested::{has_test, joined_tests};
use nq_bank::{Bank, Sym, TermId};
use std::alloc::{AllocError, Global};

/// The function of the first of these calls.
fn first_function(bank: &Bank, calls: &[TermId]) -> Option<Sym> {
    match calls.first() {
        Some(t) => {
            if t.0 < bank.len() {
                function_of(bank, *t)
            } else {
                None
            }
        }
        None => None,
    }
}

/// Are two drafts those of calls of one function?
fn are_alike(bank: &Bank, one: &Draft, other: &Draft) -> bool {
    match (
        first_function(bank, one.calls.as_slice()),
        first_function(bank, other.calls.as_slice()),
    ) {
        (Some(f), Some(g)) => f.0 == g.0,
        _ => false,
    }
}

/// May two drafts go on together? Neither says anything of what the other changes.
fn may_pair(bank: &Bank, one: &Draft, other: &Draft) -> bool {
    !one.gone
        && !other.gone
        && are_alike(bank, one, other)
        && are_apart(one.changed.as_slice(), other.changed.as_slice())
        && are_apart(one.changed.as_slice(), other.still.as_slice())
        && are_apart(other.changed.as_slice(), one.still.as_slice())
}

/// Are the arguments of a term one of these and one of the others?
fn joins(bank: &Bank, t: TermId, calls: &[TermId], others: &[TermId]) -> bool
    requires { Stands bank.now t }
{
    match bank.args(t) {
        [a, b] => (has(calls, *a) && has(others, *b)) || (has(calls, *b) && has(others, *a)),
        _ => false,
    }
}

/// Is a term one of these?
fn has(terms: &[TermId], t: TermId) -> bool {
    terms.iter().any(|u| u.0 == t.0)
}

/// Does a literal compare one of these with one of the others, or deny that they are equal?
fn compares(bank: &Bank, literal: TermId, calls: &[TermId], others: &[TermId]) -> bool
    requires { Stands bank.now literal }
{
    match bank.args(literal) {
        [a] => a.0 < bank.len() && joins(bank, *a, calls, others),
        _ => joins(bank, literal, calls, others),
    }
}

/// Is there a literal that compares a call of one draft with a call of the other?
fn are_compared(bank: &Bank, goal: &[TermId], one: &Draft, other: &Draft) -> bool {
    for literal in goal {
        if literal.0 < bank.len()
            && compares(bank, *literal, one.calls.as_slice(), other.calls.as_slice())
        {
            return true;
        }
    }
    false
}

/// The steps of two cases, each with the one at its place.
fn paired_steps(
    alloc: Global,
    steps: &[Step],
    others: &[Step],
) -> Result<Option<Vec<Step>>, AllocError> {
    if steps.len() != others.len() {
        return Ok(None);
    }
    let mut paired = Vec::new(alloc);
    for i in 0..steps.len() {
        let both = joined_step(alloc, &steps[i], &others[i])?;
        paired.push(both)?;
    }
    Ok(Some(paired))
}

/// Two cases at once, if they have as many steps.
fn paired_case(
    alloc: Global,
    case: &DraftCase,
    other: &DraftCase,
) -> Result<Option<DraftCase>, AllocError> {
    match paired_steps(alloc, case.steps.as_slice(), other.steps.as_slice())? {
        Some(steps) => {
            let tests = joined_tests(alloc, case.tests.as_slice(), other.tests.as_slice())?;
            Ok(Some(DraftCase { tests, steps }))
        }
        None => Ok(None),
    }
}

/// Is a test among those of each of these cases?
fn have_test(cases: &[DraftCase], test: Test) -> bool {
    for case in cases {
        if !has_test(case.tests.as_slice(), test) {
            return false;
        }
    }
    true
}

/// Is this the one step of each of these cases?
fn have_step(cases: &[DraftCase], step: &Step) -> bool {
    for case in cases {
        match case.steps.as_slice() {
            [other] => {
                if !is_contained(other.changes.as_slice(), step.changes.as_slice())
                    || !is_contained(step.changes.as_slice(), other.changes.as_slice())
                {
                    return false;
                }
            }
            _ => return false,
        }
    }
    true
}

/// The case of this step, under those tests that all of these cases have.
fn common_case(
    alloc: Global,
    cases: &[DraftCase],
    first: &DraftCase,
    step: &Step,
) -> Result<DraftCase, AllocError> {
    let mut tests = Vec::new(alloc);
    for test in first.tests.as_slice() {
        if have_test(cases, *test) {
            tests.push(*test)?;
        }
    }
    let changes = Vec::from_slice(alloc, step.changes.as_slice())?;
    let mut steps = Vec::new(alloc);
    steps.push(Step { changes })?;
    Ok(DraftCase { tests, steps })
}

/// One case in the place of several that have the same step.
fn one_case(alloc: Global, cases: &[DraftCase]) -> Result<Option<DraftCase>, AllocError> {
    let Some(first) = cases.first() else {
        return Ok(None);
    };
    let Some(step) = first.steps.as_slice().first() else {
        return Ok(None);
    };
    if !have_step(cases, step) {
        return Ok(None);
    }
    let case = common_case(alloc, cases, first, step)?;
    Ok(Some(case))
}

/// Two cases at once, as the cases of a draft.
fn single_pair(
    alloc: Global,
    case: &DraftCase,
    other: &DraftCase,
) -> Result<Option<Vec<DraftCase>>, AllocError> {
    match paired_case(alloc, case, other)? {
        Some(both) => {
            let mut paired = Vec::new(alloc);
            paired.push(both)?;
            Ok(Some(paired))
        }
        None => Ok(None),
    }
}

/// The cases of two drafts at once: one of each, where their cases have the same step, or each with the one at its place.
fn cases_of_both(
    alloc: Global,
    cases: &[DraftCase],
    others: &[DraftCase],
) -> Result<Option<Vec<DraftCase>>, AllocError> {
    if let Some(case) = one_case(alloc, cases)? {
        if let Some(other) = one_case(alloc, others)? {
            return single_pair(alloc, &case, &other);
        }
    }
    paired_cases(alloc, cases, others)
}

/// The cases of two drafts, each with the one at its place, if they are as many.
fn paired_cases(
    alloc: Global,
    cases: &[DraftCase],
    others: &[DraftCase],
) -> Result<Option<Vec<DraftCase>>, AllocError> {
    if cases.len() != others.len() {
        return Ok(None);
    }
    let mut paired = Vec::new(alloc);
    for i in 0..cases.len() {
        match paired_case(alloc, &cases[i], &others[i])? {
            Some(both) => paired.push(both)?,
            None => return Ok(None),
        }
    }
    Ok(Some(paired))
}

/// The draft by which those at two places go on together, if there is one. Where no literal compares calls of the two, nothing speaks
/// for it.
fn paired(
    bank: &Bank,
    goal: &[TermId],
    drafts: &[Draft],
    i: usize,
    j: usize,
) -> Result<Option<Draft>, AllocError> {
    if i >= drafts.len() || j >= drafts.len() || !may_pair(bank, &drafts[i], &drafts[j]) {
        return Ok(None);
    }
    match cases_of_both(
        bank.alloc(),
        drafts[i].cases.as_slice(),
        drafts[j].cases.as_slice(),
    )? {
        Some(cases) => {
            let mut both = draft_of_both(bank.alloc(), &drafts[i], &drafts[j], cases)?;
            if !are_compared(bank, goal, &drafts[i], &drafts[j]) {
                both.score = 0;
            }
            Ok(Some(both))
        }
        None => Ok(None),
    }
}

/// Adds the drafts by which that at a place goes on together with one after it.
fn pair_at(
    bank: &Bank,
    goal: &[TermId],
    drafts: &mut Vec<Draft>,
    i: usize,
    whole: usize,
) -> Result<(), AllocError> {
    for j in 0..whole {
        if i < j {
            if let Some(both) = paired(bank, goal, drafts.as_slice(), i, j)? {
                drafts.push(both)?;
            }
        }
    }
    Ok(())
}

/// Adds the drafts by which two of the first so many go on together.
pub fn pair(
    bank: &Bank,
    goal: &[TermId],
    drafts: &mut Vec<Draft>,
    whole: usize,
) -> Result<(), AllocError> {
    for i in 0..whole {
        pair_at(bank, goal, drafts, i, whole)?;
    }
    Ok(())
}
