//! The draft of a scheme that a call suggests.
ghost use Rattle.nq_bank.specs.Content.{Stands};

use crate::accessors::nested_variable;
use crate::branches::add_branches;
use crate::draft::{Draft, DraftCase, Step};
use crate::opened::Opened;
use crate::parted::{Branch, Place};
use crate::steps::{changed_in, is_changed, step_of};
use crate::suggestion::{Recursion, arguments_at, suggestion_of};
use crate::terms::{add_variables, has_id, has_variable, is_walked};
use nq_bank::{Bank, Node, TermId};
use nq_history::History;
use std::alloc::{AllocError, Global};

/// What all arguments of a call count together.
const WHOLE: u64 = 1000000;

/// The case of a draft that a case of the body gives.
fn case_of(
    bank: &Bank,
    recursion: &Recursion,
    arguments: &[TermId],
    branch: &Branch,
) -> Result<DraftCase, AllocError> {
    let mut steps = Vec::new(bank.alloc());
    for call in branch.calls.as_slice() {
        let step = step_of(
            bank,
            recursion.measured.as_slice(),
            arguments,
            call.as_slice(),
        )?;
        steps.push(step)?;
    }
    let tests = Vec::from_slice(bank.alloc(), branch.tests.as_slice())?;
    Ok(DraftCase { tests, steps })
}

/// The cases of a draft that the cases of the body give.
fn cases_of(
    bank: &Bank,
    recursion: &Recursion,
    arguments: &[TermId],
    branches: &[Branch],
) -> Result<Vec<DraftCase>, AllocError> {
    let mut cases = Vec::new(bank.alloc());
    for branch in branches {
        let case = case_of(bank, recursion, arguments, branch)?;
        cases.push(case)?;
    }
    Ok(cases)
}

/// Does a variable become a nest of accessors of itself, or a term without it?
fn is_part(bank: &Bank, history: &History, v: TermId, t: TermId) -> bool {
    if v.0 < bank.len() && t.0 < bank.len() {
        if let Some(u) = nested_variable(bank, history, t) {
            if u.0 == v.0 {
                return true;
            }
        }
        match bank.node(v) {
            Node::Var(x) => !has_variable(bank, x, t),
            Node::Num(_) => false,
            Node::App(_, _) => false,
        }
    } else {
        false
    }
}

/// Do the measured variables become nests of accessors of themselves at a step?
fn is_by_parts(bank: &Bank, history: &History, measured: &[TermId], step: &Step) -> bool {
    for c in step.changes.as_slice() {
        if has_id(measured, c.variable) && !is_part(bank, history, c.variable, c.term) {
            return false;
        }
    }
    true
}

/// Do they at all steps of a case?
fn is_case_by_parts(bank: &Bank, history: &History, measured: &[TermId], case: &DraftCase) -> bool {
    for step in case.steps.as_slice() {
        if !is_by_parts(bank, history, measured, step) {
            return false;
        }
    }
    true
}

/// Do they in all cases?
fn are_by_parts(bank: &Bank, history: &History, measured: &[TermId], cases: &[DraftCase]) -> bool {
    for case in cases {
        if !is_case_by_parts(bank, history, measured, case) {
            return false;
        }
    }
    true
}

/// How many arguments of a call the cases handle: those that are measured, and those that change.
fn handled(places: &[usize], arguments: &[TermId], cases: &[DraftCase]) -> u64 {
    let mut count: u64 = 0;
    for i in 0..arguments.len() {
        if places.contains(&i) || is_changed(cases, arguments[i]) {
            count = count.saturating_add(1);
        }
    }
    count
}

/// The share of a call's arguments that the cases handle.
fn score_of(places: &[usize], arguments: &[TermId], cases: &[DraftCase]) -> u64 {
    let count = handled(places, arguments, cases);
    if arguments.is_empty() {
        return 0;
    }
    count.saturating_mul(WHOLE) / (arguments.len() as u64)
}

/// The variables of a call's measured arguments that do not change. What stands in the others may change as it likes.
fn still_in(
    bank: &Bank,
    measured: &[TermId],
    changed: &[TermId],
) -> Result<Vec<TermId>, AllocError> {
    let mut variables = Vec::new(bank.alloc());
    for a in measured {
        if a.0 < bank.len() {
            add_variables(bank, &mut variables, *a)?;
        }
    }
    ids_without(bank.alloc(), variables.as_slice(), changed)
}

/// Those of some terms that are not among others.
pub fn ids_without(
    alloc: Global,
    ids: &[TermId],
    others: &[TermId],
) -> Result<Vec<TermId>, AllocError> {
    let mut left = Vec::new(alloc);
    for t in ids {
        if !has_id(others, *t) {
            left.push(*t)?;
        }
    }
    Ok(left)
}

/// The draft of these cases of a call.
fn draft_by(
    bank: &Bank,
    history: &History,
    recursion: &Recursion,
    call: TermId,
    cases: Vec<DraftCase>,
    order: u64,
) -> Result<Draft, AllocError>
    requires { Stands bank.now call }
{
    let arguments = bank.args(call);
    let places = recursion.measured.as_slice();
    let measured = arguments_at(bank, places, call)?;
    let changed = changed_in(bank.alloc(), cases.as_slice())?;
    let still = still_in(bank, measured.as_slice(), changed.as_slice())?;
    Ok(Draft {
        calls: vec![in bank.alloc(); call]?,
        score: score_of(places, arguments, cases.as_slice()),
        by_parts: are_by_parts(bank, history, measured.as_slice(), cases.as_slice()),
        cases,
        changed,
        still,
        order,
        gone: false,
    })
}

/// The cases of a call, by the body of its function.
fn cases_by_body(
    bank: &Bank,
    history: &History,
    recursion: &Recursion,
    opened: Opened,
) -> Result<Vec<DraftCase>, AllocError>
    requires call { Stands bank.now opened.call }
    requires body { Stands bank.now opened.body }
{
    let mut branches = Vec::new(bank.alloc());
    if recursion.body.0 < bank.len() {
        let place = Place {
            body: recursion.body,
            here: opened.body,
        };
        if is_walked(bank, recursion.body) {
            add_branches(bank, history, recursion, place, &[], &mut branches)?;
        }
    }
    cases_of(bank, recursion, bank.args(opened.call), branches.as_slice())
}

/// The draft that a call suggests, if there is one.
fn draft_of(
    bank: &Bank,
    history: &History,
    opened: Opened,
    order: u64,
) -> Result<Option<Draft>, AllocError>
    requires call { Stands bank.now opened.call }
    requires body { Stands bank.now opened.body }
{
    let Some(recursion) = suggestion_of(bank, history, opened.call)? else {
        return Ok(None);
    };
    let cases = cases_by_body(bank, history, &recursion, opened)?;
    if cases.is_empty() {
        return Ok(None);
    }
    let draft = draft_by(bank, history, &recursion, opened.call, cases, order)?;
    Ok(Some(draft))
}

/// The drafts that calls suggest.
pub fn drafts_of(
    bank: &Bank,
    history: &History,
    opened: &[Opened],
) -> Result<Vec<Draft>, AllocError> {
    let mut drafts = Vec::new(bank.alloc());
    for i in 0..opened.len() {
        let o = opened[i];
        if o.call.0 < bank.len() && o.body.0 < bank.len() {
            if let Some(draft) = draft_of(bank, history, o, i as u64)? {
                drafts.push(draft)?;
            }
        }
    }
    Ok(drafts)
}
