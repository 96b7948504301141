//! The cases of a body: calls that are made under the same tests.
ghost use Rattle.nq_bank.specs.Content.{Stands};
ghost use Rattle.nq_schemes.specs.Places.{PlaceStands};

use crate::calling::{add_calls, tests_with};
use crate::parted::{Branch, Call, Place, Test};
use crate::place::{is_condition, part_at};
use crate::suggestion::Recursion;
use crate::terms::mentions;
use crate::tested::{are_within, joined_tests};
use nq_bank::{Bank, TermId};
use nq_history::History;
use std::alloc::{AllocError, Global};

/// Adds a copy of the arguments of a call.
fn add_arguments(
    alloc: Global,
    calls: &mut Vec<Vec<TermId>>,
    call: &Call,
) -> Result<(), AllocError> {
    let copy = Vec::from_slice(alloc, call.arguments.as_slice())?;
    calls.push(copy)?;
    Ok(())
}

/// Do the same tests govern one of these calls?
fn has_same_tests(calls: &[Call], call: &Call) -> bool {
    let tests = call.tests.as_slice();
    for other in calls {
        if are_within(tests, other.tests.as_slice()) && are_within(other.tests.as_slice(), tests) {
            return true;
        }
    }
    false
}

/// The calls that are made wherever these tests hold.
fn calls_under(
    alloc: Global,
    calls: &[Call],
    tests: &[Test],
) -> Result<Vec<Vec<TermId>>, AllocError> {
    let mut made = Vec::new(alloc);
    for call in calls {
        if are_within(call.tests.as_slice(), tests) {
            add_arguments(alloc, &mut made, call)?;
        }
    }
    Ok(made)
}

/// Adds a case for each list of tests that governs one of these calls.
fn add_groups(
    alloc: Global,
    calls: &[Call],
    tests: &[Test],
    branches: &mut Vec<Branch>,
) -> Result<(), AllocError> {
    for i in 0..calls.len() {
        let call = &calls[i];
        if !has_same_tests(&calls[..i], call) {
            let made = calls_under(alloc, calls, call.tests.as_slice())?;
            let tests = joined_tests(alloc, tests, call.tests.as_slice())?;
            branches.push(Branch { tests, calls: made })?;
        }
    }
    Ok(())
}

/// Does a call belong to the case of the whole term: no test governs it, or its measured arguments are nests of accessors?
fn is_plain(call: &Call) -> bool {
    call.tests.is_empty() || call.by_parts
}

/// Adds a case of all plain calls.
fn add_plain(
    alloc: Global,
    calls: &[Call],
    tests: &[Test],
    branches: &mut Vec<Branch>,
) -> Result<(), AllocError> {
    let mut made = Vec::new(alloc);
    for call in calls {
        if is_plain(call) {
            add_arguments(alloc, &mut made, call)?;
        }
    }
    if !made.is_empty() {
        let tests = Vec::from_slice(alloc, tests)?;
        branches.push(Branch { tests, calls: made })?;
    }
    Ok(())
}

/// Adds a case for each other call.
fn add_others(
    alloc: Global,
    calls: &[Call],
    tests: &[Test],
    branches: &mut Vec<Branch>,
) -> Result<(), AllocError> {
    for call in calls {
        if !is_plain(call) {
            let mut made = Vec::new(alloc);
            add_arguments(alloc, &mut made, call)?;
            let tests = joined_tests(alloc, tests, call.tests.as_slice())?;
            branches.push(Branch { tests, calls: made })?;
        }
    }
    Ok(())
}

/// Adds the cases of a part that is no IF, or an IF whose condition makes calls.
fn add_last_branches(
    bank: &Bank,
    history: &History,
    recursion: &Recursion,
    place: Place,
    tests: &[Test],
    branches: &mut Vec<Branch>,
) -> Result<(), AllocError>
    requires { PlaceStands bank.now place }
{
    let alloc = bank.alloc();
    let mut calls = Vec::new(alloc);
    add_calls(bank, history, recursion, place, &[], &mut calls)?;
    if is_condition(bank, place) {
        add_plain(alloc, calls.as_slice(), tests, branches)?;
        add_others(alloc, calls.as_slice(), tests, branches)
    } else {
        add_groups(alloc, calls.as_slice(), tests, branches)
    }
}

/// Does the condition of an IF make calls?
fn condition_calls(bank: &Bank, recursion: &Recursion, place: Place) -> bool
    requires { PlaceStands bank.now place }
{
    match part_at(bank, place, 0) {
        Some(condition) => mentions(bank, recursion.function, condition.body),
        None => true,
    }
}

/// Adds the cases of a branch of an IF.
#[cycle(branching)]
fn add_branches_under(
    bank: &Bank,
    history: &History,
    recursion: &Recursion,
    place: Place,
    holds: bool,
    tests: &[Test],
    branches: &mut Vec<Branch>,
) -> Result<(), AllocError>
    requires { PlaceStands bank.now place }
{
    let Some(condition) = part_at(bank, place, 0) else {
        return Ok(());
    };
    let chosen = if holds { 1 } else { 2 };
    match part_at(bank, place, chosen) {
        Some(part) => {
            let more = tests_with(bank, recursion, tests, condition, holds)?;
            add_branches(bank, history, recursion, part, more.as_slice(), branches)
        }
        None => Ok(()),
    }
}

/// Adds the cases of a part of a body, with the tests that govern it.
#[cycle(branching)]
pub fn add_branches(
    bank: &Bank,
    history: &History,
    recursion: &Recursion,
    place: Place,
    tests: &[Test],
    branches: &mut Vec<Branch>,
) -> Result<(), AllocError>
    requires { PlaceStands bank.now place }
{
    if !mentions(bank, recursion.function, place.body) {
        return Ok(());
    }
    if !is_condition(bank, place) || condition_calls(bank, recursion, place) {
        return add_last_branches(bank, history, recursion, place, tests, branches);
    }
    add_branches_under(bank, history, recursion, place, true, tests, branches)?;
    add_branches_under(bank, history, recursion, place, false, tests, branches)
}
