//! The recursive calls in a body.
ghost use Rattle.nq_bank.specs.Content.{Stands};
ghost use Rattle.nq_schemes.specs.Places.{PlaceStands};

use crate::accessors::nested_variable;
use crate::parted::{Call, Place, Test};
use crate::place::{is_condition, part_at};
use crate::suggestion::{Recursion, arguments_at};
use crate::terms::{is_call_of, mentions};
use crate::tested::saying_of;
use nq_bank::{Bank, TermId};
use nq_history::History;
use std::alloc::AllocError;

/// Are all these terms nests of accessors?
fn are_nests(bank: &Bank, history: &History, terms: &[TermId]) -> bool {
    for t in terms {
        if t.0 < bank.len() {
            if nested_variable(bank, history, *t).is_none() {
                return false;
            }
        }
    }
    true
}

/// Adds a call.
fn add_call(
    bank: &Bank,
    history: &History,
    recursion: &Recursion,
    place: Place,
    tests: &[Test],
    calls: &mut Vec<Call>,
) -> Result<(), AllocError>
    requires { PlaceStands bank.now place }
{
    let measured = arguments_at(bank, recursion.measured.as_slice(), place.body)?;
    let by_parts = are_nests(bank, history, measured.as_slice());
    let tests = Vec::from_slice(bank.alloc(), tests)?;
    let arguments = Vec::from_slice(bank.alloc(), bank.args(place.here))?;
    calls.push(Call {
        tests,
        arguments,
        by_parts,
    })?;
    Ok(())
}

/// These tests, and that a part of the body holds or fails, unless it makes calls itself.
pub fn tests_with(
    bank: &Bank,
    recursion: &Recursion,
    tests: &[Test],
    place: Place,
    holds: bool,
) -> Result<Vec<Test>, AllocError>
    requires { PlaceStands bank.now place }
{
    let mut more = Vec::from_slice(bank.alloc(), tests)?;
    if !mentions(bank, recursion.function, place.body) {
        more.push(Test {
            term: place.here,
            holds,
            saying: saying_of(bank, place.here, holds),
        })?;
    }
    Ok(more)
}

/// Adds the calls of a condition.
#[cycle(calling)]
fn add_condition_calls(
    bank: &Bank,
    history: &History,
    recursion: &Recursion,
    place: Place,
    tests: &[Test],
    calls: &mut Vec<Call>,
) -> Result<(), AllocError>
    requires { PlaceStands bank.now place }
{
    let Some(condition) = part_at(bank, place, 0) else {
        return Ok(());
    };
    add_calls(bank, history, recursion, condition, tests, calls)?;
    if let Some(first) = part_at(bank, place, 1) {
        let held = tests_with(bank, recursion, tests, condition, true)?;
        add_calls(bank, history, recursion, first, held.as_slice(), calls)?;
    }
    if let Some(second) = part_at(bank, place, 2) {
        let failed = tests_with(bank, recursion, tests, condition, false)?;
        add_calls(bank, history, recursion, second, failed.as_slice(), calls)?;
    }
    Ok(())
}

/// Adds the calls in a part of the body, each with the tests that govern it.
#[cycle(calling)]
pub fn add_calls(
    bank: &Bank,
    history: &History,
    recursion: &Recursion,
    place: Place,
    tests: &[Test],
    calls: &mut Vec<Call>,
) -> Result<(), AllocError>
    requires { PlaceStands bank.now place }
{
    if is_condition(bank, place) {
        return add_condition_calls(bank, history, recursion, place, tests, calls);
    }
    if is_call_of(bank, recursion.function, place.body) {
        add_call(bank, history, recursion, place, tests, calls)?;
    }
    for i in 0..bank.args(place.body).len() {
        if let Some(part) = part_at(bank, place, i) {
            add_calls(bank, history, recursion, part, tests, calls)?;
        }
    }
    Ok(())
}
