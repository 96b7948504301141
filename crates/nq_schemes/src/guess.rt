//! What the plain scheme of a call is: the tests of the first recursive call in the body of its function, what the variables become
//! there, and what falls. Nothing is promised of it.
ghost use Rattle.std.specs.Prelude.{◌≡◌, Err};
ghost use Rattle.nq_bank.specs.Content.{Stands};

use crate::calling::add_calls;
use crate::draft::Change;
use crate::falling::{Falling, falling_by};
use crate::opened::Opened;
use crate::parted::{Call, Place, Test};
use crate::steps::step_of;
use crate::suggestion::{Recursion, recursion_of};
use crate::terms::{function_of, is_walked};
use nq_bank::{Bank, TermId};
use nq_history::History;
use nq_kernel::{Stop, Work};
use std::alloc::AllocError;

/// What the plain scheme of a call is.
#[derive(Drop)]
pub struct Guess {
    /// The tests of its case.
    pub tests: Vec<Test>,
    /// What the variables become.
    pub changes: Vec<Change>,
    /// What falls.
    pub falling: Falling,
}

/// The guess where no recursive call is found.
fn bare_guess(bank: &Bank, falling: Falling) -> Guess {
    Guess {
        tests: Vec::new(bank.alloc()),
        changes: Vec::new(bank.alloc()),
        falling,
    }
}

/// The recursive calls in the body of a function, at the arguments of a call.
fn calls_at(
    bank: &Bank,
    history: &History,
    recursion: &Recursion,
    opened: Opened,
) -> Result<Vec<Call>, AllocError>
    requires body { Stands bank.now opened.body }
{
    let mut calls = Vec::new(bank.alloc());
    if recursion.body.0 < bank.len() && opened.body.0 != opened.call.0 {
        let place = Place {
            body: recursion.body,
            here: opened.body,
        };
        if is_walked(bank, recursion.body) {
            add_calls(bank, history, recursion, place, &[], &mut calls)?;
        }
    }
    Ok(calls)
}

/// The guess by a recursive call.
fn guess_by(
    bank: &Bank,
    recursion: &Recursion,
    arguments: &[TermId],
    call: &Call,
    falling: Falling,
) -> Result<Guess, AllocError> {
    let places = recursion.measured.as_slice();
    let step = step_of(bank, places, arguments, call.arguments.as_slice())?;
    let tests = Vec::from_slice(bank.alloc(), call.tests.as_slice())?;
    Ok(Guess {
        tests,
        changes: step.changes,
        falling,
    })
}

/// The guess by the first recursive call in the body of a function.
fn guess_with(
    bank: &Bank,
    history: &History,
    recursion: &Recursion,
    opened: Opened,
) -> Result<Guess, AllocError>
    requires call { Stands bank.now opened.call }
    requires body { Stands bank.now opened.body }
{
    let falling = falling_by(bank, recursion, opened.call)?;
    let calls = calls_at(bank, history, recursion, opened)?;
    match calls.first() {
        Some(call) => guess_by(bank, recursion, bank.args(opened.call), call, falling),
        None => Ok(bare_guess(bank, falling)),
    }
}

/// The recursive function of a call.
fn recursion_at(
    bank: &Bank,
    history: &History,
    call: TermId,
) -> Result<Option<Recursion>, AllocError>
    requires { Stands bank.now call }
{
    match function_of(bank, call) {
        Some(f) => recursion_of(bank, history, f),
        None => Ok(None),
    }
}

/// The guess for a call and its body.
fn guess_of(bank: &Bank, history: &History, opened: Opened) -> Result<Guess, AllocError>
    requires call { Stands bank.now opened.call }
    requires body { Stands bank.now opened.body }
{
    match recursion_at(bank, history, opened.call)? {
        Some(recursion) => guess_with(bank, history, &recursion, opened),
        None => {
            let falling = Falling {
                measure: opened.call,
                changes: Vec::new(bank.alloc()),
                sized: None,
            };
            Ok(bare_guess(bank, falling))
        }
    }
}

/// The guess for the first of some calls and their bodies, or else for a call alone.
pub fn guess_at(
    work: &Work,
    history: &History,
    opened: &[Opened],
    call: TermId,
) -> Result<Guess, Stop>
    requires call { Stands work.now.bank call }
    ensures memory { result ≡ Err Stop.OutOfSteps → ⊥ }
{
    let mut first = Opened { call, body: call };
    if let Some(o) = opened.first() {
        if o.call.0 < work.bank.len() && o.body.0 < work.bank.len() {
            first = *o;
        }
    }
    match guess_of(&work.bank, history, first) {
        Ok(guess) => Ok(guess),
        Err(_) => Err(Stop::Memory),
    }
}
