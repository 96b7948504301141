//! Which calls are opened for what is asked of them. It decides only what is tried.
ghost use Rattle.std.specs.Prelude.{◌≡◌, Err};
ghost use Rattle.nq_bank.specs.Content.{Stands};

use crate::search::{QUESTION, Search, mixed};
use crate::telling::is_called;
use crate::terms::{function_of, is_walked};
use crate::way::{Way, fail, has_failed, is_open_to, recursive_function};
use nq_bank::{Bank, Sym, TermId};
use nq_history::History;
use nq_kernel::Stop;

/// The mark of what a term asks of calls of a function.
fn mark_of_question(bank: &Bank, f: Sym, t: TermId) -> u64
    requires { Stands bank.now t }
{
    match function_of(bank, t) {
        Some(asking) => mixed(mixed(QUESTION, asking.0), f.0),
        None => QUESTION,
    }
}

/// Learns that the body of a function doesn't answer what a term asks of its calls.
pub fn leave_question(bank: &Bank, search: &mut Search, f: Sym, t: TermId) -> Result<(), Stop>
    requires { Stands bank.now t }
    ensures out { result ≡ Err Stop.OutOfSteps → ⊥ }
{
    search.settle(mark_of_question(bank, f, t))
}

/// The function of a call that is opened for what a term asks of it, if it is opened.
pub fn function_opened(
    bank: &Bank,
    history: &History,
    way: &Way<'_>,
    search: &mut Search,
    assumed: &[TermId],
    t: TermId,
    a: TermId,
) -> Option<Sym>
    requires whole { Stands bank.now t }
    requires call { Stands bank.now a }
{
    let f = recursive_function(bank, history, a)?;
    if search.is_settled(mark_of_question(bank, f, t)) {
        return None;
    }
    if is_open_to(way, search, f, a) && !has_failed(bank, way, search, assumed, t) {
        Some(f)
    } else {
        None
    }
}

/// Goes on after the opening of a call of a recursive function for what is asked of it, and tells whether what came of it is kept:
/// nothing gave it up, and it calls the function no more. That it is not kept is remembered.
pub fn drops_call(
    bank: &Bank,
    way: &Way<'_>,
    search: &mut Search,
    assumed: &[TermId],
    f: Sym,
    t: TermId,
    new: TermId,
) -> Result<bool, Stop>
    requires old { Stands bank.now t }
    requires new { Stands bank.now new }
    ensures out { result ≡ Err Stop.OutOfSteps → ⊥ }
{
    let gone = search.given_up;
    search.go_on();
    if !gone && is_walked(bank, new) && !is_called(bank, f, new) {
        return Ok(true);
    }
    fail(bank, way, search, assumed, t)?;
    Ok(false)
}
