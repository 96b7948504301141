//! What is owed of the induction that a call suggests: that its measure is an ordinal, as a goal.
ghost use Rattle.std.specs.Prelude.{◌≡◌, IfOk, IfSome, Err};
ghost use Rattle.nq_kernel.specs.Growing.{WorkStands, WorkGrows};
ghost use Rattle.nq_lines.specs.Lines.{IsTermIn};

use crate::learnt::known_ordinal;
use crate::ordinals::ordinal_term;
use crate::own::is_own;
use crate::suggestion::suggestion_of;
use crate::terms::is_call_of;
use nq_bank::{Bank, TermId, ground};
use nq_history::History;
use nq_kernel::{Stop, Work};

/// The measure of the function of a call, where that is no size and no FIX.
fn other_measure(bank: &Bank, history: &History, call: TermId) -> Result<Option<TermId>, Stop>
    ensures memory { result ≡ Err Stop.OutOfSteps → ⊥ }
{
    if call.0 >= bank.len() {
        return Ok(None);
    }
    match suggestion_of(bank, history, call) {
        Ok(Some(recursion)) => {
            let fixed = recursion.measure.0 < bank.len()
                && is_call_of(bank, ground::FIX, recursion.measure);
            if recursion.is_sized || fixed {
                Ok(None)
            } else {
                Ok(Some(recursion.measure))
            }
        }
        Ok(None) => Ok(None),
        Err(_) => Err(Stop::Memory),
    }
}

/// That a measure is an ordinal, if no line of it is at hand.
fn unknown_ordinal(
    work: &mut Work,
    history: &History,
    measure: TermId,
) -> Result<Option<TermId>, Stop>
    requires stands { WorkStands history.now work.old }
    requires measure { IsTermIn history.now work.old measure }
    ensures goal { IfOk result (λ found. IfSome found (IsTermIn history.now work.new)) }
    ensures grows { WorkGrows history.now work.old work.new }
    ensures out { result ≡ Err Stop.OutOfSteps → work.new.counter.used ≡ work.new.counter.limit }
{
    match known_ordinal(work, history, measure)? {
        Some(_) => Ok(None),
        None => ordinal_owed(work, history, measure),
    }
}

/// Makes that a measure is an ordinal.
fn ordinal_owed(work: &mut Work, history: &History, measure: TermId) -> Result<Option<TermId>, Stop>
    requires stands { WorkStands history.now work.old }
    requires measure { IsTermIn history.now work.old measure }
    ensures goal { IfOk result (λ found. IfSome found (IsTermIn history.now work.new)) }
    ensures grows { WorkGrows history.now work.old work.new }
    ensures out { result ≡ Err Stop.OutOfSteps → work.new.counter.used ≡ work.new.counter.limit }
{
    let goal = ordinal_term(work, history, measure)?;
    Ok(Some(goal))
}

/// That a measure is an ordinal, if it is over the history and no line of it is at hand.
fn owed_measure(work: &mut Work, history: &History, measure: TermId) -> Result<Option<TermId>, Stop>
    requires stands { WorkStands history.now work.old }
    ensures goal { IfOk result (λ found. IfSome found (IsTermIn history.now work.new)) }
    ensures grows { WorkGrows history.now work.old work.new }
    ensures out { result ≡ Err Stop.OutOfSteps → work.new.counter.used ≡ work.new.counter.limit }
{
    if is_own(work, history, measure) {
        unknown_ordinal(work, history, measure)
    } else {
        Ok(None)
    }
}

/// The goal that the measure of the function of a call is an ordinal, where it is no size and no FIX and no line of it is at hand.
/// The call has the function's formals for its arguments.
pub fn owed_ordinal(
    work: &mut Work,
    history: &History,
    call: TermId,
) -> Result<Option<TermId>, Stop>
    requires stands { WorkStands history.now work.old }
    ensures goal { IfOk result (λ found. IfSome found (IsTermIn history.now work.new)) }
    ensures grows { WorkGrows history.now work.old work.new }
    ensures out { result ≡ Err Stop.OutOfSteps → work.new.counter.used ≡ work.new.counter.limit }
{
    let found = other_measure(&work.bank, history, call)?;
    match found {
        Some(measure) => owed_measure(work, history, measure),
        None => Ok(None),
    }
}
