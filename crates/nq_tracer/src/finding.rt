//! A call in a term that may suggest an induction.
ghost use Rattle.std.specs.Prelude.{All, IfOk, IfSome};
ghost use Rattle.nq_bank.specs.Content.{Stands};
ghost use Rattle.nq_history.specs.Events.{HistoryStands};
ghost use Rattle.nq_tracer.specs.Leads.{IsPartAt, IsPartIn};

use nq_bank::{Bank, TermId};
use nq_event::{are_distinct_variables, definition_called, measured};
use nq_history::History;
use std::alloc::AllocError;

/// May the call suggest an induction? What is found is tested again.
fn may_suggest(bank: &Bank, history: &History, t: TermId) -> Result<bool, AllocError>
    requires history { HistoryStands bank.now history.now }
    requires term { Stands bank.now t }
{
    let Some(definition) = definition_called(bank, history, t) else {
        return Ok(false);
    };
    let Some(measure) = definition.measure else {
        return Ok(false);
    };
    let arguments = bank.args(t);
    let variables = measured(bank, definition.formals, arguments, measure)?;
    Ok(are_distinct_variables(bank, variables.as_slice()))
}

/// A call within a term, perhaps itself, that may suggest an induction; of several the innermost and leftmost.
pub fn found_in(bank: &Bank, history: &History, t: TermId) -> Result<Option<TermId>, AllocError>
    requires history { HistoryStands bank.now history.now }
    requires term { Stands bank.now t }
    ensures { IfOk result (λ found. IfSome found (IsPartAt bank.now t)) }
{
    let arguments = bank.args(t);
    for i in 0..arguments.len() {
        let found = found_in(bank, history, arguments[i])?;
        if let Some(u) = found {
            return Ok(Some(u));
        }
    }
    if may_suggest(bank, history, t)? {
        Ok(Some(t))
    } else {
        Ok(None)
    }
}

/// The same within the literals of a goal.
pub fn found_among(
    bank: &Bank,
    history: &History,
    goal: &[TermId],
) -> Result<Option<TermId>, AllocError>
    requires history { HistoryStands bank.now history.now }
    requires goal { All (Stands bank.now) goal.now }
    ensures { IfOk result (λ found. IfSome found (IsPartIn bank.now goal.now)) }
{
    for i in 0..goal.len() {
        let found = found_in(bank, history, goal[i])?;
        if let Some(u) = found {
            return Ok(Some(u));
        }
    }
    Ok(None)
}
