//! Whether the term of a hint suggests an induction.
ghost use Rattle.std.specs.Prelude.{◌≡◌, None, IfOk, true};
ghost use Rattle.nq_logic.specs.Numerals.{number_of};
ghost use Rattle.nq_bank.specs.Content.{Stands, term_at};
ghost use Rattle.nq_history.specs.Events.{HistoryStands, events_at};
ghost use Rattle.nq_events.specs.Inductions.{suggests_induction};

use nq_bank::{Bank, Node, TermId};
use nq_event::{are_distinct_variables, definition_called, measured};
use nq_history::History;
use std::alloc::AllocError;

/// Is the term a call, and no numeral?
fn is_call(bank: &Bank, t: TermId) -> bool
    requires { Stands bank.now t }
    ensures { result ≡ true → number_of (term_at bank.now t) ≡ None }
{
    match bank.node(t) {
        Node::Var(_) => false,
        Node::Num(_) => false,
        Node::App(_, _) => true,
    }
}

/// Is the term a call that suggests an induction? A numeral is told not to be one.
pub fn suggests(bank: &Bank, history: &History, t: TermId) -> Result<bool, AllocError>
    requires history { HistoryStands bank.now history.now }
    requires term { Stands bank.now t }
    ensures { IfOk result (λ b. b ≡ true → suggests_induction (events_at bank.now history.now) (term_at bank.now t) ≡ true) }
{
    if !is_call(bank, t) {
        return Ok(false);
    }
    let Some(definition) = definition_called(bank, history, t) else {
        return Ok(false);
    };
    let Some(measure) = definition.measure else {
        return Ok(false);
    };
    let arguments = bank.args(t);
    let variables = measured(bank, definition.formals, arguments, measure)?;
    Ok(are_distinct_variables(bank, variables.as_slice()))
}
