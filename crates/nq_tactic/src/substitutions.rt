//! Whether SUBST leads a goal on. It decides only what is tried.
ghost use Rattle.std.specs.Prelude.{◌≡◌, Err};
ghost use Rattle.nq_bank.specs.Content.{Stands};
ghost use Rattle.nq_kernel.specs.Growing.{WorkStands};
ghost use Rattle.nq_search.specs.Goals.{IsGoalIn};

use nq_bank::{Bank, Node, TermId};
use nq_clause::occurs_in;
use nq_history::History;
use nq_kernel::{Stop, Work};
use nq_moves::reading_of;

/// Is this a variable that doesn't stand in a term?
fn is_free_variable(bank: &Bank, t: TermId, term: TermId) -> Result<bool, Stop>
    requires variable { Stands bank.now t }
    requires term { Stands bank.now term }
    ensures { result ≡ Err Stop.OutOfSteps → ⊥ }
{
    match bank.node(t) {
        Node::Var(name) => match occurs_in(bank, name, term) {
            Ok(occurs) => Ok(!occurs),
            Err(_) => Err(Stop::Memory),
        },
        Node::Num(_) => Ok(false),
        Node::App(_, _) => Ok(false),
    }
}

/// Does the equation that a literal denies give a variable a term, in this order?
fn is_reading_of_variable(
    work: &Work,
    history: &History,
    goal: &[TermId],
    place: usize,
    turned: bool,
) -> Result<bool, Stop>
    requires stands { WorkStands history.now work.now }
    requires goal { IsGoalIn history.now work.now goal.now }
    ensures { result ≡ Err Stop.OutOfSteps → ⊥ }
{
    match reading_of(work, history, goal, place, turned) {
        Some(reading) => is_free_variable(&work.bank, reading.from, reading.into),
        None => Ok(false),
    }
}

/// Does SUBST lead the goal on?
pub fn is_substituted(work: &Work, history: &History, goal: &[TermId]) -> Result<bool, Stop>
    requires stands { WorkStands history.now work.now }
    requires goal { IsGoalIn history.now work.now goal.now }
    ensures { result ≡ Err Stop.OutOfSteps → ⊥ }
{
    for place in 0..goal.len() {
        if is_reading_of_variable(work, history, goal, place, false)? {
            return Ok(true);
        }
        if is_reading_of_variable(work, history, goal, place, true)? {
            return Ok(true);
        }
    }
    Ok(false)
}
