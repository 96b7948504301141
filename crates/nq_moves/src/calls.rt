//! Calls of recursive functions on distinct variables.
ghost use Rattle.std.specs.Prelude.{◌≡◌, ◌≤◌, ◌&&◌, All, length, take, drop, []};
ghost use Rattle.nq_logic.specs.Terms.{Function, call};
ghost use Rattle.nq_logic.specs.RuleShapes.{has_distinct_variables};
ghost use Rattle.nq_bank.specs.Content.{Stands, term_at, terms_at};
ghost use Rattle.nq_history.specs.Events.{HistoryStands, events_at};
ghost use Rattle.nq_goals.specs.Recursion.{is_recursive_call};
ghost use Rattle.nq_moves.specs.Dropped.{names_of, is_other_variable};

use crate::clauses::contains;
use crate::recursion::is_recursive;
use nq_bank::{Bank, Node, TermId, ground, ground_name};
use nq_history::History;

/// Is the term a variable that is none of these?
fn is_other_variable(bank: &Bank, t: TermId, seen: &[TermId]) -> bool
    requires term { Stands bank.now t }
    requires seen { All (Stands bank.now) seen.now }
    ensures { result ≡ is_other_variable (term_at bank.now t) (terms_at bank.now seen.now) }
{
    match bank.node(t) {
        Node::Var(_) => !contains(bank, t, seen),
        Node::Num(_) => false,
        Node::App(_, _) => false,
    }
}

/// Are the first so many arguments distinct variables, and none of the later ones?
fn are_distinct(bank: &Bank, arguments: &[TermId], count: usize) -> bool
    requires arguments { All (Stands bank.now) arguments.now }
    requires count { count ≤ length arguments.now }
    ensures { result ≡ has_distinct_variables (names_of (terms_at bank.now (drop count arguments.now))) (call [] (terms_at bank.now (take count arguments.now))) }
{
    if count == 0 {
        return true;
    }
    let last = count - 1;
    is_other_variable(bank, arguments[last], &arguments[count..])
        && are_distinct(bank, arguments, last)
}

/// Is the term a call of a recursive function on distinct variables?
pub fn is_recursive_call(bank: &Bank, history: &History, t: TermId) -> bool
    requires history { HistoryStands bank.now history.now }
    requires term { Stands bank.now t }
    ensures { result ≡ is_recursive_call (events_at bank.now history.now) (term_at bank.now t) }
{
    match bank.node(t) {
        Node::Var(_) => false,
        Node::Num(n) => {
            if n == 0 {
                is_recursive(bank, history, ground_name(bank, ground::ZERO))
            } else {
                false
            }
        }
        Node::App(f, _) => {
            let arguments = bank.args(t);
            is_recursive(bank, history, f) && are_distinct(bank, arguments, arguments.len())
        }
    }
}
