//! Calls that bar a goal from being normal, wherever they stand open in it.
ghost use Rattle.std.specs.Prelude.{◌≡◌, ◌||◌, ◌&&◌, ◌∷◌, [], All, false};
ghost use Rattle.nq_logic.specs.Values.{is_value};
ghost use Rattle.std.specs.Prelude.{codes};
ghost use Rattle.nq_logic.specs.Terms.{call};
ghost use Rattle.nq_logic.specs.Names.{has_name};
ghost use Rattle.nq_logic.specs.ShellPrinciple.{shells_of};
ghost use Rattle.nq_bank.specs.Content.{Stands, IsNamed, text_at, term_at, terms_at};
ghost use Rattle.nq_history.specs.Events.{events_at, HistoryStands};
ghost use Rattle.nq_goals.specs.Functions.{bases, constructors, propositional, is_built, is_shell_test};
ghost use Rattle.nq_goals.specs.Normal.{is_decided_test};
ghost use Rattle.nq_history.specs.Hints.{HintsStand};
ghost use Rattle.nq_normal.specs.Definitions.{hints_at};
ghost use Rattle.nq_normal.specs.Barred.{is_barred};

use crate::openings::is_opened;
use crate::shells;
use nq_bank::{Bank, Node, Sym, TermId, ground};
use nq_history::{Hints, History};

/// Is one of them true? It is a function of its own so that its contract says so.
pub fn is_either(left: bool, right: bool) -> bool
    ensures { result ≡ (left || right) }
{
    left || right
}

/// Are both true? It is a function of its own so that its contract says so.
pub fn is_both(left: bool, right: bool) -> bool
    ensures { result ≡ (left && right) }
{
    left && right
}

/// Is this one of IF, NOT, AND, OR, IMPLIES and IFF?
fn is_propositional(bank: &Bank, f: Sym) -> bool
    requires { IsNamed bank.now f }
    ensures { result ≡ has_name (text_at bank.now f) propositional }
{
    bank.is_ground(f, ground::IF)
        || bank.is_ground(f, ground::NOT)
        || bank.is_ground(f, ground::AND)
        || bank.is_ground(f, ground::OR)
        || bank.is_ground(f, ground::IMPLIES)
        || bank.is_ground(f, ground::IFF)
}

/// Is this TRUE or FALSE?
fn is_constant(bank: &Bank, f: Sym) -> bool
    requires { IsNamed bank.now f }
    ensures { result ≡ has_name (text_at bank.now f) (codes "TRUE" ∷ codes "FALSE" ∷ []) }
{
    bank.is_ground(f, ground::TRUE) || bank.is_ground(f, ground::FALSE)
}

/// Is this a constructor, a base, TRUE or FALSE?
fn builds(bank: &Bank, history: &History, f: Sym) -> bool
    requires history { HistoryStands bank.now history.now }
    requires name { IsNamed bank.now f }
    ensures { result ≡ (has_name (text_at bank.now f) (constructors (shells_of (events_at bank.now history.now))) || has_name (text_at bank.now f) (bases (shells_of (events_at bank.now history.now))) || has_name (text_at bank.now f) (codes "TRUE" ∷ codes "FALSE" ∷ [])) }
{
    let shells = history.shells();
    let constructor = shells::is_constructor(bank, shells, f);
    let base = shells::is_base(bank, shells, f);
    let constant = is_constant(bank, f);
    constructor || base || constant
}

/// Is the term a constructor's call, a base, T or F?
fn is_built(bank: &Bank, history: &History, t: TermId) -> bool
    requires history { HistoryStands bank.now history.now }
    requires term { Stands bank.now t }
    ensures { result ≡ is_built (events_at bank.now history.now) (term_at bank.now t) }
{
    match bank.node(t) {
        Node::Var(_) => false,
        Node::Num(_) => true,
        Node::App(f, _) => builds(bank, history, f),
    }
}

/// Is this an accessor or a recognizer?
fn is_shell_test(bank: &Bank, history: &History, f: Sym) -> bool
    requires history { HistoryStands bank.now history.now }
    requires name { IsNamed bank.now f }
    ensures { result ≡ is_shell_test (events_at bank.now history.now) (text_at bank.now f) }
{
    let shells = history.shells();
    let accessor = shells::is_accessor(bank, shells, f);
    let recognizer = shells::is_recognizer(bank, shells, f);
    accessor || recognizer
}

/// Is this call one of an accessor or recognizer on what a constructor made, on T or on F?
fn is_decided(bank: &Bank, history: &History, f: Sym, arguments: &[TermId]) -> bool
    requires history { HistoryStands bank.now history.now }
    requires name { IsNamed bank.now f }
    requires arguments { All (Stands bank.now) arguments.now }
    ensures { result ≡ is_decided_test (events_at bank.now history.now) (call (text_at bank.now f) (terms_at bank.now arguments.now)) }
{
    match arguments {
        [] => false,
        [u] => {
            let test = is_shell_test(bank, history, f);
            let built = is_built(bank, history, *u);
            test && built
        }
        [_, _, ..] => false,
    }
}

/// Does this call bar a goal from being normal?
fn is_barred_call(
    bank: &Bank,
    history: &History,
    hints: &Hints,
    f: Sym,
    arguments: &[TermId],
) -> bool
    requires history { HistoryStands bank.now history.now }
    requires hints { HintsStand bank.now hints.now }
    requires name { IsNamed bank.now f }
    requires arguments { All (Stands bank.now) arguments.now }
    ensures { result ≡ is_barred (events_at bank.now history.now) (hints_at bank.now hints.now) (call (text_at bank.now f) (terms_at bank.now arguments.now)) }
{
    let connective = is_propositional(bank, f);
    let opened = is_opened(bank, history, hints, f);
    let decided = is_decided(bank, history, f, arguments);
    is_either(is_either(connective, opened), decided)
}

/// Does this term, which is no value, bar a goal from being normal?
pub fn is_barred(bank: &Bank, history: &History, hints: &Hints, t: TermId) -> bool
    requires history { HistoryStands bank.now history.now }
    requires hints { HintsStand bank.now hints.now }
    requires stands { Stands bank.now t }
    requires value { is_value (term_at bank.now t) ≡ false }
    ensures { result ≡ is_barred (events_at bank.now history.now) (hints_at bank.now hints.now) (term_at bank.now t) }
{
    match bank.node(t) {
        Node::Var(_) => false,
        Node::Num(_) => false,
        Node::App(f, _) => is_barred_call(bank, history, hints, f, bank.args(t)),
    }
}
