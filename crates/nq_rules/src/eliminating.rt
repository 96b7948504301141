//! Conclusions that say what a variable is in terms of its destructors.
ghost use Rattle.std.specs.Prelude.{◌≡◌};
ghost use Rattle.nq_logic.specs.RuleShapes as shape;
ghost use Rattle.nq_logic.specs.RuleShapes.{is_elimination};
ghost use Rattle.nq_logic.specs.Words.{equal_term};
ghost use Rattle.nq_bank.specs.Content.{Stands, IsNamed, text_at, term_at};

use crate::destructors::{has_destructor_call, stands_apart};
use crate::heads::two_of;
use nq_bank::{Bank, Node, Sym, TermId, ground};

/// Does a term hold a destructor call of a variable, and the variable only in such calls?
fn is_elimination(bank: &Bank, t: TermId, x: Sym) -> bool
    requires term { Stands bank.now t }
    requires name { IsNamed bank.now x }
    ensures { result ≡ is_elimination (term_at bank.now t) (text_at bank.now x) }
{
    let held = has_destructor_call(bank, x, t);
    let apart = stands_apart(bank, x, t);
    held && !apart
}

/// Is the equation of these sides the conclusion of a rule of elimination?
fn eliminates(bank: &Bank, left: TermId, right: TermId) -> bool
    requires left { Stands bank.now left }
    requires right { Stands bank.now right }
    ensures { result ≡ shape.is_elim_conclusion (equal_term (term_at bank.now left) (term_at bank.now right)) }
{
    match bank.node(right) {
        Node::Var(x) => is_elimination(bank, left, x),
        Node::Num(_) => false,
        Node::App(_, _) => false,
    }
}

/// Is a term the equation of another and a variable that this holds a destructor call of, and only in such calls?
pub fn is_elim_conclusion(bank: &Bank, t: TermId) -> bool
    requires { Stands bank.now t }
    ensures { result ≡ shape.is_elim_conclusion (term_at bank.now t) }
{
    match two_of(bank, ground::EQUAL, t) {
        Some((left, right)) => eliminates(bank, left, right),
        None => false,
    }
}
