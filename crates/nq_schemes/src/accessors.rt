//! Nests of accessors.
ghost use Rattle.nq_bank.specs.Content.{Stands};

use nq_bank::{Bank, Node, Shell, Sym, TermId};
use nq_history::History;

/// Does a shell have this accessor?
fn has_accessor(shell: &Shell, f: Sym) -> bool {
    for part in shell.parts.as_slice() {
        if part.accessor.0 == f.0 {
            return true;
        }
    }
    false
}

/// Is a function an accessor of a shell?
fn is_accessor(history: &History, f: Sym) -> bool {
    for shell in history.shells() {
        if has_accessor(shell, f) {
            return true;
        }
    }
    false
}

/// The variable around which a term is a nest of accessors; a variable is one around itself.
pub fn nested_variable(bank: &Bank, history: &History, t: TermId) -> Option<TermId>
    requires { Stands bank.now t }
{
    match bank.node(t) {
        Node::Var(_) => Some(t),
        Node::Num(_) => None,
        Node::App(f, _) => {
            let arguments = bank.args(t);
            if arguments.len() == 1 && is_accessor(history, f) {
                nested_variable(bank, history, arguments[0])
            } else {
                None
            }
        }
    }
}
