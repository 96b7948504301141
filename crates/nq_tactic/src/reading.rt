//! What terms and literals are.
ghost use Rattle.std.specs.Prelude.{IfSome};
ghost use Rattle.nq_bank.specs.Content.{Stands};
ghost use Rattle.nq_kernel.specs.Growing.{WorkStands};
ghost use Rattle.nq_lines.specs.Lines.{IsTermIn};

use nq_bank::{Bank, Node, Sym, TermId, ground};
use nq_history::History;
use nq_kernel::Work;
use nq_reduce::argument_of;

/// Is a term a call of this function?
pub fn is_call_of(bank: &Bank, known: Sym, t: TermId) -> bool
    requires { Stands bank.now t }
{
    match bank.node(t) {
        Node::App(f, _) => f.0 == known.0,
        Node::Num(_) => false,
        Node::Var(_) => false,
    }
}

/// The term that a literal denies, if it denies one.
pub fn denied_term(work: &Work, history: &History, t: TermId) -> Option<TermId>
    requires stands { WorkStands history.now work.now }
    requires term { IsTermIn history.now work.now t }
    ensures { IfSome result (IsTermIn history.now work.now) }
{
    if is_call_of(&work.bank, ground::NOT, t) {
        first_argument(work, history, t)
    } else {
        None
    }
}

/// The first argument of a call, if there is one.
fn first_argument(work: &Work, history: &History, t: TermId) -> Option<TermId>
    requires stands { WorkStands history.now work.now }
    requires term { IsTermIn history.now work.now t }
    ensures { IfSome result (IsTermIn history.now work.now) }
{
    match argument_of(work, history, t, 1) {
        Some(a) => Some(a),
        None => None,
    }
}
