//! Terms over the functions of the history, with variables that a log can spell.
ghost use Rattle.std.specs.Prelude.{◌≡◌, ◌&&◌, true};
ghost use Rattle.nq_bank.specs.Content.{Stands};
ghost use Rattle.nq_history.specs.Events.{HistoryStands};
ghost use Rattle.nq_kernel.specs.Growing.{WorkStands};
ghost use Rattle.nq_kernel.specs.Over.{TermIsIn};
ghost use Rattle.nq_lines.specs.Lines.{IsTermIn};

use crate::spelling::is_variable;
use nq_bank::{Bank, Node, TermId};
use nq_history::History;
use nq_kernel::Work;

/// The size from which on terms are not walked.
const WALK_LIMIT: u64 = 20000;

/// Do both hold? Both are asked, so that a loop over arguments has one way on.
fn is_both(left: bool, right: bool) -> bool
    ensures { result ≡ (left && right) }
{
    left && right
}

/// Is a term over the functions of the history, with variables that a log can spell?
fn is_over(bank: &Bank, history: &History, t: TermId) -> bool
    requires history { HistoryStands bank.now history.now }
    requires term { Stands bank.now t }
    ensures { result ≡ true → TermIsIn bank.now history.now t }
{
    bank.is_sound();
    match bank.node(t) {
        Node::App(f, _) => match history.arity(f) {
            Some(n) => {
                let mut all = bank.args(t).len() as u64 == n;
                for a in bank.args(t) {
                    let here = is_over(bank, history, *a);
                    all = is_both(all, here);
                }
                all
            }
            None => false,
        },
        Node::Var(x) => is_variable(bank.text(x)),
        Node::Num(_) => true,
    }
}

/// Does a term stand, and is it small, over the functions of the history, and with variables that a log can spell? A term of 20,000
/// nodes and more, those that stand in several places counted each time, is not walked, and the answer is no.
pub fn is_own(work: &Work, history: &History, t: TermId) -> bool
    requires { WorkStands history.now work.now }
    ensures { result ≡ true → IsTermIn history.now work.now t }
{
    if t.0 >= work.bank.len() {
        return false;
    }
    if work.bank.size(t) >= WALK_LIMIT {
        return false;
    }
    is_over(&work.bank, history, t)
}
