//! The calls whose function lets them be generalized.
ghost use Rattle.std.specs.Prelude.{◌≡◌};
ghost use Rattle.nq_bank.specs.Content.{Stands, term_at};
ghost use Rattle.nq_history.specs.Events.{events_at, HistoryStands};
ghost use Rattle.nq_stuck.specs.Common.{is_general};

use crate::answers::is_neither;
use nq_bank::{Bank, Node, TermId};
use nq_history::History;
use nq_stuck::is_kept;

/// Is the term a call and no value, of a function whose calls are generalized?
pub fn is_general(bank: &Bank, history: &History, t: TermId) -> bool
    requires history { HistoryStands bank.now history.now }
    requires term { Stands bank.now t }
    ensures { result ≡ is_general (events_at bank.now history.now) (term_at bank.now t) }
{
    match bank.node(t) {
        Node::Var(_) => false,
        Node::Num(_) => false,
        Node::App(f, _) => {
            let value = bank.is_value(t);
            let kept = is_kept(bank, history, f);
            is_neither(value, kept)
        }
    }
}
