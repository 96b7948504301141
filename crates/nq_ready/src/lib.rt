//! What ready histories give to provers.
#![tactic(auto)]

ghost use Rattle.nq_ready.specs.OwnTerms.{ReadyOwnTerms};

use nq_kernel::ready_histories;

/// The axioms, lemmas and rows of the tables of axioms of a ready history are over its own functions, with variables that a log can
/// spell.
pub fn own_terms()
    ensures { ReadyOwnTerms }
{
    ready_histories();
}
