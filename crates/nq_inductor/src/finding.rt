//! Inductions that are found in a bank, which gets no name by it.
ghost use Rattle.std.specs.Prelude.{◌≡◌, ◌∷◌, [], All, IfOk, IfSome};
ghost use Rattle.nq_bank.specs.Content.{Grows, Stands, term_at, terms_at};
ghost use Rattle.nq_history.specs.Events.{HistoryStands, events_at};
ghost use Rattle.nq_kernel.specs.Over.{TermIsIn};
ghost use Rattle.nq_kernel.specs.Ready.{IsReady};
ghost use Rattle.nq_tracer.specs.Leads.{IsInductionBy};

use nq_bank::{Bank, TermId};
use nq_history::History;
use nq_tracer::{Nexts, induct_by};
use std::alloc::AllocError;

/// The goals of an induction on a goal that this call suggests. No name is made; where one was, all is given back.
pub fn found_by(
    bank: &mut Bank,
    history: &History,
    goal: &[TermId],
    call: TermId,
) -> Result<Option<Nexts>, AllocError>
    requires history { HistoryStands bank.old history.now }
    requires ready { IsReady (events_at bank.old history.now) }
    requires goal { All (Stands bank.old) goal.now }
    requires call { Stands bank.old call }
    requires over { TermIsIn bank.old history.now call }
    ensures leads { IfOk result (λ found. IfSome found (λ n. IsInductionBy (events_at bank.old history.now) (term_at bank.old call ∷ []) (terms_at bank.old goal.now) (term_at bank.new n.base) (term_at bank.new n.step))) }
    ensures names { bank.new.names ≡ bank.old.names }
    ensures grows { Grows bank.old bank.new }
{
    let mark = bank.mark();
    let found = induct_by(bank, history, goal, call);
    if bank.mark().names == mark.names {
        return found;
    }
    bank.release(mark);
    Ok(None)
}
