//! The candidates of a goal.
ghost use Rattle.std.specs.Prelude.{◌≡◌, All, IfOk, Err};
ghost use Rattle.nq_bank.specs.Content.{Stands, term_at, terms_at};
ghost use Rattle.nq_history.specs.Events.{events_at, HistoryStands};
ghost use Rattle.nq_goals.specs.Generalizing.{can_generalize, chosen_from};
ghost use Rattle.nq_goals.specs.Replacing.{parts_in_all};
ghost use Rattle.nq_generalize.specs.Candidates.{IsAllOf};
ghost use Rattle.nq_stuck.specs.Calls.{HoldsAll};

use crate::general::is_general;
use crate::twice::stands_twice;
use nq_bank::{Bank, TermId};
use nq_history::History;
use nq_kernel::Stop;
use nq_moves::keep_unless;
use nq_stuck::calls_in;

/// The calls that stand in a goal. No memory holds more of them than the most that are asked for.
fn calls_of(bank: &Bank, goal: &[TermId]) -> Result<Vec<TermId>, Stop>
    requires { All (Stands bank.now) goal.now }
    ensures holds { IfOk result (λ found. HoldsAll bank.now found.items (terms_at bank.now goal.now)) }
    ensures stand { IfOk result (λ found. All (Stands bank.now) found.items) }
    ensures memory { result ≡ Err Stop.OutOfSteps → ⊥ }
{
    match calls_in(bank, goal, usize::MAX) {
        Ok(found) => Ok(found),
        Err(_) => Err(Stop::Memory),
    }
}

/// May a term of a goal be generalized?
fn can_generalize(bank: &Bank, history: &History, goal: &[TermId], t: TermId) -> Result<bool, Stop>
    requires history { HistoryStands bank.now history.now }
    requires goal { All (Stands bank.now) goal.now }
    requires term { Stands bank.now t }
    ensures answer { IfOk result (λ b. b ≡ can_generalize (events_at bank.now history.now) (terms_at bank.now goal.now) (term_at bank.now t)) }
    ensures memory { result ≡ Err Stop.OutOfSteps → ⊥ }
{
    if is_general(bank, history, t) {
        stands_twice(bank, t, goal)
    } else {
        Ok(false)
    }
}

/// Those of some terms of a goal that may be generalized.
fn chosen_from(
    bank: &Bank,
    history: &History,
    goal: &[TermId],
    terms: &[TermId],
) -> Result<Vec<TermId>, Stop>
    requires history { HistoryStands bank.now history.now }
    requires goal { All (Stands bank.now) goal.now }
    requires terms { All (Stands bank.now) terms.now }
    ensures chosen { IfOk result (λ v. terms_at bank.now v.items ≡ chosen_from (can_generalize (events_at bank.now history.now) (terms_at bank.now goal.now)) (terms_at bank.now terms.now)) }
    ensures stand { IfOk result (λ v. All (Stands bank.now) v.items) }
    ensures memory { result ≡ Err Stop.OutOfSteps → ⊥ }
{
    let mut kept = Vec::new(bank.alloc());
    for t in terms {
        let can = can_generalize(bank, history, goal, *t)?;
        keep_unless(&mut kept, !can, *t)?;
    }
    Ok(kept)
}

/// The candidates of a goal, where no hint forbids them.
pub fn candidates_of(bank: &Bank, history: &History, goal: &[TermId]) -> Result<Vec<TermId>, Stop>
    requires history { HistoryStands bank.now history.now }
    requires goal { All (Stands bank.now) goal.now }
    ensures all { IfOk result (λ v. IsAllOf (can_generalize (events_at bank.now history.now) (terms_at bank.now goal.now)) (parts_in_all (terms_at bank.now goal.now)) (terms_at bank.now v.items)) }
    ensures stand { IfOk result (λ v. All (Stands bank.now) v.items) }
    ensures memory { result ≡ Err Stop.OutOfSteps → ⊥ }
{
    let calls = calls_of(bank, goal)?;
    chosen_from(bank, history, goal, calls.as_slice())
}
