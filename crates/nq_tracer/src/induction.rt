//! An induction from a goal, where only an induction leads on.
ghost use Rattle.std.specs.Prelude.{◌≡◌, ◌∷◌, [], All, IfOk, IfSome, true};
ghost use Rattle.nq_logic.specs.Terms.{IsTerm};
ghost use Rattle.nq_logic.specs.Ground.{symbols_of};
ghost use Rattle.nq_bank.specs.Content.{Content, Grows, IsIdOf, Stands, term_at, terms_at};
ghost use Rattle.nq_history.specs.Events.{HistoryStands, events_at};
ghost use Rattle.nq_history.specs.Hints.{HintsStand};
ghost use Rattle.nq_kernel.specs.Over.{TermIsIn};
ghost use Rattle.nq_kernel.specs.Ready.{IsReady};
ghost use Rattle.nq_event.specs.EventsAt.{hints_at};
ghost use Rattle.nq_goals.specs.Inducting.{claim_of};
ghost use Rattle.nq_goals.specs.Moves.{IsMove};
ghost use Rattle.nq_goals.specs.declared.kinds.MoveKind.TheVariants.{Ind};
ghost use Rattle.nq_tracer.specs.Leads.{IsDue, IsFree, IsInduction, IsInductionBy, IsInductionOf, NextsStand};

use crate::claims::claim_of;
use crate::finding::found_among;
use crate::leading::lead_by;
use crate::nexts::Nexts;
use nq_bank::{Bank, BankFault, TermId};
use nq_history::{Hints, History};
use nq_stuck::is_left_to_induction;
use std::alloc::AllocError;

/// The size from which on a goal is not looked through.
const SIZE_LIMIT: u64 = 20000;

/// Do the hints leave it open whether there is an induction, and by which call?
fn is_free(hints: &Hints) -> bool
    ensures { (bank : Content) → result ≡ true → IsFree (hints_at bank hints.now) }
{
    !hints.no_induct && hints.induct.is_none()
}

/// Does only an induction lead on from a goal, and do the hints leave it open by which call?
fn is_due(
    bank: &Bank,
    history: &History,
    hints: &Hints,
    goal: &[TermId],
) -> Result<bool, AllocError>
    requires history { HistoryStands bank.now history.now }
    requires hints { HintsStand bank.now hints.now }
    requires goal { All (Stands bank.now) goal.now }
    ensures { IfOk result (λ b. b ≡ true → IsDue (events_at bank.now history.now) (hints_at bank.now hints.now) (terms_at bank.now goal.now)) }
{
    if !is_free(hints) {
        return Ok(false);
    }
    is_left_to_induction(bank, history, hints, goal)
}

/// The goals of an induction on the claim of a goal that a call suggests.
fn induct_claim_by(
    bank: &mut Bank,
    history: &History,
    goal: &[TermId],
    p: TermId,
    t: TermId,
) -> Result<Option<Nexts>, AllocError>
    requires history { HistoryStands bank.old history.now }
    requires ready { IsReady (events_at bank.old history.now) }
    requires claim { IsIdOf bank.old p (claim_of (terms_at bank.old goal.now)) }
    requires call { Stands bank.old t }
    requires over { IsTerm (symbols_of (events_at bank.old history.now)) (term_at bank.old t) }
    ensures leads { IfOk result (λ found. IfSome found (λ n. IsInductionOf (events_at bank.old history.now) (term_at bank.old t) (terms_at bank.old goal.now) (term_at bank.new n.base) (term_at bank.new n.step))) }
    ensures stand { IfOk result (λ found. IfSome found (NextsStand bank.new)) }
    ensures grows { Grows bank.old bank.new }
{
    match lead_by(bank, history, goal, p, t) {
        Ok(nexts) => Ok(nexts),
        Err(BankFault::Deep) => Ok(None),
        Err(_) => Err(AllocError),
    }
}

/// The goals of an induction on the claim of a goal that a call in the goal suggests.
fn induct_claim(
    bank: &mut Bank,
    history: &History,
    goal: &[TermId],
    p: TermId,
) -> Result<Option<Nexts>, AllocError>
    requires history { HistoryStands bank.old history.now }
    requires ready { IsReady (events_at bank.old history.now) }
    requires goal { All (Stands bank.old) goal.now }
    requires over { All (TermIsIn bank.old history.now) goal.now }
    requires claim { IsIdOf bank.old p (claim_of (terms_at bank.old goal.now)) }
    ensures leads { IfOk result (λ found. IfSome found (λ n. IsInduction (events_at bank.old history.now) (terms_at bank.old goal.now) (term_at bank.new n.base) (term_at bank.new n.step))) }
    ensures stand { IfOk result (λ found. IfSome found (NextsStand bank.new)) }
    ensures grows { Grows bank.old bank.new }
{
    if bank.size(p) > SIZE_LIMIT {
        return Ok(None);
    }
    let found = found_among(bank, history, goal)?;
    match found {
        Some(t) => induct_claim_by(bank, history, goal, p, t),
        None => Ok(None),
    }
}

/// The goals of an induction by one case that a call in a goal suggests; there may be none.
pub fn induct_on(
    bank: &mut Bank,
    history: &History,
    goal: &[TermId],
) -> Result<Option<Nexts>, AllocError>
    requires history { HistoryStands bank.old history.now }
    requires ready { IsReady (events_at bank.old history.now) }
    requires goal { All (Stands bank.old) goal.now }
    requires over { All (TermIsIn bank.old history.now) goal.now }
    ensures leads { IfOk result (λ found. IfSome found (λ n. IsInduction (events_at bank.old history.now) (terms_at bank.old goal.now) (term_at bank.new n.base) (term_at bank.new n.step))) }
    ensures stand { IfOk result (λ found. IfSome found (NextsStand bank.new)) }
    ensures grows { Grows bank.old bank.new }
{
    if goal.is_empty() {
        return Ok(None);
    }
    match claim_of(bank, goal) {
        Ok(p) => induct_claim(bank, history, goal, p),
        Err(BankFault::Deep) => Ok(None),
        Err(_) => Err(AllocError),
    }
}

/// The goals of an induction on a goal by one case that this call suggests, wherever it stands; there may be none.
pub fn induct_by(
    bank: &mut Bank,
    history: &History,
    goal: &[TermId],
    call: TermId,
) -> Result<Option<Nexts>, AllocError>
    requires history { HistoryStands bank.old history.now }
    requires ready { IsReady (events_at bank.old history.now) }
    requires goal { All (Stands bank.old) goal.now }
    requires call { Stands bank.old call }
    requires over { TermIsIn bank.old history.now call }
    ensures leads { IfOk result (λ found. IfSome found (λ n. IsInductionBy (events_at bank.old history.now) (term_at bank.old call ∷ []) (terms_at bank.old goal.now) (term_at bank.new n.base) (term_at bank.new n.step))) }
    ensures stand { IfOk result (λ found. IfSome found (NextsStand bank.new)) }
    ensures grows { Grows bank.old bank.new }
{
    if goal.is_empty() {
        return Ok(None);
    }
    match claim_of(bank, goal) {
        Ok(p) => induct_claim_by(bank, history, goal, p, call),
        Err(BankFault::Deep) => Ok(None),
        Err(_) => Err(AllocError),
    }
}

/// The goals of a legal induction from a first goal; there may be none.
pub fn induction_from(
    bank: &mut Bank,
    history: &History,
    hints: &Hints,
    goal: &[TermId],
) -> Result<Option<Nexts>, AllocError>
    requires history { HistoryStands bank.old history.now }
    requires ready { IsReady (events_at bank.old history.now) }
    requires hints { HintsStand bank.old hints.now }
    requires goal { All (Stands bank.old) goal.now }
    requires over { All (TermIsIn bank.old history.now) goal.now }
    ensures moves { IfOk result (λ found. IfSome found (λ n. IsMove (events_at bank.old history.now) (hints_at bank.old hints.now) [] Ind (terms_at bank.old goal.now) ((term_at bank.new n.base ∷ []) ∷ (term_at bank.new n.step ∷ []) ∷ []))) }
    ensures stand { IfOk result (λ found. IfSome found (NextsStand bank.new)) }
    ensures grows { Grows bank.old bank.new }
{
    if is_due(bank, history, hints, goal)? {
        induct_on(bank, history, goal)
    } else {
        Ok(None)
    }
}
