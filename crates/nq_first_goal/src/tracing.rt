//! The trace that is told of a lemma which moves proved.
ghost use Rattle.std.specs.Prelude.{◌≡◌, ◌∷◌, [], All, IfOk};
ghost use Rattle.nq_bank.specs.Content.{Grows, Stands, term_at, terms_at};
ghost use Rattle.nq_bank.specs.Marks.{CanRelease, released};
ghost use Rattle.nq_history.specs.Events.{HistoryStands, events_at};
ghost use Rattle.nq_history.specs.Hints.{HintsStand};
ghost use Rattle.nq_kernel.specs.Hints.{HintsAreIn};
ghost use Rattle.nq_kernel.specs.Over.{TermIsIn};
ghost use Rattle.nq_kernel.specs.Ready.{IsReady};
ghost use Rattle.nq_comment.specs.ReportViews.{step_of, steps_of};
ghost use Rattle.nq_event.specs.EventsAt.{hints_at};
ghost use Rattle.nq_goals.specs.Forests.{step};
ghost use Rattle.nq_goals.specs.Hints.{first_goal};
ghost use Rattle.nq_goals.specs.declared.kinds.MoveKind.TheVariants.{Ind};
ghost use Rattle.nq_answers.specs.Shown.{ShowsTrace, shown_step, shown_steps};
ghost use Rattle.nq_ground_goals.specs.Literals.{IsLiteral};
ghost use Rattle.nq_tracer.specs.Leads.{NextsStand};
ghost use Rattle.nq_tracer.specs.Steps.{steps_to};

use crate::texts::goal_text;
use nq_bank::{Bank, Mark, TermId};
use nq_comment::{Move, ShownStep};
use nq_history::{Hints, History};
use nq_tracer::{Nexts, induction_from};
use nq_uses::first_goal;
use std::alloc::AllocError;

/// The steps of a trace, and the bank as it was before.
#[derive(Drop)]
pub struct Traced {
    /// The bank.
    pub bank: Bank,
    /// The steps.
    pub steps: Vec<ShownStep>,
}

/// A step from the first goal to this one, by an induction.
fn shown_step(bank: &Bank, goal: TermId) -> Result<ShownStep, AllocError>
    requires { Stands bank.now goal }
    ensures { IfOk result (λ s. step_of s ≡ shown_step (step 0 Ind (term_at bank.now goal ∷ []))) }
{
    let goal = goal_text(bank, &[goal])?;
    Ok(ShownStep {
        parent: 0,
        led_by: Move::Ind,
        goal,
    })
}

/// The steps from the first goal to those of an induction.
fn shown_nexts(bank: &Bank, nexts: Nexts) -> Result<Vec<ShownStep>, AllocError>
    requires { NextsStand bank.now nexts }
    ensures { IfOk result (λ v. steps_of v.items ≡ shown_steps (steps_to Ind ((term_at bank.now nexts.base ∷ []) ∷ (term_at bank.now nexts.step ∷ []) ∷ []))) }
{
    let base = shown_step(bank, nexts.base)?;
    let step = shown_step(bank, nexts.step)?;
    let mut steps = Vec::new(bank.alloc());
    steps.push(base)?;
    steps.push(step)?;
    Ok(steps)
}

/// The steps of a trace from a first goal: those of an induction, where one leads on from it.
fn trace_goal(
    bank: &mut Bank,
    history: &History,
    hints: &Hints,
    goal: &[TermId],
) -> Result<Vec<ShownStep>, AllocError>
    requires history { HistoryStands bank.old history.now }
    requires ready { IsReady (events_at bank.old history.now) }
    requires hints { HintsStand bank.old hints.now }
    requires stand { All (Stands bank.old) goal.now }
    requires literals { All (IsLiteral bank.old history.now) goal.now }
    ensures told { IfOk result (λ v. ShowsTrace (events_at bank.old history.now) (hints_at bank.old hints.now) (terms_at bank.old goal.now) (steps_of v.items)) }
    ensures grows { Grows bank.old bank.new }
{
    let found = induction_from(bank, history, hints, goal)?;
    match found {
        Some(nexts) => shown_nexts(bank, nexts),
        None => Ok(Vec::new(bank.alloc())),
    }
}

/// Without what was made in the bank past the mark.
fn given_back(traced: Traced, mark: Mark) -> Traced
    requires { CanRelease traced.bank mark }
    ensures bank { result.bank ≡ released traced.bank mark }
    ensures steps { result.steps ≡ traced.steps }
{
    let Traced { mut bank, steps } = traced;
    bank.release(mark);
    Traced { bank, steps }
}

/// The steps of a trace from the first goal of a lemma. A trace may be without steps. What it made in the bank is given back. An
/// instance that is deeper than a bank allows counts as want of memory; a lawful hint names none.
pub fn trace_lemma(
    bank: Bank,
    history: &History,
    hints: &Hints,
    goal: TermId,
) -> Result<Traced, AllocError>
    requires history { HistoryStands bank history.now }
    requires ready { IsReady (events_at bank history.now) }
    requires goal { Stands bank goal }
    requires over { TermIsIn bank history.now goal }
    requires hints { HintsStand bank hints.now }
    requires hint_terms { HintsAreIn bank history.now hints.now }
    ensures bank { IfOk result (λ traced. traced.bank ≡ bank) }
    ensures told { IfOk result (λ traced. ShowsTrace (events_at bank history.now) (hints_at bank hints.now) (first_goal (events_at bank history.now) (hints_at bank hints.now) (term_at bank goal)) (steps_of traced.steps.items)) }
{
    let mark = bank.mark();
    let mut bank = bank;
    let Ok(first) = first_goal(&mut bank, history, hints, goal) else {
        return Err(AllocError);
    };
    let steps = trace_goal(&mut bank, history, hints, first.as_slice())?;
    Ok(given_back(Traced { bank, steps }, mark))
}
