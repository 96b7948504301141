//! The rule AXIOM: the clause of the tables of axioms, made by steps.
ghost use Rattle.std.specs.Prelude.{◌≡◌, All, IfOk, Err, Some, reverse, is_some, IsSome};
ghost use Rattle.nq_bank.specs.Content.{IsNamed, Grows, text_at};
ghost use Rattle.nq_proof.specs.Clauses.{distinct};
ghost use Rattle.nq_proof.specs.Rows.{axiom_clause};
ghost use Rattle.nq_proof.specs.Rules.{given};
ghost use Rattle.nq_steps.specs.NewNames.{AddsSymbols};
ghost use Rattle.nq_steps.specs.Steps.{stack_of, StepStands};
ghost use Rattle.nq_axiom.specs.Drafts.{draft_at, DraftStands};
ghost use Rattle.nq_rule.specs.Conclusions.{Concludes, IsDeep};
ghost use Rattle.nq_history.specs.Events.{events_at, HistoryStands};

use crate::definitions::definition_among;
use nq_axiom::axiom_steps;
use nq_bank::{Bank, BankFault, Sym, TermId};
use nq_history::History;
use nq_rule::clause_of;
use nq_steps::{Step, take_steps};
use std::alloc::AllocError;

/// The steps that make the literals of an axiom of a history; None exactly where it has no such axiom.
fn steps_of_axiom(
    bank: &Bank,
    history: &History,
    name: Sym,
    row: u64,
    part: u64,
) -> Result<Option<Vec<Step>>, AllocError>
    requires history { HistoryStands bank.now history.now }
    requires name { IsNamed bank.now name }
    ensures stand { IfOk result (DraftStands bank.now) }
    ensures axiom { IfOk result (λ draft. draft_at bank.now draft ≡ axiom_clause (events_at bank.now history.now) (text_at bank.now name) row part) }
{
    let definition = definition_among(bank, history.entries(), name);
    axiom_steps(bank, definition, history.shells(), name, row, part)
}

/// Has a history an axiom of this name, in this row, for this part?
pub fn has_axiom(
    bank: &Bank,
    history: &History,
    name: Sym,
    row: u64,
    part: u64,
) -> Result<bool, AllocError>
    requires history { HistoryStands bank.now history.now }
    requires name { IsNamed bank.now name }
    ensures { IfOk result (λ b. b ≡ is_some (axiom_clause (events_at bank.now history.now) (text_at bank.now name) row part)) }
{
    Ok(steps_of_axiom(bank, history, name, row, part)?.is_some())
}

/// The clause of the literals that steps make.
fn clause_of_steps(bank: &mut Bank, steps: &[Step]) -> Result<Vec<TermId>, BankFault>
    requires { All (StepStands bank.old) steps.now }
    ensures ok { IfOk result (λ c. Concludes bank.new c.items (Some (distinct (reverse (stack_of bank.old steps.now))))) }
    ensures grows { Grows bank.old bank.new }
    ensures symbols { AddsSymbols bank.old bank.new }
    ensures deep { result ≡ Err BankFault.Deep → IsDeep (Some (distinct (reverse (stack_of bank.old steps.now)))) }
{
    let literals = take_steps(bank, steps)?;
    clause_of(bank, literals.as_slice())
}

/// The clause of an axiom of a history.
pub fn clause_of_axiom(
    bank: &mut Bank,
    history: &History,
    name: Sym,
    row: u64,
    part: u64,
) -> Result<Vec<TermId>, BankFault>
    requires history { HistoryStands bank.old history.now }
    requires name { IsNamed bank.old name }
    requires axiom { IsSome (axiom_clause (events_at bank.old history.now) (text_at bank.old name) row part) }
    ensures ok { IfOk result (λ c. Concludes bank.new c.items (given (axiom_clause (events_at bank.old history.now) (text_at bank.old name) row part) (λ c. Some (distinct c)))) }
    ensures grows { Grows bank.old bank.new }
    ensures symbols { AddsSymbols bank.old bank.new }
    ensures deep { result ≡ Err BankFault.Deep → IsDeep (given (axiom_clause (events_at bank.old history.now) (text_at bank.old name) row part) (λ c. Some (distinct c))) }
{
    let Ok(draft) = steps_of_axiom(bank, history, name, row, part) else {
        return Err(BankFault::Memory);
    };
    let steps = draft.unwrap();
    clause_of_steps(bank, steps.as_slice())
}
