//! Lines of tautologies: the goal is decided where each of its other terms is true or false, and the lines of two ways that
//! differ in one term are cut to one. Where the first line doesn't hold the term, the other way isn't taken.
ghost use Rattle.std.specs.Prelude.{◌≡◌, ◌<◌, ◌++◌, ◌∷◌, [], All, IfOk, true};
ghost use Rattle.nq_logic.specs.Words.{not_term};
ghost use Rattle.nq_bank.specs.Content.{Stands, term_at};
ghost use Rattle.nq_kernel.specs.Over.{TermIsIn};
ghost use Rattle.nq_kernel.specs.Growing.{WorkStands};
ghost use Rattle.nq_quick.specs.Answers.{IsTautologyOver};
ghost use Rattle.nq_quick.specs.Coverings.{CanProve};
ghost use Rattle.nq_quick.specs.Decisions.{denials_at};
ghost use Rattle.nq_quick.specs.Lines.{LineHasOnly, Says, GrowsUncounted};

use crate::assignments::Assignment;
use crate::decisions::decide;
use crate::kept::{Kept, says};
use crate::lines::{add_cut, deny};
use crate::tautology::with_term;
use nq_bank::TermId;
use nq_history::History;
use nq_kernel::Work;
use std::alloc::AllocError;

/// Adds a line of the goal, where these of its other terms are neither true nor false yet.
#[cycle(proving)]
fn prove(
    work: &mut Work,
    history: &History,
    kept: &mut Vec<Kept>,
    goal: TermId,
    atoms: &[TermId],
    assignment: &Assignment,
) -> Result<u64, AllocError>
    requires stands { WorkStands history.now work.old }
    requires can { CanProve work.old.bank history.now goal atoms.now assignment.now }
    ensures line { IfOk result (λ n. Says work.new n true goal assignment.now.denials.items) }
    ensures grows { GrowsUncounted history.now work.old work.new }
{
    match atoms {
        [] => prove_decided(work, history, kept, goal, assignment),
        [atom, rest @ ..] => prove_both(work, history, kept, goal, *atom, rest, assignment),
    }
}

/// Adds a line of the goal, where each other term is true or false.
fn prove_decided(
    work: &mut Work,
    history: &History,
    kept: &mut Vec<Kept>,
    goal: TermId,
    assignment: &Assignment,
) -> Result<u64, AllocError>
    requires stands { WorkStands history.now work.old }
    requires can { CanProve work.old.bank history.now goal [] assignment.now }
    ensures line { IfOk result (λ n. Says work.new n true goal assignment.now.denials.items) }
    ensures grows { GrowsUncounted history.now work.old work.new }
{
    work.bank.is_sound();
    decide(work, history, kept, assignment, goal)
}

/// Adds a line of the goal, by the two ways for a term.
#[cycle(proving)]
fn prove_both(
    work: &mut Work,
    history: &History,
    kept: &mut Vec<Kept>,
    goal: TermId,
    atom: TermId,
    rest: &[TermId],
    assignment: &Assignment,
) -> Result<u64, AllocError>
    requires stands { WorkStands history.now work.old }
    requires can { CanProve work.old.bank history.now goal (atom ∷ rest.now) assignment.now }
    ensures line { IfOk result (λ n. Says work.new n true goal assignment.now.denials.items) }
    ensures grows { GrowsUncounted history.now work.old work.new }
{
    let denied = deny(work, history, atom)?;
    let with = with_true(work, assignment, atom, denied)?;
    let line = prove(work, history, kept, goal, rest, &with)?;
    if says(work, line, true, goal, assignment.denials.as_slice()) {
        return Ok(line);
    }
    prove_other(work, history, kept, goal, atom, rest, assignment, line)
}

/// Adds a line of the goal, from that where a term is true.
#[cycle(proving)]
fn prove_other(
    work: &mut Work,
    history: &History,
    kept: &mut Vec<Kept>,
    goal: TermId,
    atom: TermId,
    rest: &[TermId],
    assignment: &Assignment,
    first: u64,
) -> Result<u64, AllocError>
    requires stands { WorkStands history.now work.old }
    requires can { CanProve work.old.bank history.now goal (atom ∷ rest.now) assignment.now }
    requires first { LineHasOnly work.old first (not_term (term_at work.old.bank atom) ∷ term_at work.old.bank goal ∷ denials_at work.old.bank assignment.now) }
    ensures line { IfOk result (λ n. Says work.new n true goal assignment.now.denials.items) }
    ensures grows { GrowsUncounted history.now work.old work.new }
{
    let without = with_false(work, assignment, atom)?;
    let line = prove(work, history, kept, goal, rest, &without)?;
    if says(work, line, true, goal, assignment.denials.as_slice()) {
        return Ok(line);
    }
    add_cut(work, history, line, first, atom)
}

/// The assignment, with one more term that is true.
fn with_true(
    work: &Work,
    assignment: &Assignment,
    atom: TermId,
    denied: TermId,
) -> Result<Assignment, AllocError>
    ensures { IfOk result (λ a. (a.trues.items ≡ assignment.now.trues.items ++ atom ∷ []) × (a.denials.items ≡ assignment.now.denials.items ++ denied ∷ [])) }
{
    let alloc = work.bank.alloc();
    let trues = with_term(alloc, assignment.trues.as_slice(), atom)?;
    let denials = with_term(alloc, assignment.denials.as_slice(), denied)?;
    Ok(Assignment { trues, denials })
}

/// The assignment, with one more term that is false.
fn with_false(work: &Work, assignment: &Assignment, atom: TermId) -> Result<Assignment, AllocError>
    ensures { IfOk result (λ a. (a.trues.items ≡ assignment.now.trues.items) × (a.denials.items ≡ assignment.now.denials.items ++ atom ∷ [])) }
{
    let alloc = work.bank.alloc();
    let trues = Vec::from_slice(alloc, assignment.trues.as_slice())?;
    let denials = with_term(alloc, assignment.denials.as_slice(), atom)?;
    Ok(Assignment { trues, denials })
}

/// Adds a line of a tautology over these other terms.
pub fn prove_tautology(
    work: &mut Work,
    history: &History,
    goal: TermId,
    others: &[TermId],
) -> Result<u64, AllocError>
    requires stands { WorkStands history.now work.old }
    requires goal { Stands work.old.bank goal }
    requires over { TermIsIn work.old.bank history.now goal }
    requires tautology { IsTautologyOver work.old.bank goal others.now }
    ensures line { IfOk result (λ n. LineHasOnly work.new n (term_at work.new.bank goal ∷ [])) }
    ensures grows { GrowsUncounted history.now work.old work.new }
{
    work.bank.is_sound();
    let none = Assignment {
        trues: Vec::new(work.bank.alloc()),
        denials: Vec::new(work.bank.alloc()),
    };
    let mut kept = Vec::new(work.bank.alloc());
    prove(work, history, &mut kept, goal, others, &none)
}
