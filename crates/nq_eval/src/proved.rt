//! The line of a ground lemma, from its value.
ghost use Rattle.std.specs.Prelude.{◌≡◌, ◌∷◌, [], IfOk};
ghost use Rattle.nq_logic.specs.Words.{not_term, equal_term};
ghost use Rattle.nq_bank.specs.Content.{IsIdOf, term_at};
ghost use Rattle.nq_kernel.specs.Growing.{WorkStands, LineHolds};
ghost use Rattle.nq_eval.specs.Lines.{GrowsUncounted, IsUsable, Equates};
ghost use Rattle.nq_eval.specs.Truths.{IsTruth};

use crate::lines::{add_line, equation};
use crate::truths::add_truth;
use nq_bank::TermId;
use nq_history::History;
use nq_kernel::{Rule, Work};
use nq_rule::Side;
use std::alloc::AllocError;

/// Adds the line of a term, unless it differs from a value that a line shows.
fn add_backwards(
    work: &mut Work,
    history: &History,
    t: TermId,
    v: TermId,
    line: u64,
) -> Result<u64, AllocError>
    requires stands { WorkStands history.now work.old }
    requires term { IsUsable work.old.bank history.now t }
    requires value { IsUsable work.old.bank history.now v }
    requires line { LineHolds work.old line (term_at work.old.bank v ∷ []) }
    ensures line { IfOk result (λ n. LineHolds work.new n (term_at work.new.bank t ∷ not_term (equal_term (term_at work.new.bank t) (term_at work.new.bank v)) ∷ [])) }
    ensures grows { GrowsUncounted history.now work.old work.new }
{
    let path = Vec::new(work.bank.alloc());
    add_line(
        work,
        history,
        Rule::Replace(line, 1, path, t, Side::Backwards),
    )
}

/// Cuts the equation of a term and its value.
fn cut_equation(
    work: &mut Work,
    history: &History,
    t: TermId,
    v: TermId,
    e: TermId,
    first: u64,
    second: u64,
) -> Result<u64, AllocError>
    requires stands { WorkStands history.now work.old }
    requires term { IsUsable work.old.bank history.now t }
    requires value { IsUsable work.old.bank history.now v }
    requires equation { IsIdOf work.old.bank e (equal_term (term_at work.old.bank t) (term_at work.old.bank v)) }
    requires first { Equates work.old first t v }
    requires second { LineHolds work.old second (term_at work.old.bank t ∷ not_term (equal_term (term_at work.old.bank t) (term_at work.old.bank v)) ∷ []) }
    ensures line { IfOk result (λ n. LineHolds work.new n (term_at work.new.bank t ∷ [])) }
    ensures grows { GrowsUncounted history.now work.old work.new }
{
    add_line(work, history, Rule::Cut(first, second, e))
}

/// Adds the line of a term whose value isn't F, from the line of their equation. No step is counted.
pub fn lemma_line(
    work: &mut Work,
    history: &History,
    t: TermId,
    v: TermId,
    line: u64,
) -> Result<u64, AllocError>
    requires stands { WorkStands history.now work.old }
    requires term { IsUsable work.old.bank history.now t }
    requires truth { IsTruth work.old.bank history.now v }
    requires line { Equates work.old line t v }
    ensures line { IfOk result (λ n. LineHolds work.new n (term_at work.new.bank t ∷ [])) }
    ensures grows { GrowsUncounted history.now work.old work.new }
{
    let truth = add_truth(work, history, v)?;
    let second = add_backwards(work, history, t, v, truth)?;
    let e = equation(work, history, t, v)?;
    cut_equation(work, history, t, v, e, line, second)
}
