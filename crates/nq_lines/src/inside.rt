//! Equations that are carried into terms.
ghost use Rattle.std.specs.Prelude.{◌≡◌, ◌∷◌, IfOk, Err};
ghost use Rattle.nq_bank.specs.Content.{term_at};
ghost use Rattle.nq_kernel.specs.Growing.{WorkStands, WorkGrows, LineStands};
ghost use Rattle.nq_lines.specs.Lines.{IsTermIn};
ghost use Rattle.nq_lines.specs.Inside.{HasPart, CarriesInside};

use crate::rewriting::discharge;
use crate::rules::{reflexive, replace_first};
use nq_bank::TermId;
use nq_history::History;
use nq_kernel::{Stop, Work};
use nq_rule::Side;
use std::alloc::Global;

/// The path of a term within the second side of an equation.
fn under_second(alloc: Global, path: &[u64]) -> Result<Vec<u64>, Stop>
    ensures path { IfOk result (λ whole. whole.items ≡ 2 ∷ path.now) }
    ensures out { result ≡ Err Stop.OutOfSteps → ⊥ }
{
    match under_second_or_fail(alloc, path) {
        Ok(whole) => Ok(whole),
        Err(_) => Err(Stop::Memory),
    }
}

/// The same, where only memory can be wanting.
fn under_second_or_fail(alloc: Global, path: &[u64]) -> Result<Vec<u64>, std::alloc::AllocError>
    ensures { IfOk result (λ whole. whole.items ≡ 2 ∷ path.now) }
{
    let mut whole = Vec::new(alloc);
    whole.push(2)?;
    whole.extend_from_slice(path)?;
    Ok(whole)
}

/// Adds the line that a term is equal to the one with another part at a path, by a line that shows the equation of the parts.
pub fn equation_inside(
    work: &mut Work,
    history: &History,
    t: TermId,
    path: &[u64],
    old: TermId,
    new: TermId,
    equation: u64,
) -> Result<u64, Stop>
    requires stands { WorkStands history.now work.old }
    requires term { IsTermIn history.now work.old t }
    requires old { IsTermIn history.now work.old old }
    requires new { IsTermIn history.now work.old new }
    requires part { HasPart path.now (term_at work.old.bank old) (term_at work.old.bank new) (term_at work.old.bank t) }
    requires equation { LineStands work.old equation }
    ensures line { IfOk result (λ n. CarriesInside work.old work.new path.now (term_at work.old.bank t) (term_at work.old.bank old) (term_at work.old.bank new) equation n) }
    ensures stands { IfOk result (λ n. LineStands work.new n) }
    ensures grows { WorkGrows history.now work.old work.new }
    ensures out { result ≡ Err Stop.OutOfSteps → work.new.counter.used ≡ work.new.counter.limit }
{
    let whole = under_second(work.bank.alloc(), path)?;
    let line = reflexive(work, history, t)?;
    let replaced = replace_first(work, history, line, whole, new, Side::Forwards)?;
    discharge(work, history, Side::Forwards, old, new, replaced, equation)
}
