//! The equation of a fact, and its destructor calls.
ghost use Rattle.std.specs.Prelude.{◌≡◌, All, IfOk, IfSome, Err};
ghost use Rattle.nq_kernel.specs.Growing.{WorkStands};
ghost use Rattle.nq_lines.specs.Lines.{IsTermIn};

use crate::calls::{flat_calls, has_argument, is_variable};
use crate::lists::{has_id, push_id};
use nq_bank::TermId;
use nq_history::History;
use nq_kernel::{Stop, Work};
use nq_lines::{Sides, sides_of};

/// The sides of an equation of a variable and another term that is none.
fn elimination_sides(work: &Work, history: &History, t: TermId) -> Option<Sides>
    requires stands { WorkStands history.now work.now }
    requires term { IsTermIn history.now work.now t }
    ensures left { IfSome result (λ s. IsTermIn history.now work.now s.left) }
    ensures right { IfSome result (λ s. IsTermIn history.now work.now s.right) }
{
    let sides = sides_of(work, history, t)?;
    if is_variable(&work.bank, sides.right) && !work.bank.is_value(sides.left) {
        Some(sides)
    } else {
        None
    }
}

/// Is a term the equation of a term and a variable?
fn is_elimination(work: &Work, history: &History, t: TermId) -> bool
    requires stands { WorkStands history.now work.now }
    requires term { IsTermIn history.now work.now t }
{
    elimination_sides(work, history, t).is_some()
}

/// The equation of a term and a variable among literals.
pub fn equation_among(work: &Work, history: &History, literals: &[TermId]) -> Option<TermId>
    requires stands { WorkStands history.now work.now }
    requires literals { All (IsTermIn history.now work.now) literals.now }
    ensures { IfSome result (IsTermIn history.now work.now) }
{
    for t in literals {
        if is_elimination(work, history, *t) {
            return Some(*t);
        }
    }
    None
}

/// Those of the calls that have the variable among their arguments, each once.
fn calls_with(
    work: &Work,
    history: &History,
    calls: &[TermId],
    variable: TermId,
) -> Result<Vec<TermId>, Stop>
    requires calls { All (IsTermIn history.now work.now) calls.now }
    ensures calls { IfOk result (λ v. All (IsTermIn history.now work.now) v.items) }
    ensures memory { result ≡ Err Stop.OutOfSteps → ⊥ }
{
    let _ = history.len();
    let mut kept = Vec::new(work.bank.alloc());
    for call in calls {
        if has_argument(&work.bank, *call, variable)
            && !has_id(&work.bank, kept.as_slice(), *call)
        {
            push_id(&mut kept, *call)?;
        }
    }
    Ok(kept)
}

/// The same, of the calls in a term.
fn calls_in(
    work: &Work,
    history: &History,
    t: TermId,
    variable: TermId,
) -> Result<Vec<TermId>, Stop>
    requires stands { WorkStands history.now work.now }
    requires term { IsTermIn history.now work.now t }
    ensures calls { IfOk result (λ v. All (IsTermIn history.now work.now) v.items) }
    ensures memory { result ≡ Err Stop.OutOfSteps → ⊥ }
{
    let calls = flat_calls(work, history, &[t])?;
    calls_with(work, history, calls.as_slice(), variable)
}

/// The destructor calls of an equation: the calls of variables alone, on its left side, that have the variable on its right side
/// among their arguments.
pub fn destructor_calls(
    work: &Work,
    history: &History,
    equation: TermId,
) -> Result<Vec<TermId>, Stop>
    requires stands { WorkStands history.now work.now }
    requires equation { IsTermIn history.now work.now equation }
    ensures calls { IfOk result (λ v. All (IsTermIn history.now work.now) v.items) }
    ensures memory { result ≡ Err Stop.OutOfSteps → ⊥ }
{
    match elimination_sides(work, history, equation) {
        Some(sides) => calls_in(work, history, sides.left, sides.right),
        None => Ok(Vec::new(work.bank.alloc())),
    }
}
