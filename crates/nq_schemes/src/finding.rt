//! A call of a goal that suggests an induction.
ghost use Rattle.std.specs.Prelude.{◌≡◌, ◌<◌, All, IfOk, Err, length};
ghost use Rattle.nq_kernel.specs.Growing.{WorkStands};
ghost use Rattle.nq_lines.specs.Lines.{IsTermIn};

use crate::suggestion::suggestion_of;
use nq_bank::TermId;
use nq_history::History;
use nq_kernel::{Stop, Work};
use nq_normal::suggests_induction;

/// Does some call in a term suggest an induction?
fn has_suggestion(work: &Work, history: &History, t: TermId) -> Result<bool, Stop>
    requires stands { WorkStands history.now work.now }
    requires term { IsTermIn history.now work.now t }
    ensures memory { result ≡ Err Stop.OutOfSteps → ⊥ }
{
    match suggests_induction(&work.bank, history, &[t]) {
        Ok(answer) => Ok(answer),
        Err(_) => Err(Stop::Memory),
    }
}

/// Is a term itself a call that suggests an induction?
fn is_suggestion(work: &Work, history: &History, t: TermId) -> Result<bool, Stop>
    requires term { IsTermIn history.now work.now t }
    ensures memory { result ≡ Err Stop.OutOfSteps → ⊥ }
{
    match suggestion_of(&work.bank, history, t) {
        Ok(found) => Ok(found.is_some()),
        Err(_) => Err(Stop::Memory),
    }
}

/// The first call within a term that suggests an induction, outer ones first. The term itself is told where no call within it does.
fn suggesting_within(work: &Work, history: &History, t: TermId) -> Result<TermId, Stop>
    requires stands { WorkStands history.now work.now }
    requires term { IsTermIn history.now work.now t }
    ensures over { IfOk result (IsTermIn history.now work.now) }
    ensures memory { result ≡ Err Stop.OutOfSteps → ⊥ }
{
    if is_suggestion(work, history, t)? {
        return Ok(t);
    }
    let arguments = work.bank.args(t);
    for i in 0..arguments.len() {
        let a = arguments[i];
        if has_suggestion(work, history, a)? {
            return suggesting_within(work, history, a);
        }
    }
    Ok(t)
}

/// The first call in a goal that suggests an induction. Where none does the first literal is told.
pub fn suggesting_call(work: &Work, history: &History, goal: &[TermId]) -> Result<TermId, Stop>
    requires stands { WorkStands history.now work.now }
    requires goal { All (IsTermIn history.now work.now) goal.now }
    requires some { 0 < length goal.now }
    ensures over { IfOk result (IsTermIn history.now work.now) }
    ensures memory { result ≡ Err Stop.OutOfSteps → ⊥ }
{
    for i in 0..goal.len() {
        let literal = goal[i];
        if has_suggestion(work, history, literal)? {
            return suggesting_within(work, history, literal);
        }
    }
    Ok(goal[0])
}
