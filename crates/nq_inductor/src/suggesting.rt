//! The calls of a goal that suggest an induction.
ghost use Rattle.std.specs.Prelude.{◌≡◌, ◌++◌, ◌∷◌, [], All, IfOk, OnOk, true, if◌then◌else◌};
ghost use Rattle.nq_bank.specs.Content.{Stands};
ghost use Rattle.nq_kernel.specs.Growing.{WorkStands};
ghost use Rattle.nq_inductor.specs.Suggesting.{IsSuggestingCall, IsSuggestingPart};

use nq_bank::TermId;
use nq_history::History;
use nq_kernel::Work;
use nq_legal::suggests;
use nq_own::is_own;
use std::alloc::AllocError;

/// The size from which on a term is not looked through.
const SIZE_LIMIT: u64 = 20000;

/// Is a term a call that suggests an induction, and such as a log can spell?
fn is_suggesting(work: &Work, history: &History, t: TermId) -> Result<bool, AllocError>
    requires stands { WorkStands history.now work.now }
    requires term { Stands work.now.bank t }
    ensures { IfOk result (λ b. b ≡ true → IsSuggestingPart history.now work.now t t) }
{
    if suggests(&work.bank, history, t)? {
        Ok(is_own(work, history, t))
    } else {
        Ok(false)
    }
}

/// Puts a call at the end, where it is to be there.
fn add_if(found: &mut Vec<TermId>, here: bool, t: TermId) -> Result<(), AllocError>
    ensures { OnOk result (found.new.items ≡ (if here then found.old.items ++ t ∷ [] else found.old.items)) }
{
    if !here {
        return Ok(());
    }
    match found.push(t) {
        Ok(()) => Ok(()),
        Err(_) => Err(AllocError),
    }
}

/// The calls within a term, perhaps itself, that suggest an induction; the inner ones come first.
fn suggesting_within(work: &Work, history: &History, t: TermId) -> Result<Vec<TermId>, AllocError>
    requires stands { WorkStands history.now work.now }
    requires term { Stands work.now.bank t }
    ensures { IfOk result (λ v. All (IsSuggestingPart history.now work.now t) v.items) }
{
    let mut found = Vec::new(work.bank.alloc());
    let arguments = work.bank.args(t);
    for i in 0..arguments.len() {
        let inner = suggesting_within(work, history, arguments[i])?;
        found.extend_from_slice(inner.as_slice())?;
    }
    let here = is_suggesting(work, history, t)?;
    add_if(&mut found, here, t)?;
    Ok(found)
}

/// The calls within a literal that suggest an induction. A large one is not looked through.
fn suggesting_in(work: &Work, history: &History, t: TermId) -> Result<Vec<TermId>, AllocError>
    requires stands { WorkStands history.now work.now }
    requires term { Stands work.now.bank t }
    ensures { IfOk result (λ v. All (IsSuggestingPart history.now work.now t) v.items) }
{
    if work.bank.size(t) < SIZE_LIMIT {
        suggesting_within(work, history, t)
    } else {
        Ok(Vec::new(work.bank.alloc()))
    }
}

/// The calls of a goal that suggest an induction, in the order of its literals.
pub fn suggesting_calls(
    work: &Work,
    history: &History,
    goal: &[TermId],
) -> Result<Vec<TermId>, AllocError>
    requires stands { WorkStands history.now work.now }
    requires goal { All (Stands work.now.bank) goal.now }
    ensures { IfOk result (λ v. All (IsSuggestingCall history.now work.now goal.now) v.items) }
{
    let mut found = Vec::new(work.bank.alloc());
    for i in 0..goal.len() {
        let inner = suggesting_in(work, history, goal[i])?;
        found.extend_from_slice(inner.as_slice())?;
    }
    Ok(found)
}
