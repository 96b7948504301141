//! Sizes of terms: that they are ordinals, and that those of parts are smaller.
ghost use Rattle.std.specs.Prelude.{◌≡◌, ◌≤◌, ◌∷◌, [], All, IfOk, IfSome, Err};
ghost use Rattle.nq_logic.specs.Words.{call1};
ghost use Rattle.nq_logic.specs.Sizes.{depth_of};
ghost use Rattle.nq_bank.specs.Content.{IsIdOf, term_at};
ghost use Rattle.nq_history.specs.Events.{events_at};
ghost use Rattle.nq_kernel.specs.Growing.{WorkStands, WorkGrows, LineStands};
ghost use Rattle.nq_kernel.specs.Ready.{IsReady};
ghost use Rattle.nq_lines.specs.Lines.{IsTermIn, LineHasOnly};
ghost use Rattle.nq_decrease.specs.LawLines.{term_room};
ghost use Rattle.nq_schemes.specs.Steps.{IsSizedIn};

use crate::basis::SizedVariable;
use nq_bank::{Sym, TermId, ground, ground_name};
use nq_decrease::{decrease, size_is_ordinal};
use nq_history::History;
use nq_kernel::{Stop, Work, mark_of};
use std::alloc::{AllocError, Global};

/// The greatest depth of a part of which the line is sought.
const PART_DEPTH: u32 = 3000;

/// Makes the size of a term.
pub fn size_of(work: &mut Work, history: &History, t: TermId) -> Result<TermId, Stop>
    requires stands { WorkStands history.now work.old }
    requires term { IsTermIn history.now work.old t }
    ensures size { IfOk result (λ s. IsIdOf work.new.bank s (call1 "COUNT" (term_at work.old.bank t))) }
    ensures over { IfOk result (λ s. IsTermIn history.now work.new s) }
    ensures grows { WorkGrows history.now work.old work.new }
    ensures out { result ≡ Err Stop.OutOfSteps → work.new.counter.used ≡ work.new.counter.limit }
{
    let name = ground_name(&work.bank, ground::COUNT);
    work.app(history, name, &[t])
}

/// The line that the size of a term is an ordinal.
pub fn ordinal_line(work: &mut Work, history: &History, t: TermId) -> Result<u64, Stop>
    requires stands { WorkStands history.now work.old }
    requires term { IsTermIn history.now work.old t }
    requires shallow { depth_of (term_at work.old.bank t) ≤ term_room }
    ensures line { IfOk result (λ n. LineHasOnly work.new n (call1 "ORDINALP" (call1 "COUNT" (term_at work.old.bank t)) ∷ [])) }
    ensures grows { WorkGrows history.now work.old work.new }
    ensures memory { result ≡ Err Stop.OutOfSteps → ⊥ }
{
    match size_is_ordinal(work, history, t) {
        Ok(line) => Ok(line),
        Err(_) => Err(Stop::Memory),
    }
}

/// The key under which the line of a part is kept.
fn key_of(alloc: Global, whole: Sym, part: TermId, tests: &[TermId]) -> Result<u64, AllocError> {
    let mut ids = Vec::from_slice(alloc, tests)?;
    ids.push(part)?;
    ids.push(TermId(whole.0))?;
    Ok(mark_of(ids.as_slice()))
}

/// The line that a part of a variable is smaller, where the tests say so; it is kept under a key.
fn kept_part_line(
    work: &mut Work,
    history: &History,
    whole: SizedVariable,
    part: TermId,
    tests: &[TermId],
    key: u64,
) -> Result<Option<u64>, AllocError>
    requires stands { WorkStands history.now work.old }
    requires ready { IsReady (events_at work.old.bank history.now) }
    requires whole { IsSizedIn history.now work.old whole }
    requires part { IsTermIn history.now work.old part }
    requires tests { All (IsTermIn history.now work.old) tests.now }
    requires shallow { depth_of (term_at work.old.bank part) ≤ term_room }
    ensures line { IfOk result (λ found. IfSome found (LineStands work.new)) }
    ensures grows { WorkGrows history.now work.old work.new }
{
    let found = decrease(work, history, whole.name, part, tests)?;
    if let Some(line) = found {
        work.keep(key, line);
    }
    Ok(found)
}

/// The same: the line that is kept, or else a new one.
fn part_line_at(
    work: &mut Work,
    history: &History,
    whole: SizedVariable,
    part: TermId,
    tests: &[TermId],
) -> Result<Option<u64>, AllocError>
    requires stands { WorkStands history.now work.old }
    requires ready { IsReady (events_at work.old.bank history.now) }
    requires whole { IsSizedIn history.now work.old whole }
    requires part { IsTermIn history.now work.old part }
    requires tests { All (IsTermIn history.now work.old) tests.now }
    requires shallow { depth_of (term_at work.old.bank part) ≤ term_room }
    ensures line { IfOk result (λ found. IfSome found (LineStands work.new)) }
    ensures grows { WorkGrows history.now work.old work.new }
{
    let key = key_of(work.bank.alloc(), whole.name, part, tests)?;
    match work.kept(key) {
        Some(line) => Ok(Some(line)),
        None => kept_part_line(work, history, whole, part, tests, key),
    }
}

/// The line that a part of a variable is smaller, where the tests say so.
pub fn part_line(
    work: &mut Work,
    history: &History,
    whole: SizedVariable,
    part: TermId,
    tests: &[TermId],
) -> Result<Option<u64>, Stop>
    requires stands { WorkStands history.now work.old }
    requires ready { IsReady (events_at work.old.bank history.now) }
    requires whole { IsSizedIn history.now work.old whole }
    requires part { IsTermIn history.now work.old part }
    requires tests { All (IsTermIn history.now work.old) tests.now }
    ensures line { IfOk result (λ found. IfSome found (LineStands work.new)) }
    ensures grows { WorkGrows history.now work.old work.new }
    ensures memory { result ≡ Err Stop.OutOfSteps → ⊥ }
{
    if work.bank.depth(part) > PART_DEPTH {
        return Ok(None);
    }
    match part_line_at(work, history, whole, part, tests) {
        Ok(found) => Ok(found),
        Err(_) => Err(Stop::Memory),
    }
}
