//! Lines that terms are ordinals.
ghost use Rattle.std.specs.Prelude.{◌≡◌, ◌∷◌, [], IfOk, IfSome, IsSome, Err};
ghost use Rattle.nq_logic.specs.Words.{call1};
ghost use Rattle.nq_bank.specs.Content.{IsIdOf, term_at};
ghost use Rattle.nq_kernel.specs.Growing.{WorkStands, WorkGrows, LineStands};
ghost use Rattle.nq_lines.specs.Lines.{IsTermIn};
ghost use Rattle.nq_lines.specs.Facts.{IsFact};
ghost use Rattle.nq_replay.specs.Replaying.{law_clause};
ghost use Rattle.nq_replay.specs.Uncounted.{GrowsUncounted};
ghost use Rattle.nq_schemes.specs.Steps.{IsOrdinalIn};

use crate::learnt::known_ordinal;
use crate::own::is_own;
use crate::tables::fix_is_ordinal::FIX_IS_ORDINAL;
use crate::terms::{argument_of, is_call_of};
use nq_bank::{Bank, TermId, ground, ground_name};
use nq_history::History;
use nq_kernel::{Stop, Work};
use nq_lines::{Fact, is_same, literal_of, matched_fact};
use nq_replay::{Law, measure_is_ordinal, replay};
use std::alloc::AllocError;

/// The table of `(ORDINALP (FIX X))`.
fn fix_is_ordinal_law() -> Law
    ensures { IsSome (law_clause result []) }
{
    FIX_IS_ORDINAL
}

/// Adds the line of `(ORDINALP (FIX X))`.
fn fix_is_ordinal(work: &mut Work, history: &History) -> Result<u64, AllocError>
    requires stands { WorkStands history.now work.old }
    ensures line { IfOk result (λ n. LineStands work.new n) }
    ensures grows { GrowsUncounted history.now work.old work.new }
{
    let law = fix_is_ordinal_law();
    replay(work, history, law, &[])
}

/// Adds the line of `(ORDINALP (IF (ORDINALP X) X 0))`.
fn choice_is_ordinal(work: &mut Work, history: &History) -> Result<u64, AllocError>
    requires stands { WorkStands history.now work.old }
    ensures line { IfOk result (λ n. LineStands work.new n) }
    ensures grows { GrowsUncounted history.now work.old work.new }
{
    measure_is_ordinal(work, history)
}

/// Adds the line of the law that serves, uncounted.
fn uncounted_line(work: &mut Work, history: &History, fixed: bool) -> Result<u64, AllocError>
    requires stands { WorkStands history.now work.old }
    ensures line { IfOk result (λ n. LineStands work.new n) }
    ensures grows { GrowsUncounted history.now work.old work.new }
{
    if fixed {
        return fix_is_ordinal(work, history);
    }
    choice_is_ordinal(work, history)
}

/// Adds the line of the law that serves.
fn law_line(work: &mut Work, history: &History, fixed: bool) -> Result<u64, Stop>
    requires stands { WorkStands history.now work.old }
    ensures line { IfOk result (λ n. LineStands work.new n) }
    ensures grows { WorkGrows history.now work.old work.new }
    ensures memory { result ≡ Err Stop.OutOfSteps → ⊥ }
{
    match uncounted_line(work, history, fixed) {
        Ok(line) => Ok(line),
        Err(_) => Err(Stop::Memory),
    }
}

/// The term of a law's line.
pub fn law_fact(work: &Work, history: &History, line: u64) -> Option<Fact>
    requires stands { WorkStands history.now work.now }
    requires line { LineStands work.now line }
    ensures { IfSome result (IsFact history.now work.now) }
{
    let term = literal_of(work, history, line)?;
    if is_own(work, history, term) {
        Some(Fact { term, line })
    } else {
        None
    }
}

/// What stands for the measure in the term of the law: the FIX, or the variable.
fn pattern_in(bank: &Bank, term: TermId, fixed: bool) -> Option<TermId> {
    let whole = argument_of(bank, term, 0)?;
    if fixed {
        Some(whole)
    } else {
        argument_of(bank, whole, 1)
    }
}

/// The instance of a law at a measure.
fn instance_at(
    work: &mut Work,
    history: &History,
    law: Fact,
    fixed: bool,
    measure: TermId,
) -> Result<Option<Fact>, Stop>
    requires stands { WorkStands history.now work.old }
    requires law { IsFact history.now work.old law }
    requires measure { IsTermIn history.now work.old measure }
    ensures fact { IfOk result (λ found. IfSome found (IsFact history.now work.new)) }
    ensures grows { WorkGrows history.now work.old work.new }
    ensures out { result ≡ Err Stop.OutOfSteps → work.new.counter.used ≡ work.new.counter.limit }
{
    match pattern_in(&work.bank, law.term, fixed) {
        Some(pattern) => {
            if !is_own(work, history, pattern) {
                return Ok(None);
            }
            matched_fact(work, history, law, pattern, measure)
        }
        None => Ok(None),
    }
}

/// Makes that a term is an ordinal.
pub fn ordinal_term(work: &mut Work, history: &History, t: TermId) -> Result<TermId, Stop>
    requires stands { WorkStands history.now work.old }
    requires term { IsTermIn history.now work.old t }
    ensures term { IfOk result (λ s. IsIdOf work.new.bank s (call1 "ORDINALP" (term_at work.old.bank t))) }
    ensures over { IfOk result (λ s. IsTermIn history.now work.new s) }
    ensures grows { WorkGrows history.now work.old work.new }
    ensures out { result ≡ Err Stop.OutOfSteps → work.new.counter.used ≡ work.new.counter.limit }
{
    let name = ground_name(&work.bank, ground::ORDINALP);
    work.app(history, name, &[t])
}

/// A term, where the line says that it is an ordinal.
fn ordinal_at(
    work: &mut Work,
    history: &History,
    fact: Fact,
    t: TermId,
) -> Result<Option<Fact>, Stop>
    requires stands { WorkStands history.now work.old }
    requires fact { IsFact history.now work.old fact }
    requires term { IsTermIn history.now work.old t }
    ensures ordinal { IfOk result (λ found. IfSome found (IsOrdinalIn history.now work.new)) }
    ensures grows { WorkGrows history.now work.old work.new }
    ensures out { result ≡ Err Stop.OutOfSteps → work.new.counter.used ≡ work.new.counter.limit }
{
    let made = ordinal_term(work, history, t)?;
    if is_same(made, fact.term) {
        Ok(Some(Fact {
            term: t,
            line: fact.line,
        }))
    } else {
        Ok(None)
    }
}

/// The term of which a line says that it is an ordinal.
pub fn ordinal_in(work: &mut Work, history: &History, fact: Fact) -> Result<Option<Fact>, Stop>
    requires stands { WorkStands history.now work.old }
    requires fact { IsFact history.now work.old fact }
    ensures ordinal { IfOk result (λ found. IfSome found (IsOrdinalIn history.now work.new)) }
    ensures grows { WorkGrows history.now work.old work.new }
    ensures out { result ≡ Err Stop.OutOfSteps → work.new.counter.used ≡ work.new.counter.limit }
{
    match argument_of(&work.bank, fact.term, 0) {
        Some(t) => {
            if !is_own(work, history, t) {
                return Ok(None);
            }
            ordinal_at(work, history, fact, t)
        }
        None => Ok(None),
    }
}

/// The ordinal that serves for a measure by a law's line.
fn ordinal_by(
    work: &mut Work,
    history: &History,
    measure: TermId,
    fixed: bool,
    line: u64,
) -> Result<Option<Fact>, Stop>
    requires stands { WorkStands history.now work.old }
    requires measure { IsTermIn history.now work.old measure }
    requires line { LineStands work.old line }
    ensures ordinal { IfOk result (λ found. IfSome found (IsOrdinalIn history.now work.new)) }
    ensures grows { WorkGrows history.now work.old work.new }
    ensures out { result ≡ Err Stop.OutOfSteps → work.new.counter.used ≡ work.new.counter.limit }
{
    match law_fact(work, history, line) {
        Some(law) => {
            let found = instance_at(work, history, law, fixed, measure)?;
            match found {
                Some(fact) => ordinal_in(work, history, fact),
                None => Ok(None),
            }
        }
        None => Ok(None),
    }
}

/// The ordinal that serves for a measure m, and the line that it is one, by a law: m itself where it is a FIX, else
/// `(IF (ORDINALP m) m 0)`.
fn ordinal_by_law(work: &mut Work, history: &History, measure: TermId) -> Result<Option<Fact>, Stop>
    requires stands { WorkStands history.now work.old }
    requires measure { IsTermIn history.now work.old measure }
    ensures ordinal { IfOk result (λ found. IfSome found (IsOrdinalIn history.now work.new)) }
    ensures grows { WorkGrows history.now work.old work.new }
    ensures out { result ≡ Err Stop.OutOfSteps → work.new.counter.used ≡ work.new.counter.limit }
{
    let fixed = is_call_of(&work.bank, ground::FIX, measure);
    let line = law_line(work, history, fixed)?;
    ordinal_by(work, history, measure, fixed, line)
}

/// The ordinal that serves for a measure m, and the line that it is one: m itself where that is known, or where it is a FIX, else
/// `(IF (ORDINALP m) m 0)`.
pub fn ordinal_for(
    work: &mut Work,
    history: &History,
    measure: TermId,
) -> Result<Option<Fact>, Stop>
    requires stands { WorkStands history.now work.old }
    requires measure { IsTermIn history.now work.old measure }
    ensures ordinal { IfOk result (λ found. IfSome found (IsOrdinalIn history.now work.new)) }
    ensures grows { WorkGrows history.now work.old work.new }
    ensures out { result ≡ Err Stop.OutOfSteps → work.new.counter.used ≡ work.new.counter.limit }
{
    match known_ordinal(work, history, measure)? {
        Some(fact) => Ok(Some(fact)),
        None => ordinal_by_law(work, history, measure),
    }
}
