//! The lines of steps before they are gathered: that the measure falls is shown under the tests, or becomes a test itself.
ghost use Rattle.std.specs.Prelude.{◌≡◌, ◌++◌, ◌∷◌, [], All, IfOk, IfSome, OnOk, Err};
ghost use Rattle.nq_logic.specs.Words.{call2};
ghost use Rattle.nq_bank.specs.Content.{IsIdOf, term_at};
ghost use Rattle.nq_kernel.specs.Growing.{WorkStands, WorkGrows, LineStands};
ghost use Rattle.nq_lines.specs.Lines.{IsTermIn};
ghost use Rattle.nq_lines.specs.Instances.{ArePairsIn};
ghost use Rattle.nq_schemes.specs.Steps.{IsBasisIn, IsStartIn, IsDeniedIn};

use crate::basis::Basis;
use crate::draft::{Change, Step};
use crate::instances::instance_of;
use crate::known::{is_known, pairs_of};
use crate::owed::line_at_hand;
use crate::sizes::part_line;
use crate::steps::becomes;
use nq_bank::{TermId, ground, ground_name};
use nq_clause::Pair;
use nq_history::History;
use nq_kernel::{Stop, Work};
use nq_lines::{Fact, deny, opposites};
use nq_rule::InductionStep;
use std::alloc::Global;

/// Makes that one measure is below another.
pub fn below(work: &mut Work, history: &History, t: TermId, u: TermId) -> Result<TermId, Stop>
    requires stands { WorkStands history.now work.old }
    requires left { IsTermIn history.now work.old t }
    requires right { IsTermIn history.now work.old u }
    ensures below { IfOk result (λ s. IsIdOf work.new.bank s (call2 "ORD-LESSP" (term_at work.old.bank t) (term_at work.old.bank u))) }
    ensures over { IfOk result (λ s. IsTermIn history.now work.new s) }
    ensures grows { WorkGrows history.now work.old work.new }
    ensures out { result ≡ Err Stop.OutOfSteps → work.new.counter.used ≡ work.new.counter.limit }
{
    let name = ground_name(&work.bank, ground::ORD_LESSP);
    work.app(history, name, &[t, u])
}

/// Makes that the measure falls where the pairs take it.
pub fn falls_at(
    work: &mut Work,
    history: &History,
    basis: &Basis,
    pairs: &[Pair],
) -> Result<TermId, Stop>
    requires stands { WorkStands history.now work.old }
    requires basis { IsBasisIn history.now work.old basis.now }
    requires pairs { ArePairsIn history.now work.old pairs.now }
    ensures over { IfOk result (λ s. IsTermIn history.now work.new s) }
    ensures grows { WorkGrows history.now work.old work.new }
    ensures out { result ≡ Err Stop.OutOfSteps → work.new.counter.used ≡ work.new.counter.limit }
{
    let smaller = instance_of(work, history, basis.measure, pairs)?;
    below(work, history, smaller, basis.measure)
}

/// The denial of a term, and the line of the term and its denial.
fn denial_of(work: &mut Work, history: &History, t: TermId) -> Result<Fact, Stop>
    requires stands { WorkStands history.now work.old }
    requires term { IsTermIn history.now work.old t }
    ensures denied { IfOk result (IsDeniedIn history.now work.new) }
    ensures grows { WorkGrows history.now work.old work.new }
    ensures out { result ≡ Err Stop.OutOfSteps → work.new.counter.used ≡ work.new.counter.limit }
{
    let term = deny(work, history, t)?;
    let line = opposites(work, history, t)?;
    Ok(Fact { term, line })
}

/// One literal more.
pub fn add_literal(literals: &mut Vec<TermId>, literal: TermId) -> Result<(), Stop>
    ensures more { OnOk result (literals.new.items ≡ literals.old.items ++ literal ∷ []) }
    ensures memory { result ≡ Err Stop.OutOfSteps → ⊥ }
{
    match literals.push(literal) {
        Ok(()) => Ok(()),
        Err(_) => Err(Stop::Memory),
    }
}

/// Literals, and one more.
pub fn with_literal(alloc: Global, literals: &[TermId], more: TermId) -> Result<Vec<TermId>, Stop>
    ensures all { IfOk result (λ v. v.items ≡ literals.now ++ more ∷ []) }
    ensures memory { result ≡ Err Stop.OutOfSteps → ⊥ }
{
    match Vec::from_slice(alloc, literals) {
        Ok(mut all) => {
            add_literal(&mut all, more)?;
            Ok(all)
        }
        Err(_) => Err(Stop::Memory),
    }
}

/// The line of a step that the tests do not show at once; that the measure does not fall there is added to the literals where no
/// other line is found.
fn further_line(
    work: &mut Work,
    history: &History,
    basis: &Basis,
    literals: &mut Vec<TermId>,
    pairs: &[Pair],
) -> Result<u64, Stop>
    requires stands { WorkStands history.now work.old }
    requires basis { IsBasisIn history.now work.old basis.now }
    requires literals { All (IsTermIn history.now work.old) literals.old.items }
    requires pairs { ArePairsIn history.now work.old pairs.now }
    ensures line { IfOk result (λ n. LineStands work.new n) }
    ensures literals { OnOk result (All (IsTermIn history.now work.new) literals.new.items) }
    ensures grows { WorkGrows history.now work.old work.new }
    ensures out { result ≡ Err Stop.OutOfSteps → work.new.counter.used ≡ work.new.counter.limit }
{
    let falls = falls_at(work, history, basis, pairs)?;
    let goal = with_literal(work.bank.alloc(), literals.as_slice(), falls)?;
    let found = line_at_hand(work, history, basis.arithmetic, goal.as_slice(), falls)?;
    match found {
        Some(line) => Ok(line),
        None => fall_line(work, history, literals, falls),
    }
}

/// The line of a step where that the measure does not fall is among the literals.
fn fall_line(
    work: &mut Work,
    history: &History,
    literals: &mut Vec<TermId>,
    falls: TermId,
) -> Result<u64, Stop>
    requires stands { WorkStands history.now work.old }
    requires literals { All (IsTermIn history.now work.old) literals.old.items }
    requires falls { IsTermIn history.now work.old falls }
    ensures line { IfOk result (λ n. LineStands work.new n) }
    ensures literals { OnOk result (All (IsTermIn history.now work.new) literals.new.items) }
    ensures grows { WorkGrows history.now work.old work.new }
    ensures out { result ≡ Err Stop.OutOfSteps → work.new.counter.used ≡ work.new.counter.limit }
{
    let fact = denial_of(work, history, falls)?;
    add_literal(literals, fact.term)?;
    Ok(fact.line)
}

/// The line that the part which a variable becomes is smaller, where the measure is the variable's size and the tests say so.
pub fn nest_line(
    work: &mut Work,
    history: &History,
    basis: &Basis,
    tests: &[TermId],
    changes: &[Change],
) -> Result<Option<u64>, Stop>
    requires stands { WorkStands history.now work.old }
    requires basis { IsBasisIn history.now work.old basis.now }
    requires tests { All (IsTermIn history.now work.old) tests.now }
    ensures line { IfOk result (λ found. IfSome found (LineStands work.new)) }
    ensures grows { WorkGrows history.now work.old work.new }
    ensures memory { result ≡ Err Stop.OutOfSteps → ⊥ }
{
    match basis.sized {
        Some(whole) => {
            let part = becomes(changes, whole.variable);
            if !is_known(work, history, basis.opened.as_slice(), part) {
                return Ok(None);
            }
            part_line(work, history, whole, part, tests)
        }
        None => Ok(None),
    }
}

/// The line of a step; that the measure does not fall there is added to the literals where no other line is found.
fn start_line(
    work: &mut Work,
    history: &History,
    basis: &Basis,
    tests: &[TermId],
    literals: &mut Vec<TermId>,
    changes: &[Change],
    pairs: &[Pair],
) -> Result<u64, Stop>
    requires stands { WorkStands history.now work.old }
    requires basis { IsBasisIn history.now work.old basis.now }
    requires tests { All (IsTermIn history.now work.old) tests.now }
    requires literals { All (IsTermIn history.now work.old) literals.old.items }
    requires pairs { ArePairsIn history.now work.old pairs.now }
    ensures line { IfOk result (λ n. LineStands work.new n) }
    ensures literals { OnOk result (All (IsTermIn history.now work.new) literals.new.items) }
    ensures grows { WorkGrows history.now work.old work.new }
    ensures out { result ≡ Err Stop.OutOfSteps → work.new.counter.used ≡ work.new.counter.limit }
{
    let found = nest_line(work, history, basis, tests, changes)?;
    match found {
        Some(line) => Ok(line),
        None => further_line(work, history, basis, literals, pairs),
    }
}

/// A step with these pairs, and a line that is not gathered yet.
fn start_with(
    work: &mut Work,
    history: &History,
    basis: &Basis,
    tests: &[TermId],
    literals: &mut Vec<TermId>,
    changes: &[Change],
    pairs: Vec<Pair>,
) -> Result<InductionStep, Stop>
    requires stands { WorkStands history.now work.old }
    requires basis { IsBasisIn history.now work.old basis.now }
    requires tests { All (IsTermIn history.now work.old) tests.now }
    requires literals { All (IsTermIn history.now work.old) literals.old.items }
    requires pairs { ArePairsIn history.now work.old pairs.items }
    ensures start { IfOk result (IsStartIn history.now work.new) }
    ensures literals { OnOk result (All (IsTermIn history.now work.new) literals.new.items) }
    ensures grows { WorkGrows history.now work.old work.new }
    ensures out { result ≡ Err Stop.OutOfSteps → work.new.counter.used ≡ work.new.counter.limit }
{
    let line = start_line(
        work,
        history,
        basis,
        tests,
        literals,
        changes,
        pairs.as_slice(),
    )?;
    Ok(InductionStep { line, pairs })
}

/// A step with a line that is not gathered yet, where its terms are known.
pub fn start_of(
    work: &mut Work,
    history: &History,
    basis: &Basis,
    tests: &[TermId],
    literals: &mut Vec<TermId>,
    step: &Step,
) -> Result<Option<InductionStep>, Stop>
    requires stands { WorkStands history.now work.old }
    requires basis { IsBasisIn history.now work.old basis.now }
    requires tests { All (IsTermIn history.now work.old) tests.now }
    requires literals { All (IsTermIn history.now work.old) literals.old.items }
    ensures start { IfOk result (λ found. IfSome found (IsStartIn history.now work.new)) }
    ensures literals { OnOk result (All (IsTermIn history.now work.new) literals.new.items) }
    ensures grows { WorkGrows history.now work.old work.new }
    ensures out { result ≡ Err Stop.OutOfSteps → work.new.counter.used ≡ work.new.counter.limit }
{
    let changes = step.changes.as_slice();
    let found = pairs_of(work, history, basis.opened.as_slice(), changes)?;
    match found {
        Some(pairs) => {
            let start = start_with(work, history, basis, tests, literals, changes, pairs)?;
            Ok(Some(start))
        }
        None => Ok(None),
    }
}
