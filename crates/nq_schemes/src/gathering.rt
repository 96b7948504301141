//! Cases of a scheme with the lines of their steps.
ghost use Rattle.std.specs.Prelude.{◌≡◌, ◌<◌, All, IfOk, IfSome, OnOk, IsTrue, Err, length};
ghost use Rattle.nq_kernel.specs.Growing.{WorkStands, WorkGrows, LineStands};
ghost use Rattle.nq_rule.specs.Inductions.{fall_literals};
ghost use Rattle.nq_lines.specs.Lines.{IsTermIn, LineHasOnly};
ghost use Rattle.nq_lines.specs.Instances.{ArePairsIn};
ghost use Rattle.nq_induct.specs.Schemes.{IsStepIn, IsCaseIn};
ghost use Rattle.nq_schemes.specs.Known.{with_some};
ghost use Rattle.nq_schemes.specs.Steps.{IsBasisIn, IsStartIn};

use crate::basis::Basis;
use crate::draft::{DraftCase, Step};
use crate::known::is_known;
use crate::parted::Test;
use crate::starting::{add_literal, start_of};
use nq_bank::TermId;
use nq_clause::Pair;
use nq_history::History;
use nq_induct::{Case, claim_of, gather};
use nq_kernel::{Stop, Work};
use nq_lines::{deny, deny_twice};
use nq_rule::{InductionStep, is_fall_line};
use std::alloc::Global;

/// A test as it governs.
fn governed_by(work: &mut Work, history: &History, test: Test) -> Result<TermId, Stop>
    requires stands { WorkStands history.now work.old }
    requires test { IsTermIn history.now work.old test.term }
    ensures test { IfOk result (λ t. IsTermIn history.now work.new t) }
    ensures grows { WorkGrows history.now work.old work.new }
    ensures out { result ≡ Err Stop.OutOfSteps → work.new.counter.used ≡ work.new.counter.limit }
{
    if test.holds {
        return Ok(test.term);
    }
    deny(work, history, test.term)
}

/// A test as it governs, where its term is known.
fn governing(
    work: &mut Work,
    history: &History,
    basis: &Basis,
    test: Test,
) -> Result<Option<TermId>, Stop>
    requires stands { WorkStands history.now work.old }
    requires basis { IsBasisIn history.now work.old basis.now }
    ensures test { IfOk result (λ found. IfSome found (IsTermIn history.now work.new)) }
    ensures grows { WorkGrows history.now work.old work.new }
    ensures out { result ≡ Err Stop.OutOfSteps → work.new.counter.used ≡ work.new.counter.limit }
{
    if !is_known(work, history, basis.opened.as_slice(), test.term) {
        return Ok(None);
    }
    let governed = governed_by(work, history, test)?;
    Ok(Some(governed))
}

/// One term more, if there is one.
fn add_term(terms: &mut Vec<TermId>, found: Option<TermId>) -> Result<(), Stop>
    ensures more { OnOk result (terms.new.items ≡ with_some terms.old.items found) }
    ensures memory { result ≡ Err Stop.OutOfSteps → ⊥ }
{
    match found {
        Some(t) => add_literal(terms, t),
        None => Ok(()),
    }
}

/// Tests as they govern, those whose terms are known.
pub fn governing_all(
    work: &mut Work,
    history: &History,
    basis: &Basis,
    tests: &[Test],
) -> Result<Vec<TermId>, Stop>
    requires stands { WorkStands history.now work.old }
    requires basis { IsBasisIn history.now work.old basis.now }
    ensures tests { IfOk result (λ v. All (IsTermIn history.now work.new) v.items) }
    ensures grows { WorkGrows history.now work.old work.new }
    ensures out { result ≡ Err Stop.OutOfSteps → work.new.counter.used ≡ work.new.counter.limit }
{
    let mut governed = Vec::new(work.bank.alloc());
    for test in tests {
        let found = governing(work, history, basis, *test)?;
        add_term(&mut governed, found)?;
    }
    Ok(governed)
}

/// Makes the NOTs of terms.
pub fn denials(work: &mut Work, history: &History, terms: &[TermId]) -> Result<Vec<TermId>, Stop>
    requires stands { WorkStands history.now work.old }
    requires terms { All (IsTermIn history.now work.old) terms.now }
    ensures denials { IfOk result (λ v. All (IsTermIn history.now work.new) v.items) }
    ensures grows { WorkGrows history.now work.old work.new }
    ensures out { result ≡ Err Stop.OutOfSteps → work.new.counter.used ≡ work.new.counter.limit }
{
    let mut denied = Vec::new(work.bank.alloc());
    for t in terms {
        let d = deny(work, history, *t)?;
        add_literal(&mut denied, d)?;
    }
    Ok(denied)
}

/// One step more, if there is one.
fn add_step(steps: &mut Vec<InductionStep>, found: Option<InductionStep>) -> Result<(), Stop>
    ensures more { OnOk result (steps.new.items ≡ with_some steps.old.items found) }
    ensures memory { result ≡ Err Stop.OutOfSteps → ⊥ }
{
    match found {
        Some(step) => match steps.push(step) {
            Ok(()) => Ok(()),
            Err(_) => Err(Stop::Memory),
        },
        None => Ok(()),
    }
}

/// The steps of a case with lines that are not gathered yet.
fn starts_of(
    work: &mut Work,
    history: &History,
    basis: &Basis,
    tests: &[TermId],
    literals: &mut Vec<TermId>,
    steps: &[Step],
) -> Result<Vec<InductionStep>, Stop>
    requires stands { WorkStands history.now work.old }
    requires basis { IsBasisIn history.now work.old basis.now }
    requires tests { All (IsTermIn history.now work.old) tests.now }
    requires literals { All (IsTermIn history.now work.old) literals.old.items }
    ensures starts { IfOk result (λ v. All (IsStartIn history.now work.new) v.items) }
    ensures literals { OnOk result (All (IsTermIn history.now work.new) literals.new.items) }
    ensures grows { WorkGrows history.now work.old work.new }
    ensures out { result ≡ Err Stop.OutOfSteps → work.new.counter.used ≡ work.new.counter.limit }
{
    let mut starts = Vec::new(work.bank.alloc());
    for step in steps {
        let found = start_of(work, history, basis, tests, literals, step)?;
        add_step(&mut starts, found)?;
    }
    Ok(starts)
}

/// Has a line only that the test fails, and that the measure falls where the pairs take it?
fn is_fall(
    work: &Work,
    history: &History,
    measure: TermId,
    test: TermId,
    pairs: &[Pair],
    line: u64,
) -> Result<bool, Stop>
    requires stands { WorkStands history.now work.now }
    requires measure { IsTermIn history.now work.now measure }
    requires test { IsTermIn history.now work.now test }
    requires pairs { ArePairsIn history.now work.now pairs.now }
    requires line { LineStands work.now line }
    ensures falls { IfOk result (λ b. IsTrue b → LineHasOnly work.now line (fall_literals work.now.bank measure test pairs.now)) }
    ensures memory { result ≡ Err Stop.OutOfSteps → ⊥ }
{
    let clause = work.log.clause_over(&work.bank, line);
    match is_fall_line(&work.bank, measure, test, pairs, clause) {
        Ok(falls) => Ok(falls),
        Err(_) => Err(Stop::Memory),
    }
}

/// A copy of pairs.
fn copied(alloc: Global, pairs: &[Pair]) -> Result<Vec<Pair>, Stop>
    ensures copy { IfOk result (λ v. v.items ≡ pairs.now) }
    ensures memory { result ≡ Err Stop.OutOfSteps → ⊥ }
{
    match Vec::from_slice(alloc, pairs) {
        Ok(copy) => Ok(copy),
        Err(_) => Err(Stop::Memory),
    }
}

/// A line with the test of a case in the place of its literals.
fn gathered(
    work: &mut Work,
    history: &History,
    basis: &Basis,
    literals: &[TermId],
    line: u64,
) -> Result<u64, Stop>
    requires stands { WorkStands history.now work.old }
    requires basis { IsBasisIn history.now work.old basis.now }
    requires some { 0 < length literals.now }
    requires literals { All (IsTermIn history.now work.old) literals.now }
    requires line { LineStands work.old line }
    ensures line { IfOk result (λ n. LineStands work.new n) }
    ensures grows { WorkGrows history.now work.old work.new }
    ensures out { result ≡ Err Stop.OutOfSteps → work.new.counter.used ≡ work.new.counter.limit }
{
    let fact = gather(work, history, basis.shown, literals, line)?;
    deny_twice(work, history, fact.term, fact.line)
}

/// A step, if its line is what it should be.
fn tested(
    work: &Work,
    history: &History,
    basis: &Basis,
    test: TermId,
    step: InductionStep,
) -> Result<Option<InductionStep>, Stop>
    requires stands { WorkStands history.now work.now }
    requires basis { IsBasisIn history.now work.now basis.now }
    requires test { IsTermIn history.now work.now test }
    requires step { IsStartIn history.now work.now step }
    ensures step { IfOk result (λ found. IfSome found (IsStepIn history.now work.now basis.now.measure test)) }
    ensures memory { result ≡ Err Stop.OutOfSteps → ⊥ }
{
    let falls = is_fall(
        work,
        history,
        basis.measure,
        test,
        step.pairs.as_slice(),
        step.line,
    )?;
    if falls { Ok(Some(step)) } else { Ok(None) }
}

/// A step with its line, if that is what it should be.
fn step_of(
    work: &mut Work,
    history: &History,
    basis: &Basis,
    test: TermId,
    literals: &[TermId],
    start: &InductionStep,
) -> Result<Option<InductionStep>, Stop>
    requires stands { WorkStands history.now work.old }
    requires basis { IsBasisIn history.now work.old basis.now }
    requires test { IsTermIn history.now work.old test }
    requires some { 0 < length literals.now }
    requires literals { All (IsTermIn history.now work.old) literals.now }
    requires start { IsStartIn history.now work.old start.now }
    ensures step { IfOk result (λ found. IfSome found (IsStepIn history.now work.new basis.now.measure test)) }
    ensures grows { WorkGrows history.now work.old work.new }
    ensures out { result ≡ Err Stop.OutOfSteps → work.new.counter.used ≡ work.new.counter.limit }
{
    let line = gathered(work, history, basis, literals, start.line)?;
    let pairs = copied(work.bank.alloc(), start.pairs.as_slice())?;
    tested(work, history, basis, test, InductionStep { line, pairs })
}

/// The steps of a case with their lines.
fn steps_of(
    work: &mut Work,
    history: &History,
    basis: &Basis,
    test: TermId,
    literals: &[TermId],
    starts: &[InductionStep],
) -> Result<Vec<InductionStep>, Stop>
    requires stands { WorkStands history.now work.old }
    requires basis { IsBasisIn history.now work.old basis.now }
    requires test { IsTermIn history.now work.old test }
    requires some { 0 < length literals.now }
    requires literals { All (IsTermIn history.now work.old) literals.now }
    requires starts { All (IsStartIn history.now work.old) starts.now }
    ensures steps { IfOk result (λ v. All (IsStepIn history.now work.new basis.now.measure test) v.items) }
    ensures grows { WorkGrows history.now work.old work.new }
    ensures out { result ≡ Err Stop.OutOfSteps → work.new.counter.used ≡ work.new.counter.limit }
{
    let mut steps = Vec::new(work.bank.alloc());
    for start in starts {
        let found = step_of(work, history, basis, test, literals, start)?;
        add_step(&mut steps, found)?;
    }
    Ok(steps)
}

/// The case whose test is that none of the literals holds.
fn case_by(
    work: &mut Work,
    history: &History,
    basis: &Basis,
    literals: &[TermId],
    starts: &[InductionStep],
) -> Result<Case, Stop>
    requires stands { WorkStands history.now work.old }
    requires basis { IsBasisIn history.now work.old basis.now }
    requires some { 0 < length literals.now }
    requires literals { All (IsTermIn history.now work.old) literals.now }
    requires starts { All (IsStartIn history.now work.old) starts.now }
    ensures case { IfOk result (IsCaseIn history.now work.new basis.now.measure) }
    ensures grows { WorkGrows history.now work.old work.new }
    ensures out { result ≡ Err Stop.OutOfSteps → work.new.counter.used ≡ work.new.counter.limit }
{
    let claim = claim_of(work, history, basis.shown.term, literals)?;
    let test = deny(work, history, claim)?;
    let steps = steps_of(work, history, basis, test, literals, starts)?;
    Ok(Case { test, steps })
}

/// The case whose test is that none of the literals holds, if there are any.
fn case_with(
    work: &mut Work,
    history: &History,
    basis: &Basis,
    literals: &[TermId],
    starts: &[InductionStep],
) -> Result<Option<Case>, Stop>
    requires stands { WorkStands history.now work.old }
    requires basis { IsBasisIn history.now work.old basis.now }
    requires literals { All (IsTermIn history.now work.old) literals.now }
    requires starts { All (IsStartIn history.now work.old) starts.now }
    ensures case { IfOk result (λ found. IfSome found (IsCaseIn history.now work.new basis.now.measure)) }
    ensures grows { WorkGrows history.now work.old work.new }
    ensures out { result ≡ Err Stop.OutOfSteps → work.new.counter.used ≡ work.new.counter.limit }
{
    if literals.is_empty() {
        return Ok(None);
    }
    let made = case_by(work, history, basis, literals, starts)?;
    Ok(Some(made))
}

/// A case of the draft with its lines, if it has tests.
pub fn case_of(
    work: &mut Work,
    history: &History,
    basis: &Basis,
    case: &DraftCase,
) -> Result<Option<Case>, Stop>
    requires stands { WorkStands history.now work.old }
    requires basis { IsBasisIn history.now work.old basis.now }
    ensures case { IfOk result (λ found. IfSome found (IsCaseIn history.now work.new basis.now.measure)) }
    ensures grows { WorkGrows history.now work.old work.new }
    ensures out { result ≡ Err Stop.OutOfSteps → work.new.counter.used ≡ work.new.counter.limit }
{
    let tests = governing_all(work, history, basis, case.tests.as_slice())?;
    let mut literals = denials(work, history, tests.as_slice())?;
    let steps = case.steps.as_slice();
    let starts = starts_of(work, history, basis, tests.as_slice(), &mut literals, steps)?;
    case_with(work, history, basis, literals.as_slice(), starts.as_slice())
}
