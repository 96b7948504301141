//! The scheme of one case whose test says that the measure falls where the goal is used: its lines are always there.
ghost use Rattle.std.specs.Prelude.{◌≡◌, ◌<◌, ◌∷◌, [], All, IfOk, Err, length};
ghost use Rattle.nq_logic.specs.Terms.{IsAmong};
ghost use Rattle.nq_logic.specs.Words.{not_term};
ghost use Rattle.nq_bank.specs.Content.{IsIdOf, term_at, terms_at};
ghost use Rattle.nq_kernel.specs.Growing.{WorkStands, WorkGrows, LineStands};
ghost use Rattle.nq_lines.specs.Lines.{IsTermIn, LineHasOnly, MakesOf};
ghost use Rattle.nq_lines.specs.Instances.{ArePairsIn};
ghost use Rattle.nq_induct.specs.Claims.{IsShownTruth};
ghost use Rattle.nq_induct.specs.Schemes.{IsCaseIn, IsSchemeIn};
ghost use Rattle.nq_schemes.specs.Single.{fall_of, HasCases, HasSteps};
ghost use Rattle.nq_schemes.specs.Steps.{IsBasisIn};

use crate::basis::Basis;
use crate::gathering::denials;
use crate::starting::{add_literal, below};
use nq_bank::TermId;
use nq_clause::Pair;
use nq_history::History;
use nq_induct::{Case, Scheme, gather, instance_of};
use nq_kernel::{Stop, Work};
use nq_lines::{Fact, deny, deny_twice, opposites};
use nq_rule::InductionStep;
use std::alloc::Global;

/// Makes that a measure falls where the pairs take it.
fn fall_at(
    work: &mut Work,
    history: &History,
    measure: TermId,
    pairs: &[Pair],
) -> Result<TermId, Stop>
    requires stands { WorkStands history.now work.old }
    requires measure { IsTermIn history.now work.old measure }
    requires pairs { ArePairsIn history.now work.old pairs.now }
    ensures falls { IfOk result (λ s. IsIdOf work.new.bank s (fall_of work.old.bank measure pairs.now)) }
    ensures over { IfOk result (λ s. IsTermIn history.now work.new s) }
    ensures grows { WorkGrows history.now work.old work.new }
    ensures out { result ≡ Err Stop.OutOfSteps → work.new.counter.used ≡ work.new.counter.limit }
{
    let smaller = instance_of(work, history, measure, pairs)?;
    below(work, history, smaller, measure)
}

/// What the test of the case denies: the denials of its tests, and that the measure does not fall.
fn denied_with(
    work: &mut Work,
    history: &History,
    tests: &[TermId],
    falls: TermId,
) -> Result<Vec<TermId>, Stop>
    requires stands { WorkStands history.now work.old }
    requires tests { All (IsTermIn history.now work.old) tests.now }
    requires falls { IsTermIn history.now work.old falls }
    ensures over { IfOk result (λ v. All (IsTermIn history.now work.new) v.items) }
    ensures some { IfOk result (λ v. 0 < length v.items) }
    ensures last { IfOk result (λ v. IsAmong (not_term (term_at work.old.bank falls)) (terms_at work.new.bank v.items)) }
    ensures grows { WorkGrows history.now work.old work.new }
    ensures out { result ≡ Err Stop.OutOfSteps → work.new.counter.used ≡ work.new.counter.limit }
{
    let mut literals = denials(work, history, tests)?;
    let denied = deny(work, history, falls)?;
    add_literal(&mut literals, denied)?;
    Ok(literals)
}

/// The claim of these literals, and the line of it and that the measure falls, where its denial is one of them.
fn fall_claim(
    work: &mut Work,
    history: &History,
    shown: Fact,
    literals: &[TermId],
    falls: TermId,
) -> Result<Fact, Stop>
    requires stands { WorkStands history.now work.old }
    requires truth { IsShownTruth history.now work.old shown }
    requires some { 0 < length literals.now }
    requires literals { All (IsTermIn history.now work.old) literals.now }
    requires falls { IsTermIn history.now work.old falls }
    requires last { IsAmong (not_term (term_at work.old.bank falls)) (terms_at work.old.bank literals.now) }
    ensures over { IfOk result (λ f. IsTermIn history.now work.new f.term) }
    ensures line { IfOk result (λ f. LineHasOnly work.new f.line (term_at work.new.bank f.term ∷ term_at work.old.bank falls ∷ [])) }
    ensures grows { WorkGrows history.now work.old work.new }
    ensures out { result ≡ Err Stop.OutOfSteps → work.new.counter.used ≡ work.new.counter.limit }
{
    let line = opposites(work, history, falls)?;
    gather(work, history, shown, literals, line)
}

/// The test that denies a claim, and a line with the test's denial in the claim's place.
fn test_of(work: &mut Work, history: &History, claim: Fact) -> Result<Fact, Stop>
    requires stands { WorkStands history.now work.old }
    requires term { IsTermIn history.now work.old claim.term }
    requires line { LineStands work.old claim.line }
    ensures over { IfOk result (λ f. IsTermIn history.now work.new f.term) }
    ensures line { IfOk result (λ f. MakesOf work.old work.new (term_at work.old.bank claim.term) (not_term (term_at work.new.bank f.term)) claim.line f.line) }
    ensures grows { WorkGrows history.now work.old work.new }
    ensures out { result ≡ Err Stop.OutOfSteps → work.new.counter.used ≡ work.new.counter.limit }
{
    let line = deny_twice(work, history, claim.term, claim.line)?;
    let term = deny(work, history, claim.term)?;
    Ok(Fact { term, line })
}

/// The test that these tests hold and that the measure falls, and the line that it fails or the measure falls.
fn fall_test(
    work: &mut Work,
    history: &History,
    shown: Fact,
    tests: &[TermId],
    falls: TermId,
) -> Result<Fact, Stop>
    requires stands { WorkStands history.now work.old }
    requires truth { IsShownTruth history.now work.old shown }
    requires tests { All (IsTermIn history.now work.old) tests.now }
    requires falls { IsTermIn history.now work.old falls }
    ensures over { IfOk result (λ f. IsTermIn history.now work.new f.term) }
    ensures line { IfOk result (λ f. LineHasOnly work.new f.line (not_term (term_at work.new.bank f.term) ∷ term_at work.old.bank falls ∷ [])) }
    ensures grows { WorkGrows history.now work.old work.new }
    ensures out { result ≡ Err Stop.OutOfSteps → work.new.counter.used ≡ work.new.counter.limit }
{
    let literals = denied_with(work, history, tests, falls)?;
    let claim = fall_claim(work, history, shown, literals.as_slice(), falls)?;
    test_of(work, history, claim)
}

/// The case of a test, with one step by its line.
fn case_with_step(alloc: Global, test: Fact, pairs: Vec<Pair>) -> Result<Case, Stop>
    ensures test { IfOk result (λ c. c.test ≡ test.term) }
    ensures steps { IfOk result (λ c. c.steps.items ≡ (record { line = test.line; pairs = pairs }) ∷ []) }
    ensures memory { result ≡ Err Stop.OutOfSteps → ⊥ }
{
    let line = test.line;
    let mut steps = Vec::new(alloc);
    match steps.push(InductionStep { line, pairs }) {
        Ok(()) => Ok(Case {
            test: test.term,
            steps,
        }),
        Err(_) => Err(Stop::Memory),
    }
}

/// The case in which the measure falls where the pairs take it.
fn single_case(
    work: &mut Work,
    history: &History,
    basis: &Basis,
    tests: &[TermId],
    pairs: Vec<Pair>,
) -> Result<Case, Stop>
    requires stands { WorkStands history.now work.old }
    requires basis { IsBasisIn history.now work.old basis.now }
    requires tests { All (IsTermIn history.now work.old) tests.now }
    requires pairs { ArePairsIn history.now work.old pairs.items }
    ensures case { IfOk result (IsCaseIn history.now work.new basis.now.measure) }
    ensures steps { IfOk result HasSteps }
    ensures grows { WorkGrows history.now work.old work.new }
    ensures out { result ≡ Err Stop.OutOfSteps → work.new.counter.used ≡ work.new.counter.limit }
{
    let falls = fall_at(work, history, basis.measure, pairs.as_slice())?;
    let test = fall_test(work, history, basis.shown, tests, falls)?;
    case_with_step(work.bank.alloc(), test, pairs)
}

/// One case.
fn one_case(alloc: Global, case: Case) -> Result<Vec<Case>, Stop>
    ensures is { IfOk result (λ v. v.items ≡ case ∷ []) }
    ensures memory { result ≡ Err Stop.OutOfSteps → ⊥ }
{
    let mut cases = Vec::new(alloc);
    match cases.push(case) {
        Ok(()) => Ok(cases),
        Err(_) => Err(Stop::Memory),
    }
}

/// The scheme of the case in which these tests hold and the measure falls where the pairs take it.
pub fn single_scheme(
    work: &mut Work,
    history: &History,
    basis: &Basis,
    tests: &[TermId],
    pairs: Vec<Pair>,
) -> Result<Scheme, Stop>
    requires stands { WorkStands history.now work.old }
    requires basis { IsBasisIn history.now work.old basis.now }
    requires tests { All (IsTermIn history.now work.old) tests.now }
    requires pairs { ArePairsIn history.now work.old pairs.items }
    ensures scheme { IfOk result (IsSchemeIn history.now work.new) }
    ensures cases { IfOk result HasCases }
    ensures steps { IfOk result (λ s. All HasSteps s.cases.items) }
    ensures grows { WorkGrows history.now work.old work.new }
    ensures out { result ≡ Err Stop.OutOfSteps → work.new.counter.used ≡ work.new.counter.limit }
{
    let case = single_case(work, history, basis, tests, pairs)?;
    let cases = one_case(work.bank.alloc(), case)?;
    Ok(Scheme {
        measure: basis.measure,
        ordinal: basis.ordinal,
        cases,
    })
}
