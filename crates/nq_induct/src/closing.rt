//! The way back from the goals of an induction to a line of the goal.
ghost use Rattle.std.specs.Prelude.{◌≡◌, ◌<◌, ◌+◌, ◌++◌, ◌∷◌, [], All, IfOk, OnOk, Err, length, map, get_or};
ghost use Rattle.nq_bank.specs.Content.{term_at, terms_at};
ghost use Rattle.nq_proof.specs.Rules.{case_tests};
ghost use Rattle.nq_rule.specs.Inductions.{cases_at};
ghost use Rattle.nq_kernel.specs.Growing.{WorkStands, WorkGrows};
ghost use Rattle.nq_lines.specs.Lines.{IsTermIn, LineHasOnly};
ghost use Rattle.nq_induct.specs.declared.scheme.Case.{Case};
ghost use Rattle.nq_induct.specs.Claims.{any_of, IsShownTruth};
ghost use Rattle.nq_induct.specs.Schemes.{IsSchemeIn};
ghost use Rattle.nq_induct.specs.Goals.{AreShown, AreTermsIn, IsShownCase, contents_of, goals_at, step_goal};

use crate::claims::{gather, known_truth, open_claim};
use crate::instances::copied_pairs;
use crate::scheme::Scheme;
use nq_bank::TermId;
use nq_history::History;
use nq_kernel::{Rule, Stop, Work};
use nq_lines::Fact;
use nq_rule::{CaseOfInduction, InductionStep};
use std::alloc::Global;

/// One substitution more.
fn add_step(steps: &mut Vec<InductionStep>, step: InductionStep) -> Result<(), Stop>
    ensures more { OnOk result (steps.new.items ≡ steps.old.items ++ step ∷ []) }
    ensures memory { result ≡ Err Stop.OutOfSteps → ⊥ }
{
    match steps.push(step) {
        Ok(()) => Ok(()),
        Err(_) => Err(Stop::Memory),
    }
}

/// A copy of the substitutions of a case.
fn copied_steps(alloc: Global, steps: &[InductionStep]) -> Result<Vec<InductionStep>, Stop>
    ensures copy { IfOk result (λ v. contents_of v.items ≡ contents_of steps.now) }
    ensures memory { result ≡ Err Stop.OutOfSteps → ⊥ }
{
    let mut copy = Vec::new(alloc);
    for step in steps {
        let pairs = copied_pairs(alloc, step.pairs.as_slice())?;
        add_step(
            &mut copy,
            InductionStep {
                line: step.line,
                pairs,
            },
        )?;
    }
    Ok(copy)
}

/// A case of the scheme with the line that proves it, from a line of its goal.
fn shown_case(
    work: &mut Work,
    history: &History,
    shown: Fact,
    scheme: &Scheme,
    place: usize,
    goal: &[TermId],
    line: u64,
) -> Result<CaseOfInduction, Stop>
    requires stands { WorkStands history.now work.old }
    requires truth { IsShownTruth history.now work.old shown }
    requires scheme { IsSchemeIn history.now work.old scheme.now }
    requires place { place < length scheme.now.cases.items }
    requires some { 0 < length goal.now }
    requires goal { AreTermsIn history.now work.old goal.now }
    requires line { (d : Case) → LineHasOnly work.old line (step_goal work.old.bank (terms_at work.old.bank goal.now) (get_or scheme.now.cases.items place d)) }
    ensures case { IfOk result (IsShownCase history.now work.new scheme.now.measure (any_of (terms_at work.old.bank goal.now))) }
    ensures test { IfOk result (λ c. (d : Case) → c.test ≡ (get_or scheme.now.cases.items place d).test) }
    ensures grows { WorkGrows history.now work.old work.new }
    ensures out { result ≡ Err Stop.OutOfSteps → work.new.counter.used ≡ work.new.counter.limit }
{
    let cases = scheme.cases.as_slice();
    let case = &cases[place];
    let fact = gather(work, history, shown, goal, line)?;
    let steps = copied_steps(work.bank.alloc(), case.steps.as_slice())?;
    Ok(CaseOfInduction {
        test: case.test,
        line: fact.line,
        steps,
    })
}

/// One case more.
fn add_case(cases: &mut Vec<CaseOfInduction>, case: CaseOfInduction) -> Result<(), Stop>
    ensures more { OnOk result (cases.new.items ≡ cases.old.items ++ case ∷ []) }
    ensures memory { result ≡ Err Stop.OutOfSteps → ⊥ }
{
    match cases.push(case) {
        Ok(()) => Ok(()),
        Err(_) => Err(Stop::Memory),
    }
}

/// The cases of the scheme with the lines that prove them, from lines of the goals.
fn shown_cases(
    work: &mut Work,
    history: &History,
    shown: Fact,
    scheme: &Scheme,
    goal: &[TermId],
    lines: &[u64],
) -> Result<Vec<CaseOfInduction>, Stop>
    requires stands { WorkStands history.now work.old }
    requires truth { IsShownTruth history.now work.old shown }
    requires scheme { IsSchemeIn history.now work.old scheme.now }
    requires some { 0 < length goal.now }
    requires goal { AreTermsIn history.now work.old goal.now }
    requires lines { AreShown work.old (goals_at work.old.bank scheme.now goal.now) lines.now }
    ensures cases { IfOk result (λ v. All (IsShownCase history.now work.new scheme.now.measure (any_of (terms_at work.old.bank goal.now))) v.items) }
    ensures tests { IfOk result (λ v. map (λ c. c.test) v.items ≡ map (λ c. c.test) scheme.now.cases.items) }
    ensures grows { WorkGrows history.now work.old work.new }
    ensures out { result ≡ Err Stop.OutOfSteps → work.new.counter.used ≡ work.new.counter.limit }
{
    let mut cases = Vec::new(work.bank.alloc());
    for place in 0..scheme.cases.len() {
        let case = shown_case(work, history, shown, scheme, place, goal, lines[place + 1])?;
        add_case(&mut cases, case)?;
    }
    Ok(cases)
}

/// Adds the line of an induction, from the lines of its cases and of its base case.
fn add_induction(
    work: &mut Work,
    history: &History,
    scheme: &Scheme,
    claim: TermId,
    base: u64,
    cases: Vec<CaseOfInduction>,
) -> Result<u64, Stop>
    requires stands { WorkStands history.now work.old }
    requires scheme { IsSchemeIn history.now work.old scheme.now }
    requires claim { IsTermIn history.now work.old claim }
    requires cases { All (IsShownCase history.now work.old scheme.now.measure (term_at work.old.bank claim)) cases.items }
    requires base { LineHasOnly work.old base (case_tests (cases_at work.old.bank cases.items) ++ (term_at work.old.bank claim ∷ [])) }
    ensures line { IfOk result (λ n. LineHasOnly work.new n (term_at work.old.bank claim ∷ [])) }
    ensures grows { WorkGrows history.now work.old work.new }
    ensures out { result ≡ Err Stop.OutOfSteps → work.new.counter.used ≡ work.new.counter.limit }
{
    work.add(
        history,
        Rule::Induct(claim, scheme.measure, scheme.ordinal, base, cases),
    )
}

/// Adds a line of the goal, from lines of the goals of an induction on it by the scheme.
pub fn close_induction(
    work: &mut Work,
    history: &History,
    scheme: &Scheme,
    goal: &[TermId],
    lines: &[u64],
) -> Result<u64, Stop>
    requires stands { WorkStands history.now work.old }
    requires scheme { IsSchemeIn history.now work.old scheme.now }
    requires some { 0 < length goal.now }
    requires goal { AreTermsIn history.now work.old goal.now }
    requires lines { AreShown work.old (goals_at work.old.bank scheme.now goal.now) lines.now }
    ensures line { IfOk result (λ n. LineHasOnly work.new n (terms_at work.old.bank goal.now)) }
    ensures grows { WorkGrows history.now work.old work.new }
    ensures out { result ≡ Err Stop.OutOfSteps → work.new.counter.used ≡ work.new.counter.limit }
{
    let shown = known_truth(work, history)?;
    let base = gather(work, history, shown, goal, lines[0])?;
    let cases = shown_cases(work, history, shown, scheme, goal, lines)?;
    let line = add_induction(work, history, scheme, base.term, base.line, cases)?;
    open_claim(work, history, shown.term, goal, base.term, line)
}
