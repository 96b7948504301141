//! The goals of an induction.
ghost use Rattle.std.specs.Prelude.{◌≡◌, ◌<◌, ◌++◌, ◌∷◌, [], All, IfOk, OnOk, Err, length, map};
ghost use Rattle.nq_logic.specs.Terms.{substituted};
ghost use Rattle.nq_logic.specs.Words.{not_term};
ghost use Rattle.nq_logic.specs.Laws.{denied};
ghost use Rattle.nq_bank.specs.Content.{IsIdOf, term_at, terms_at};
ghost use Rattle.nq_clause.specs.Substitution.{substitution_at};
ghost use Rattle.nq_rule.specs.Inductions.{substitutions_at};
ghost use Rattle.nq_kernel.specs.Growing.{WorkStands, WorkGrows};
ghost use Rattle.nq_lines.specs.Lines.{IsTermIn};
ghost use Rattle.nq_lines.specs.Instances.{ArePairsIn};
ghost use Rattle.nq_induct.specs.Claims.{any_of};
ghost use Rattle.nq_induct.specs.Schemes.{IsSchemeIn};
ghost use Rattle.nq_induct.specs.Goals.{AreTermsIn, clauses_at, goals_at, step_goal};

use crate::claims::claim_of;
use crate::instances::instance_of;
use crate::scheme::{Case, Scheme};
use nq_bank::TermId;
use nq_history::History;
use nq_kernel::{Stop, Work};
use nq_lines::{deny, truth};
use nq_rule::InductionStep;
use std::alloc::Global;

/// One literal more.
fn add_literal(literals: &mut Vec<TermId>, literal: TermId) -> Result<(), Stop>
    ensures more { OnOk result (literals.new.items ≡ literals.old.items ++ literal ∷ []) }
    ensures memory { result ≡ Err Stop.OutOfSteps → ⊥ }
{
    match literals.push(literal) {
        Ok(()) => Ok(()),
        Err(_) => Err(Stop::Memory),
    }
}

/// These literals more.
fn add_literals(literals: &mut Vec<TermId>, more: &[TermId]) -> Result<(), Stop>
    ensures more { OnOk result (literals.new.items ≡ literals.old.items ++ more.now) }
    ensures memory { result ≡ Err Stop.OutOfSteps → ⊥ }
{
    match literals.extend_from_slice(more) {
        Ok(()) => Ok(()),
        Err(_) => Err(Stop::Memory),
    }
}

/// One goal more.
fn add_goal(goals: &mut Vec<Vec<TermId>>, goal: Vec<TermId>) -> Result<(), Stop>
    ensures more { OnOk result (goals.new.items ≡ goals.old.items ++ goal ∷ []) }
    ensures memory { result ≡ Err Stop.OutOfSteps → ⊥ }
{
    match goals.push(goal) {
        Ok(()) => Ok(()),
        Err(_) => Err(Stop::Memory),
    }
}

/// The tests of the cases, and then the literals of the goal.
fn base_of(alloc: Global, cases: &[Case], goal: &[TermId]) -> Result<Vec<TermId>, Stop>
    ensures literals { IfOk result (λ v. v.items ≡ map (λ c. c.test) cases.now ++ goal.now) }
    ensures memory { result ≡ Err Stop.OutOfSteps → ⊥ }
{
    let mut literals = Vec::new(alloc);
    for case in cases {
        add_literal(&mut literals, case.test)?;
    }
    add_literals(&mut literals, goal)?;
    Ok(literals)
}

/// Makes the denial of the claim at a substitution.
fn hypothesis_of(
    work: &mut Work,
    history: &History,
    claim: TermId,
    step: &InductionStep,
) -> Result<TermId, Stop>
    requires stands { WorkStands history.now work.old }
    requires claim { IsTermIn history.now work.old claim }
    requires pairs { ArePairsIn history.now work.old step.now.pairs.items }
    ensures hypothesis { IfOk result (λ d. IsIdOf work.new.bank d (not_term (substituted (substitution_at work.old.bank step.now.pairs.items) (term_at work.old.bank claim)))) }
    ensures over { IfOk result (λ d. IsTermIn history.now work.new d) }
    ensures grows { WorkGrows history.now work.old work.new }
    ensures out { result ≡ Err Stop.OutOfSteps → work.new.counter.used ≡ work.new.counter.limit }
{
    let instance = instance_of(work, history, claim, step.pairs.as_slice())?;
    deny(work, history, instance)
}

/// Makes the denials of the claim at the substitutions of a case.
fn hypotheses_of(
    work: &mut Work,
    history: &History,
    claim: TermId,
    steps: &[InductionStep],
) -> Result<Vec<TermId>, Stop>
    requires stands { WorkStands history.now work.old }
    requires claim { IsTermIn history.now work.old claim }
    requires steps { All (λ s. ArePairsIn history.now work.old s.pairs.items) steps.now }
    ensures hypotheses { IfOk result (λ v. terms_at work.new.bank v.items ≡ denied (term_at work.old.bank claim) (substitutions_at work.old.bank steps.now)) }
    ensures over { IfOk result (λ v. AreTermsIn history.now work.new v.items) }
    ensures grows { WorkGrows history.now work.old work.new }
    ensures out { result ≡ Err Stop.OutOfSteps → work.new.counter.used ≡ work.new.counter.limit }
{
    let mut literals = Vec::new(work.bank.alloc());
    for step in steps {
        let literal = hypothesis_of(work, history, claim, step)?;
        add_literal(&mut literals, literal)?;
    }
    Ok(literals)
}

/// Makes the goal of a case.
fn step_of(
    work: &mut Work,
    history: &History,
    claim: TermId,
    case: &Case,
    goal: &[TermId],
) -> Result<Vec<TermId>, Stop>
    requires stands { WorkStands history.now work.old }
    requires claim { IsTermIn history.now work.old claim }
    requires is { term_at work.old.bank claim ≡ any_of (terms_at work.old.bank goal.now) }
    requires test { IsTermIn history.now work.old case.now.test }
    requires steps { All (λ s. ArePairsIn history.now work.old s.pairs.items) case.now.steps.items }
    requires goal { AreTermsIn history.now work.old goal.now }
    ensures literals { IfOk result (λ v. terms_at work.new.bank v.items ≡ step_goal work.old.bank (terms_at work.old.bank goal.now) case.now) }
    ensures over { IfOk result (λ v. AreTermsIn history.now work.new v.items) }
    ensures grows { WorkGrows history.now work.old work.new }
    ensures out { result ≡ Err Stop.OutOfSteps → work.new.counter.used ≡ work.new.counter.limit }
{
    let denied = deny(work, history, case.test)?;
    let hypotheses = hypotheses_of(work, history, claim, case.steps.as_slice())?;
    whole_of(work.bank.alloc(), denied, hypotheses.as_slice(), goal)
}

/// The NOT of a test, the literals of a goal, and hypotheses.
fn whole_of(
    alloc: Global,
    denied: TermId,
    hypotheses: &[TermId],
    goal: &[TermId],
) -> Result<Vec<TermId>, Stop>
    ensures literals { IfOk result (λ v. v.items ≡ denied ∷ (goal.now ++ hypotheses.now)) }
    ensures memory { result ≡ Err Stop.OutOfSteps → ⊥ }
{
    let mut literals = Vec::new(alloc);
    add_literal(&mut literals, denied)?;
    add_literals(&mut literals, goal)?;
    add_literals(&mut literals, hypotheses)?;
    Ok(literals)
}

/// The goals of an induction on a goal by a scheme: the base case, where no test holds, and a goal for each case, with the goal
/// at each substitution as a hypothesis.
pub fn goals_of(
    work: &mut Work,
    history: &History,
    scheme: &Scheme,
    goal: &[TermId],
) -> Result<Vec<Vec<TermId>>, Stop>
    requires stands { WorkStands history.now work.old }
    requires scheme { IsSchemeIn history.now work.old scheme.now }
    requires some { 0 < length goal.now }
    requires goal { AreTermsIn history.now work.old goal.now }
    ensures goals { IfOk result (λ gs. clauses_at work.new.bank gs.items ≡ goals_at work.old.bank scheme.now goal.now) }
    ensures over { IfOk result (λ gs. All (λ g. AreTermsIn history.now work.new g.items) gs.items) }
    ensures grows { WorkGrows history.now work.old work.new }
    ensures out { result ≡ Err Stop.OutOfSteps → work.new.counter.used ≡ work.new.counter.limit }
{
    let shown = truth(work, history)?;
    let claim = claim_of(work, history, shown, goal)?;
    let base = base_of(work.bank.alloc(), scheme.cases.as_slice(), goal)?;
    let mut goals = Vec::new(work.bank.alloc());
    add_goal(&mut goals, base)?;
    for case in scheme.cases.as_slice() {
        let step = step_of(work, history, claim, case, goal)?;
        add_goal(&mut goals, step)?;
    }
    Ok(goals)
}
