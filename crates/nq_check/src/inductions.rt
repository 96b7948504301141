//! The lines of an induction: its cases, their instances, and the rule.
ghost use Rattle.std.specs.Prelude.{◌≡◌, ◌&&◌, [], ◌∷◌, All, IfOk, IfSome, OnOk, map};
ghost use Rattle.std.specs.Option.{option_map};
ghost use Rattle.std.specs.List.{flat_map};
ghost use Rattle.nq_logtext.specs.Fields.{number};
ghost use Rattle.nq_logtext.specs.Views.{of_binding};
ghost use Rattle.nq_rule.specs.Inductions.{cases_at, CaseStands, HypothesisStands};
ghost use Rattle.nq_kernel.specs.Meaning.{rule_at, RuleStands};
ghost use Rattle.nq_log.specs.States.{has_line, has_term_at};
ghost use Rattle.nq_log.specs.Logs.{continued};
ghost use Rattle.nq_log.specs.RuleLines.{case_line, cases_at as cases_of_block, have_terms, hypothesis_line, induct_line, induct_rule};
ghost use Rattle.nq_check.specs.Contexts.{case_of, pair_of, state_of, IsWhole};
ghost use Rattle.nq_check.specs.Cases.{GoesWith, PutsStep};
ghost use Rattle.nq_check.specs.Judging.{Leads};

use crate::context::Context;
use crate::judged::Judged;
use crate::waiting::CaseLine;
use nq_kernel::Rule;
use nq_logtext::Binding;
use nq_rule::{CaseOfInduction, InductionStep};
use std::alloc::AllocError;

/// Puts a step behind those of the last case; no where there is no case.
fn put_step(cases: &mut Vec<CaseOfInduction>, step: InductionStep) -> Result<bool, AllocError>
    ensures { IfOk result (λ put. PutsStep put cases.old.items cases.new.items step) }
{
    let Some(mut case) = cases.pop() else {
        return Ok(false);
    };
    case.steps.push(step)?;
    cases.push(case)?;
    Ok(true)
}

impl Context {
    /// Has the block a line of this number, dropped or not?
    pub fn has_line(&self, line: u64) -> bool
        ensures { result ≡ has_line (state_of self.now).block line }
    {
        1 <= line && line <= self.log.len()
    }

    /// Has the block a term of this number?
    pub fn has_term(&self, number: u64) -> bool
        requires { IsWhole self.now }
        ensures { result ≡ has_term_at (state_of self.now).block number }
    {
        self.term(number).is_some()
    }

    /// `CASE`
    pub fn case_line(&mut self, test: u64, line: u64) -> Result<Judged, AllocError>
        requires { IsWhole self.old }
        ensures { IfOk result (λ judged. Leads (state_of self.old) (continued (case_line (state_of self.old) (number test ∷ number line ∷ []))) judged self.new) }
    {
        if !(self.has_term(test) && self.has_line(line)) {
            return Ok(Judged::NotAllowed);
        }
        self.cases.push(CaseLine::Case(test, line))?;
        Ok(Judged::Continues)
    }

    /// Have both numbers of each binding a term?
    fn have_terms(&self, bindings: &[Binding]) -> bool
        requires { IsWhole self.now }
        ensures { result ≡ have_terms (state_of self.now).block (map pair_of bindings.now) }
    {
        for binding in bindings {
            if !(self.has_term(binding.variable) && self.has_term(binding.term)) {
                return false;
            }
        }
        true
    }

    /// Do the numbers of an instance stand?
    fn stand(&self, line: u64, bindings: &[Binding]) -> bool
        requires { IsWhole self.now }
        ensures { result ≡ (has_line (state_of self.now).block line && have_terms (state_of self.now).block (map pair_of bindings.now)) }
    {
        self.has_line(line) && self.have_terms(bindings)
    }

    /// `HYP`
    pub fn hypothesis_line(&mut self, line: u64, bindings: &[Binding]) -> Result<Judged, AllocError>
        requires { IsWhole self.old }
        ensures { IfOk result (λ judged. Leads (state_of self.old) (continued (hypothesis_line (state_of self.old) (number line ∷ flat_map of_binding bindings.now))) judged self.new) }
    {
        if !self.stand(line, bindings) {
            return Ok(Judged::NotAllowed);
        }
        let kept = Vec::from_slice(self.bank.alloc(), bindings)?;
        self.cases.push(CaseLine::Hypothesis(line, kept))?;
        Ok(Judged::Continues)
    }

    /// Puts what a line that waits stands for behind the cases before it; no where it stands for nothing.
    fn put_case(
        &self,
        cases: &mut Vec<CaseOfInduction>,
        line: &CaseLine,
    ) -> Result<bool, AllocError>
        requires whole { IsWhole self.now }
        requires cases { All (CaseStands self.now.bank) cases.old.items }
        ensures goes { IfOk result (λ put. GoesWith put (state_of self.now).block (case_of line.now) (cases_at self.now.bank cases.old.items) (cases_at self.now.bank cases.new.items)) }
        ensures stand { OnOk result (All (CaseStands self.now.bank) cases.new.items) }
    {
        match line {
            CaseLine::Case(test, step) => {
                let Some(t) = self.term(*test) else {
                    return Ok(false);
                };
                cases.push(CaseOfInduction {
                    test: t,
                    line: *step,
                    steps: Vec::new(self.bank.alloc()),
                })?;
                Ok(true)
            }
            CaseLine::Hypothesis(line, bindings) => {
                let Some(pairs) = self.pairs(bindings.as_slice())? else {
                    return Ok(false);
                };
                put_step(cases, InductionStep { line: *line, pairs })
            }
        }
    }

    /// The cases of the lines that wait, each with its instances, where each line that tells an instance stands behind a case.
    fn waiting_cases(&self) -> Result<Option<Vec<CaseOfInduction>>, AllocError>
        requires { IsWhole self.now }
        ensures cases { IfOk result (λ found. option_map (λ cases. cases_at self.now.bank cases.items) found ≡ cases_of_block (state_of self.now).block (state_of self.now).block.cases) }
        ensures stand { IfOk result (λ found. IfSome found (λ cases. All (CaseStands self.now.bank) cases.items)) }
    {
        let mut cases = Vec::new(self.bank.alloc());
        let lines = self.cases.as_slice();
        for line in lines {
            if !self.put_case(&mut cases, line)? {
                return Ok(None);
            }
        }
        Ok(Some(cases))
    }

    /// The rule of `INDUCT`
    fn induct_rule(
        &self,
        goal: u64,
        measure: u64,
        ordinal: u64,
        base: u64,
    ) -> Result<Option<Rule>, AllocError>
        requires { IsWhole self.now }
        ensures rule { IfOk result (λ rule. option_map (rule_at self.now.bank) rule ≡ induct_rule (state_of self.now).block (number goal ∷ number measure ∷ number ordinal ∷ number base ∷ [])) }
        ensures stands { IfOk result (λ rule. IfSome rule (λ rule. RuleStands self.now.bank rule)) }
    {
        let Some(p) = self.term(goal) else {
            return Ok(None);
        };
        let Some(m) = self.term(measure) else {
            return Ok(None);
        };
        match self.waiting_cases()? {
            Some(cases) => Ok(Some(Rule::Induct(p, m, ordinal, base, cases))),
            None => Ok(None),
        }
    }

    /// `INDUCT`: it uses up the lines that wait for it.
    pub fn induct_line(
        &mut self,
        goal: u64,
        measure: u64,
        ordinal: u64,
        base: u64,
    ) -> Result<Judged, AllocError>
        requires { IsWhole self.old }
        ensures { IfOk result (λ judged. Leads (state_of self.old) (continued (induct_line (state_of self.old) (number goal ∷ number measure ∷ number ordinal ∷ number base ∷ []))) judged self.new) }
    {
        let rule = self.induct_rule(goal, measure, ordinal, base)?;
        let judged = self.rule_line(rule)?;
        self.cases.clear();
        Ok(judged)
    }
}
