//! The lines that give a block its clauses.
ghost use Rattle.std.specs.Prelude.{◌≡◌, ◌&&◌, [], ◌∷◌, IfOk, IfSome, IsSome, Some, is_some, true};
ghost use Rattle.std.specs.Option.{option_map};
ghost use Rattle.nq_logtext.specs.Fields.{name, number};
ghost use Rattle.nq_kernel.specs.Meaning.{rule_at, RuleStands, conclusion_at};
ghost use Rattle.nq_log.specs.Logs.{continued};
ghost use Rattle.nq_proof.specs.Rules.{rule_terms};
ghost use Rattle.nq_log.specs.RuleLines.{are_without, axiom_rule, event_rule, rule_line, drop_line};
ghost use Rattle.nq_check.specs.Contexts.{state_of, IsWhole};
ghost use Rattle.nq_check.specs.Judging.{Leads};

use crate::context::Context;
use crate::judged::Judged;
use crate::rule_terms::is_in_rule;
use nq_bank::BankFault;
use nq_kernel::Rule;
use std::alloc::AllocError;

impl Context {
    /// A line of a rule, where its numbers have terms.
    pub fn rule_line(&mut self, rule: Option<Rule>) -> Result<Judged, AllocError>
        requires whole { IsWhole self.old }
        requires rule { IfSome rule (λ rule. RuleStands self.old.bank rule) }
        ensures { IfOk result (λ judged. Leads (state_of self.old) (continued (rule_line (state_of self.old) (option_map (rule_at self.old.bank) rule))) judged self.new) }
    {
        match rule {
            Some(rule) => self.add_line(rule),
            None => Ok(Judged::NotAllowed),
        }
    }

    /// Does the function that the block introduces stand in no term that a rule names?
    fn is_older(&self, rule: &Rule) -> Result<bool, AllocError>
        requires whole { IsWhole self.now }
        requires rule { RuleStands self.now.bank rule.now }
        ensures { IfOk result (λ b. b ≡ are_without (state_of self.now).block.introduced (rule_terms (rule_at self.now.bank rule.now))) }
    {
        match &self.introduced {
            None => Ok(true),
            Some(introduced) => {
                let inside = is_in_rule(&self.bank, introduced.function, rule)?;
                Ok(!inside)
            }
        }
    }

    /// May a rule be added after the lines so far, as far as its clause is not too deep?
    fn may_add(&self, rule: &Rule) -> Result<bool, AllocError>
        requires whole { IsWhole self.now }
        requires rule { RuleStands self.now.bank rule.now }
        ensures { IfOk result (λ b. b ≡ (are_without (state_of self.now).block.introduced (rule_terms (rule_at self.now.bank rule.now)) && is_some (conclusion_at self.now.bank self.now.history self.now.log rule.now))) }
    {
        if !self.is_older(rule)? {
            return Ok(false);
        }
        self.log.allowed(&self.bank, &self.history, rule)
    }

    /// Adds the line of a rule, where it is allowed.
    fn add_line(&mut self, rule: Rule) -> Result<Judged, AllocError>
        requires whole { IsWhole self.old }
        requires rule { RuleStands self.old.bank rule }
        ensures { IfOk result (λ judged. Leads (state_of self.old) (continued (rule_line (state_of self.old) (Some (rule_at self.old.bank rule)))) judged self.new) }
    {
        if self.may_add(&rule)? {
            self.add_allowed(rule)
        } else {
            Ok(Judged::NotAllowed)
        }
    }

    /// Adds the line of an allowed rule, unless a term of its clause is too deep.
    fn add_allowed(&mut self, rule: Rule) -> Result<Judged, AllocError>
        requires whole { IsWhole self.old }
        requires rule { RuleStands self.old.bank rule }
        requires older { are_without (state_of self.old).block.introduced (rule_terms (rule_at self.old.bank rule)) ≡ true }
        requires allowed { IsSome (conclusion_at self.old.bank self.old.history self.old.log rule) }
        ensures { IfOk result (λ judged. Leads (state_of self.old) (continued (rule_line (state_of self.old) (Some (rule_at self.old.bank rule)))) judged self.new) }
    {
        match self.log.add(&mut self.bank, &self.history, rule) {
            Ok(_) => {
                self.bank.is_sound();
                Ok(Judged::Continues)
            }
            Err(BankFault::Deep) => Ok(Judged::NotAllowed),
            Err(BankFault::Memory) => Err(AllocError),
        }
    }

    /// `AXIOM`
    pub fn axiom_line(&mut self, group: &[u8], row: u64, part: u64) -> Result<Judged, AllocError>
        requires { IsWhole self.old }
        ensures { IfOk result (λ judged. Leads (state_of self.old) (continued (rule_line (state_of self.old) (axiom_rule (name group.now ∷ number row ∷ number part ∷ [])))) judged self.new) }
    {
        let s = self.bank.name(group)?;
        self.add_line(Rule::AxiomRow(s, row, part))
    }

    /// `EVENT`
    pub fn event_line(&mut self, event: &[u8]) -> Result<Judged, AllocError>
        requires { IsWhole self.old }
        ensures { IfOk result (λ judged. Leads (state_of self.old) (continued (rule_line (state_of self.old) (event_rule (name event.now ∷ [])))) judged self.new) }
    {
        let s = self.bank.name(event)?;
        self.add_line(Rule::EventTerm(s))
    }

    /// `DROP`
    pub fn drop_line(&mut self, line: u64) -> Judged
        requires { IsWhole self.old }
        ensures { Leads (state_of self.old) (continued (drop_line (state_of self.old) (number line ∷ []))) result self.new }
    {
        if !self.log.stands(line) {
            return Judged::NotAllowed;
        }
        self.log.drop_line(line);
        Judged::Continues
    }
}
