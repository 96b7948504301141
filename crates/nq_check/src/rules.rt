//! The rule that a line of the log tells, over shared terms.
ghost use Rattle.std.specs.Prelude.{◌≡◌, [], ◌∷◌, IfOk, IfSome};
ghost use Rattle.std.specs.Option.{option_map};
ghost use Rattle.std.specs.List.{flat_map};
ghost use Rattle.nq_logtext.specs.Fields.{number, path, sign};
ghost use Rattle.nq_logtext.specs.Views.{of_binding, one_number};
ghost use Rattle.nq_kernel.specs.Meaning.{rule_at, RuleStands};
ghost use Rattle.nq_log.specs.RuleLines.{taut_rule, weaken_rule, cut_rule, instance_rule, reflexive_rule, replace_rule, join_rule, split_rule, not_not_rule, value_rule, side_of as side_of_sign};
ghost use Rattle.nq_rule.specs.Sides.{side_of};
ghost use Rattle.nq_check.specs.Contexts.{state_of, IsWhole};

use crate::context::Context;
use nq_kernel::Rule;
use nq_logtext::{Binding, Sign};
use nq_rule::{Branches, Side};
use std::alloc::AllocError;

/// The order in which a sign reads an equation.
fn side_of(sign: Sign) -> Side
    ensures { side_of result ≡ side_of_sign sign }
{
    match sign {
        Sign::Plus => Side::Forwards,
        Sign::Minus => Side::Backwards,
    }
}

impl Context {
    /// `TAUT`
    #[tactic(auto, using(crate::proofs::NumberLemmas::numbers_again))]
    pub fn taut_rule(&self, terms: &[u64]) -> Result<Option<Rule>, AllocError>
        requires { IsWhole self.now }
        ensures rule { IfOk result (λ rule. option_map (rule_at self.now.bank) rule ≡ taut_rule (state_of self.now).block (flat_map one_number terms.now)) }
        ensures stands { IfOk result (λ rule. IfSome rule (λ rule. RuleStands self.now.bank rule)) }
    {
        match self.terms(terms)? {
            Some(terms) => Ok(Some(Rule::Taut(terms))),
            None => Ok(None),
        }
    }

    /// `WEAKEN`
    #[tactic(auto, using(crate::proofs::NumberLemmas::numbers_again))]
    pub fn weaken_rule(&self, line: u64, terms: &[u64]) -> Result<Option<Rule>, AllocError>
        requires { IsWhole self.now }
        ensures rule { IfOk result (λ rule. option_map (rule_at self.now.bank) rule ≡ weaken_rule (state_of self.now).block (number line ∷ flat_map one_number terms.now)) }
        ensures stands { IfOk result (λ rule. IfSome rule (λ rule. RuleStands self.now.bank rule)) }
    {
        match self.terms(terms)? {
            Some(terms) => Ok(Some(Rule::Weaken(line, terms))),
            None => Ok(None),
        }
    }

    /// `CUT`
    pub fn cut_rule(&self, first: u64, second: u64, term: u64) -> Option<Rule>
        requires { IsWhole self.now }
        ensures rule { option_map (rule_at self.now.bank) result ≡ cut_rule (state_of self.now).block (number first ∷ number second ∷ number term ∷ []) }
        ensures stands { IfSome result (λ rule. RuleStands self.now.bank rule) }
    {
        let t = self.term(term)?;
        Some(Rule::Cut(first, second, t))
    }

    /// `INST`
    #[tactic(auto, using(crate::proofs::NumberLemmas::pairs_again))]
    pub fn instance_rule(&self, line: u64, bindings: &[Binding]) -> Result<Option<Rule>, AllocError>
        requires { IsWhole self.now }
        ensures rule { IfOk result (λ rule. option_map (rule_at self.now.bank) rule ≡ instance_rule (state_of self.now).block (number line ∷ flat_map of_binding bindings.now)) }
        ensures stands { IfOk result (λ rule. IfSome rule (λ rule. RuleStands self.now.bank rule)) }
    {
        match self.pairs(bindings)? {
            Some(pairs) => Ok(Some(Rule::Instance(line, pairs))),
            None => Ok(None),
        }
    }

    /// `REFL`
    pub fn reflexive_rule(&self, term: u64) -> Option<Rule>
        requires { IsWhole self.now }
        ensures rule { option_map (rule_at self.now.bank) result ≡ reflexive_rule (state_of self.now).block (number term ∷ []) }
        ensures stands { IfSome result (λ rule. RuleStands self.now.bank rule) }
    {
        let t = self.term(term)?;
        Some(Rule::Reflexive(t))
    }

    /// `REPLACE`
    pub fn replace_rule(
        &self,
        line: u64,
        literal: u64,
        places: &[u64],
        term: u64,
        order: Sign,
    ) -> Result<Option<Rule>, AllocError>
        requires { IsWhole self.now }
        ensures rule { IfOk result (λ rule. option_map (rule_at self.now.bank) rule ≡ replace_rule (state_of self.now).block (number line ∷ number literal ∷ path places.now ∷ number term ∷ sign order ∷ [])) }
        ensures stands { IfOk result (λ rule. IfSome rule (λ rule. RuleStands self.now.bank rule)) }
    {
        let Some(t) = self.term(term) else {
            return Ok(None);
        };
        let places = Vec::from_slice(self.bank.alloc(), places)?;
        Ok(Some(Rule::Replace(line, literal, places, t, side_of(order))))
    }

    /// `JOIN`
    pub fn join_rule(
        &self,
        first: u64,
        second: u64,
        test: u64,
        left: u64,
        right: u64,
    ) -> Option<Rule>
        requires { IsWhole self.now }
        ensures rule { option_map (rule_at self.now.bank) result ≡ join_rule (state_of self.now).block (number first ∷ number second ∷ number test ∷ number left ∷ number right ∷ []) }
        ensures stands { IfSome result (λ rule. RuleStands self.now.bank rule) }
    {
        let test = self.term(test)?;
        let left = self.term(left)?;
        let right = self.term(right)?;
        let parts = Branches {
            test,
            first: left,
            second: right,
        };
        Some(Rule::Join(first, second, parts))
    }

    /// `NOTNOT`
    pub fn not_not_rule(&self, line: u64, literal: u64) -> Option<Rule>
        ensures rule { option_map (rule_at self.now.bank) result ≡ not_not_rule (number line ∷ number literal ∷ []) }
        ensures stands { IfSome result (λ rule. RuleStands self.now.bank rule) }
    {
        Some(Rule::NotNot(line, literal))
    }

    /// `VALUE`
    pub fn value_rule(&self, term: u64) -> Option<Rule>
        requires { IsWhole self.now }
        ensures rule { option_map (rule_at self.now.bank) result ≡ value_rule (state_of self.now).block (number term ∷ []) }
        ensures stands { IfSome result (λ rule. RuleStands self.now.bank rule) }
    {
        let t = self.term(term)?;
        Some(Rule::Value(t))
    }

    /// `SPLIT`
    pub fn split_rule(&self, line: u64, literal: u64, side: u64) -> Option<Rule>
        ensures rule { option_map (rule_at self.now.bank) result ≡ split_rule (number line ∷ number literal ∷ number side ∷ []) }
        ensures stands { IfSome result (λ rule. RuleStands self.now.bank rule) }
    {
        if side == 1 {
            Some(Rule::SplitFirst(line, literal))
        } else if side == 2 {
            Some(Rule::SplitSecond(line, literal))
        } else {
            None
        }
    }
}
