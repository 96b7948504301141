//! The literals of a linear sum, over shared terms.
ghost use Rattle.std.specs.Prelude.{◌≡◌, IfOk, IfSome, map};
ghost use Rattle.std.specs.Option.{option_map};
ghost use Rattle.std.specs.List.{flat_map};
ghost use Rattle.nq_logtext.specs.Views.{of_multiple};
ghost use Rattle.nq_linear_rule.specs.Sums.{side_if, summand_at, summands_at, LiteralStands, LiteralsStand};
ghost use Rattle.nq_kernel.specs.Meaning.{rule_at, RuleStands};
ghost use Rattle.nq_log.specs.RuleLines.{linear_rule, side_of, summands_at as summands_of_block};
ghost use Rattle.nq_check.specs.Contexts.{state_of, IsWhole};
ghost use Rattle.nq_check.specs.Sums.{multiple_of, summand_in};

use crate::context::Context;
use nq_kernel::Rule;
use nq_linear_rule::Summand;
use nq_logtext::{Multiple, Sign};
use std::alloc::AllocError;

/// Does a sign read an equation forwards?
fn is_forwards(sign: Sign) -> bool
    ensures { side_if result ≡ side_of sign }
{
    match sign {
        Sign::Plus => true,
        Sign::Minus => false,
    }
}

impl Context {
    /// The literal of a multiple with its factor, where its number has a term.
    fn summand(&self, one: Multiple) -> Option<Summand>
        requires { IsWhole self.now }
        ensures summand { option_map (summand_at self.now.bank) result ≡ summand_in (state_of self.now).block (multiple_of one) }
        ensures stands { IfSome result (λ s. LiteralStands self.now.bank s) }
    {
        let literal = self.term(one.term)?;
        Some(Summand {
            factor: one.factor,
            literal,
            forwards: is_forwards(one.sign),
        })
    }

    /// The literals of multiples with their factors, where each number has a term.
    fn summands(&self, multiples: &[Multiple]) -> Result<Option<Vec<Summand>>, AllocError>
        requires { IsWhole self.now }
        ensures summands { IfOk result (λ found. option_map (λ ss. summands_at self.now.bank ss.items) found ≡ summands_of_block (state_of self.now).block (map multiple_of multiples.now)) }
        ensures stand { IfOk result (λ found. IfSome found (λ ss. LiteralsStand self.now.bank ss.items)) }
    {
        let mut summands = Vec::with_capacity(self.bank.alloc(), multiples.len())?;
        for one in multiples {
            let Some(summand) = self.summand(*one) else {
                return Ok(None);
            };
            summands.push(summand)?;
        }
        Ok(Some(summands))
    }

    /// `LINEAR`
    #[tactic(auto, using(crate::proofs::SumLemmas::multiples_again))]
    pub fn linear_rule(&self, multiples: &[Multiple]) -> Result<Option<Rule>, AllocError>
        requires { IsWhole self.now }
        ensures rule { IfOk result (λ rule. option_map (rule_at self.now.bank) rule ≡ linear_rule (state_of self.now).block (flat_map of_multiple multiples.now)) }
        ensures stands { IfOk result (λ rule. IfSome rule (λ rule. RuleStands self.now.bank rule)) }
    {
        match self.summands(multiples)? {
            Some(summands) => Ok(Some(Rule::Linear(summands))),
            None => Ok(None),
        }
    }
}
