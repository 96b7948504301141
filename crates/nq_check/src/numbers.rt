//! Terms that are named by their numbers.
ghost use Rattle.std.specs.Prelude.{◌≡◌, IfOk, IfSome, All, map};
ghost use Rattle.std.specs.Option.{option_map};
ghost use Rattle.nq_bank.specs.Content.{IsNamed, Stands, term_at, terms_at, text_at};
ghost use Rattle.nq_bank.specs.Shells.{texts_at};
ghost use Rattle.nq_clause.specs.Substitution.{substitution_at, PairStands};
ghost use Rattle.nq_log.specs.States.{terms_at as terms_of_block, variable_at, variable_of, variables_at};
ghost use Rattle.nq_log.specs.RuleLines.{substitution_at as substitution_of_block};
ghost use Rattle.nq_check.specs.Contexts.{pair_of, state_of, IsWhole};
ghost use Rattle.nq_check.specs.Pairs.{bound_at, pair_at};

use crate::context::Context;
use nq_bank::{Bank, Node, Sym, TermId};
use nq_clause::Pair;
use nq_logtext::Binding;
use std::alloc::AllocError;

/// The name of a term that is a variable.
fn variable_of(bank: &Bank, t: TermId) -> Option<Sym>
    requires { Stands bank.now t }
    ensures name { option_map (text_at bank.now) result ≡ variable_of (term_at bank.now t) }
    ensures stands { IfSome result (λ s. IsNamed bank.now s) }
{
    match bank.node(t) {
        Node::Var(s) => Some(s),
        Node::Num(_) => None,
        Node::App(_, _) => None,
    }
}

impl Context {
    /// The terms of some numbers, where each number has one.
    pub fn terms(&self, numbers: &[u64]) -> Result<Option<Vec<TermId>>, AllocError>
        requires { IsWhole self.now }
        ensures terms { IfOk result (λ found. option_map (λ ids. terms_at self.now.bank ids.items) found ≡ terms_of_block (state_of self.now).block numbers.now) }
        ensures stand { IfOk result (λ found. IfSome found (λ ids. All (Stands self.now.bank) ids.items)) }
    {
        let mut terms = Vec::with_capacity(self.bank.alloc(), numbers.len())?;
        for number in numbers {
            let Some(t) = self.term(*number) else {
                return Ok(None);
            };
            terms.push(t)?;
        }
        Ok(Some(terms))
    }

    /// The name of a number's term, where that is a variable.
    fn variable(&self, number: u64) -> Option<Sym>
        requires { IsWhole self.now }
        ensures name { option_map (text_at self.now.bank) result ≡ variable_at (state_of self.now).block number }
        ensures stands { IfSome result (λ s. IsNamed self.now.bank s) }
    {
        let t = self.term(number)?;
        variable_of(&self.bank, t)
    }

    /// The names of the variables of some numbers, where each number has one.
    pub fn variables(&self, numbers: &[u64]) -> Result<Option<Vec<Sym>>, AllocError>
        requires { IsWhole self.now }
        ensures names { IfOk result (λ found. option_map (λ names. texts_at self.now.bank names.items) found ≡ variables_at (state_of self.now).block numbers.now) }
        ensures stand { IfOk result (λ found. IfSome found (λ names. All (IsNamed self.now.bank) names.items)) }
    {
        let mut names = Vec::with_capacity(self.bank.alloc(), numbers.len())?;
        for number in numbers {
            let Some(s) = self.variable(*number) else {
                return Ok(None);
            };
            names.push(s)?;
        }
        Ok(Some(names))
    }

    /// The variable and the term of a binding, where its numbers have them.
    fn pair(&self, binding: Binding) -> Option<Pair>
        requires { IsWhole self.now }
        ensures pair { option_map (pair_at self.now.bank) result ≡ bound_at (state_of self.now).block (pair_of binding) }
        ensures stands { IfSome result (λ p. PairStands self.now.bank p) }
    {
        let variable = self.variable(binding.variable)?;
        let term = self.term(binding.term)?;
        Some(Pair { variable, term })
    }

    /// The variables and terms of bindings, where each number has one.
    pub fn pairs(&self, bindings: &[Binding]) -> Result<Option<Vec<Pair>>, AllocError>
        requires { IsWhole self.now }
        ensures pairs { IfOk result (λ found. option_map (λ pairs. substitution_at self.now.bank pairs.items) found ≡ substitution_of_block (state_of self.now).block (map pair_of bindings.now)) }
        ensures stand { IfOk result (λ found. IfSome found (λ pairs. All (PairStands self.now.bank) pairs.items)) }
    {
        let mut pairs = Vec::with_capacity(self.bank.alloc(), bindings.len())?;
        for binding in bindings {
            let Some(pair) = self.pair(*binding) else {
                return Ok(None);
            };
            pairs.push(pair)?;
        }
        Ok(Some(pairs))
    }
}
