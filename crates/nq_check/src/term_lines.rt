//! The lines that give a block its terms.
ghost use Rattle.std.specs.Prelude.{◌≡◌, [], ◌∷◌, IfOk, ◌&&◌, ◌^◌, IfSome, All, Some, length, nat_lt, not};
ghost use Rattle.std.specs.Option.{option_map};
ghost use Rattle.std.specs.List.{flat_map};
ghost use Rattle.nq_logtext.specs.Fields.{name, number, numeral};
ghost use Rattle.nq_logtext.specs.Views.{one_number};
ghost use Rattle.nq_logic.specs.Names.{has_name, constant_names, is_in_use};
ghost use Rattle.nq_bank.specs.Content.{Stands, IsNamed, text_at, terms_at};
ghost use Rattle.nq_log.specs.States.{block_symbols, introduced_symbols, is_untouched, only_when, terms_at as terms_of_block};
ghost use Rattle.nq_log.specs.Logs.{continued};
ghost use Rattle.nq_proof.specs.Logs.{has_symbol};
ghost use Rattle.nq_log.specs.TermLines.{function_line, variable_line, numeral_line, call_line};
ghost use Rattle.nq_check.specs.Contexts.{function_of, state_of, IsWhole};
ghost use Rattle.nq_check.specs.Judging.{Leads};

use crate::arities::{is_symbol, takes_arguments};
use crate::closing_lines::ARITY_LIMIT;
use crate::context::Context;
use crate::judged::Judged;
use crate::waiting::Introduced;
use nq_bank::{BankFault, Sym, TermId};
use std::alloc::AllocError;

/// Is this a constant that is written as a symbol, and so no variable?
fn is_constant(name: &[u8]) -> bool
    ensures { result ≡ has_name name.now constant_names }
{
    name == b"T".as_slice() || name == b"F".as_slice() || name == b"NIL".as_slice()
}

impl Context {
    /// `F`: no term, but the function that the definition at the end of the block defines.
    pub fn function_line(&mut self, function: &[u8], arity: u64) -> Result<Judged, AllocError>
        requires { IsWhole self.old }
        ensures { IfOk result (λ judged. Leads (state_of self.old) (continued (function_line (state_of self.old) (name function.now ∷ number arity ∷ []))) judged self.new) }
    {
        if !self.may_introduce(arity) {
            return Ok(Judged::NotAllowed);
        }
        let s = self.bank.name(function)?;
        Ok(self.introduce(Introduced { function: s, arity }))
    }

    /// May the block begin with a function of so many arguments, as far as its name does not tell?
    fn may_introduce(&self, arity: u64) -> bool
        ensures { result ≡ (is_untouched (state_of self.now).block && nat_lt arity (2 ^ 32)) }
    {
        self.is_untouched() && arity < ARITY_LIMIT
    }

    /// Introduces a function, where its name is not in use. The block has no line yet.
    fn introduce(&mut self, introduced: Introduced) -> Judged
        requires whole { IsWhole self.old }
        requires named { IsNamed self.old.bank introduced.function }
        ensures { Leads (state_of self.old) (continued (only_when (not (is_in_use (text_at self.old.bank introduced.function) (state_of self.old).history)) (record (state_of self.old).block { introduced = Some (function_of self.old.bank introduced) }))) result self.new }
    {
        if self.history.in_use(&self.bank, introduced.function) {
            return Judged::NotAllowed;
        }
        self.introduced = Some(introduced);
        Judged::Continues
    }

    /// Does this function take so many arguments, in the history or as the one that the block introduces?
    fn takes_arguments(&self, f: Sym, count: u64) -> bool
        requires whole { IsWhole self.now }
        requires function { IsNamed self.now.bank f }
        ensures { result ≡ has_symbol (text_at self.now.bank f) count (block_symbols (state_of self.now)) }
    {
        self.introduces(f, count) || takes_arguments(&self.bank, &self.history, f, count)
    }

    /// Does the block introduce this function, with so many arguments?
    fn introduces(&self, f: Sym, count: u64) -> bool
        requires whole { IsWhole self.now }
        requires function { IsNamed self.now.bank f }
        ensures { result ≡ has_symbol (text_at self.now.bank f) count (introduced_symbols (state_of self.now).block.introduced) }
    {
        match &self.introduced {
            None => false,
            Some(known) => is_symbol(&self.bank, f, count, known.function, known.arity),
        }
    }

    /// `V`: the next term is this variable.
    pub fn variable_line(&mut self, variable: &[u8]) -> Result<Judged, AllocError>
        requires { IsWhole self.old }
        ensures { IfOk result (λ judged. Leads (state_of self.old) (continued (variable_line (state_of self.old) (name variable.now ∷ []))) judged self.new) }
    {
        if is_constant(variable) {
            return Ok(Judged::NotAllowed);
        }
        let s = self.bank.name(variable)?;
        let t = self.bank.var(s)?;
        self.terms.push(t)?;
        Ok(Judged::Continues)
    }

    /// `N`: the next term is this numeral.
    pub fn numeral_line(&mut self, value: u128) -> Result<Judged, AllocError>
        requires { IsWhole self.old }
        ensures { IfOk result (λ judged. Leads (state_of self.old) (continued (numeral_line (state_of self.old) (numeral value ∷ []))) judged self.new) }
    {
        let t = self.bank.num(value)?;
        self.terms.push(t)?;
        Ok(Judged::Continues)
    }

    /// `A`: the next term is this call.
    pub fn call_line(&mut self, function: &[u8], arguments: &[u64]) -> Result<Judged, AllocError>
        requires { IsWhole self.old }
        ensures { IfOk result (λ judged. Leads (state_of self.old) (continued (call_line (state_of self.old) (name function.now ∷ flat_map one_number arguments.now))) judged self.new) }
    {
        let Some(terms) = self.terms(arguments)? else {
            return Ok(Judged::NotAllowed);
        };
        let ids = terms.as_slice();
        let f = self.bank.name(function)?;
        if !self.takes_arguments(f, ids.len() as u64) {
            return Ok(Judged::NotAllowed);
        }
        match self.bank.app(f, ids) {
            Ok(t) => {
                self.terms.push(t)?;
                Ok(Judged::Continues)
            }
            Err(BankFault::Deep) => Ok(Judged::NotAllowed),
            Err(BankFault::Memory) => Err(AllocError),
        }
    }
}
