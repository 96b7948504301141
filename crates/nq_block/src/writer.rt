//! A block in writing.
ghost use Rattle.std.specs.Prelude.{◌≡◌, ℕ, [], None, ◌+◌, ◌<◌, ◌≤◌, ◌^◌, nat_eq, unwrap_or, length, map, IfOk, OnOk, Some};
ghost use Rattle.std.specs.HashMap.{get, Updates};
ghost use Rattle.nq_logtext.specs.Views.{view};
ghost use Rattle.nq_block.specs.Writing.{AddsLine, AddsTerm, IsCounted, number_in};

use nq_bank::{Sym, TermId};
use nq_logtext::{LogLine, Text, write_line};
use std::alloc::{AllocError, Global};
use std::collections::HashMap;

/// The lines of a block so far, and the numbers of its terms.
#[derive(Drop)]
pub(crate) struct Writer {
    /// The numbers of terms, by their ids.
    pub terms: HashMap<u64, u64>,
    /// The numbers of variables, by their names: a rule may put a term in the place of a variable that has no id.
    pub variables: HashMap<u64, u64>,
    /// How many terms have numbers.
    pub count: u64,
    /// The lines.
    pub text: Text,
}

impl Writer {
    /// A block without lines.
    pub fn new(alloc: Global) -> Writer
        ensures terms { (k : ℕ) → get nat_eq result.terms k ≡ None }
        ensures variables { (k : ℕ) → get nat_eq result.variables k ≡ None }
        ensures count { result.count ≡ 0 }
        ensures text { result.text ≡ [] }
    {
        Writer {
            terms: HashMap::new(alloc),
            variables: HashMap::new(alloc),
            count: 0,
            text: Text::new(alloc),
        }
    }

    /// Adds a line.
    pub fn put(&mut self, line: LogLine) -> Result<(), AllocError>
        ensures line { OnOk result (AddsLine (view line) self.old self.new) }
        ensures counted { IsCounted self.old → OnOk result (IsCounted self.new) }
    {
        write_line(&line, &mut self.text)?;
        self.text.extend_from_slice(b"\n")
    }

    /// The number of the next term. Each term has taken a line, so that it fits.
    fn next(&self) -> u64
        requires { IsCounted self.now }
        ensures next { result ≡ self.now.count + 1 }
        ensures fits { result < 2 ^ 64 }
    {
        let _size = self.text.as_slice().len();
        self.count + 1
    }

    /// Adds the line of a term, which takes the next number.
    fn put_next(&mut self, line: LogLine) -> Result<(), AllocError>
        requires { IsCounted self.old }
        ensures adds { OnOk result (AddsTerm (view line) self.old self.new) }
        ensures counted { OnOk result (IsCounted self.new) }
        ensures terms { OnOk result (self.new.terms ≡ self.old.terms) }
        ensures variables { OnOk result (self.new.variables ≡ self.old.variables) }
    {
        let next = self.next();
        self.put(line)?;
        self.count = next;
        Ok(())
    }

    /// Adds the line of a term.
    pub fn put_term(&mut self, t: TermId, line: LogLine) -> Result<(), AllocError>
        requires { IsCounted self.old }
        ensures adds { OnOk result (AddsTerm (view line) self.old self.new) }
        ensures counted { OnOk result (IsCounted self.new) }
        ensures terms { OnOk result (Updates nat_eq self.old.terms self.new.terms t.0 (Some (self.old.count + 1))) }
        ensures variables { OnOk result (self.new.variables ≡ self.old.variables) }
    {
        self.put_next(line)?;
        self.terms.insert(t.0, self.count)?;
        Ok(())
    }

    /// Adds the line of a variable.
    pub fn put_variable(&mut self, s: Sym, line: LogLine) -> Result<(), AllocError>
        requires { IsCounted self.old }
        ensures adds { OnOk result (AddsTerm (view line) self.old self.new) }
        ensures counted { OnOk result (IsCounted self.new) }
        ensures terms { OnOk result (self.new.terms ≡ self.old.terms) }
        ensures variables { OnOk result (Updates nat_eq self.old.variables self.new.variables s.0 (Some (self.old.count + 1))) }
    {
        self.put_next(line)?;
        self.variables.insert(s.0, self.count)?;
        Ok(())
    }

    /// Keeps the number of a variable as that of its term.
    pub fn share(&mut self, t: TermId, s: Sym) -> Result<(), AllocError>
        ensures terms { OnOk result (Updates nat_eq self.old.terms self.new.terms t.0 (Some (number_in self.old.variables s.0))) }
        ensures rest { OnOk result (self.new ≡ record self.old { terms = self.new.terms }) }
    {
        let number = self.variable_number(s);
        self.terms.insert(t.0, number)?;
        Ok(())
    }

    /// The number of a term; 0 where it has none.
    pub fn number(&self, t: TermId) -> u64
        ensures { result ≡ number_in self.now.terms t.0 }
    {
        self.terms.get(&t.0).copied().unwrap_or(0)
    }

    /// The number of a variable; 0 where it has none.
    pub fn variable_number(&self, s: Sym) -> u64
        ensures { result ≡ number_in self.now.variables s.0 }
    {
        self.variables.get(&s.0).copied().unwrap_or(0)
    }

    /// The numbers of terms.
    pub fn numbers(&self, alloc: Global, terms: &[TermId]) -> Result<Vec<u64>, AllocError>
        ensures { IfOk result (λ ns. ns.items ≡ map (λ t. number_in self.now.terms t.0) terms.now) }
    {
        let mut numbers = Vec::new(alloc);
        for t in terms {
            numbers.push(self.number(*t))?;
        }
        Ok(numbers)
    }

    /// The numbers of variables.
    pub fn variable_numbers(&self, alloc: Global, names: &[Sym]) -> Result<Vec<u64>, AllocError>
        ensures { IfOk result (λ ns. ns.items ≡ map (λ s. number_in self.now.variables s.0) names.now) }
    {
        let mut numbers = Vec::new(alloc);
        for s in names {
            numbers.push(self.variable_number(*s))?;
        }
        Ok(numbers)
    }
}
