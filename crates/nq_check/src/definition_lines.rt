//! The line of a definition.
ghost use Rattle.std.specs.Prelude.{◌≡◌, ◌≤◌, ◌&&◌, ◌∷◌, All, IfOk, IfSome, map, not, true};
ghost use Rattle.std.specs.List.{flat_map};
ghost use Rattle.nq_logtext.specs.Fields.{name, number};
ghost use Rattle.nq_logtext.specs.Views.{one_number};
ghost use Rattle.nq_logic.specs.Names.{are_distinct, is_in_use};
ghost use Rattle.nq_logic.specs.Sizes.{depth_of};
ghost use Rattle.nq_logic.specs.Terms.{Variable, call};
ghost use Rattle.nq_logic.specs.Words.{equal_term};
ghost use Rattle.nq_bank.specs.Content.{Grows, IsIdOf, IsNamed, Stands, term_at, terms_at, text_at};
ghost use Rattle.nq_bank.specs.Shells.{texts_at};
ghost use Rattle.nq_log.specs.States.{Adds, only_when};
ghost use Rattle.nq_log.specs.Logs.{claimed};
ghost use Rattle.nq_log.specs.ClosingLines.{definition_claim, introduces};
ghost use Rattle.nq_check.specs.Claims.{event_named, has_place};
ghost use Rattle.nq_check.specs.Contexts.{state_of, IsWhole};
ghost use Rattle.nq_check.specs.Definitions.{Admits, defined, may_define};
ghost use Rattle.nq_check.specs.Judging.{Leads};

use crate::arities::is_symbol;
use crate::bodies::{are_distinct, has_variables};
use crate::closing_lines::{ARITY_LIMIT, is_small};
use crate::context::Context;
use crate::judged::Judged;
use crate::texts::term_line;
use nq_bank::{Bank, BankFault, Sym, TermId, ground, ground_name};
use nq_calls::apart_if_unused;
use nq_history::{Entry, EntryKind};
use std::alloc::AllocError;

/// The variables of these names.
fn variables_of(bank: &mut Bank, names: &[Sym]) -> Result<Vec<TermId>, AllocError>
    requires { All (IsNamed bank.old) names.now }
    ensures stand { IfOk result (λ ids. All (Stands bank.new) ids.items) }
    ensures are { IfOk result (λ ids. terms_at bank.new ids.items ≡ map Variable (texts_at bank.old names.now)) }
    ensures grows { Grows bank.old bank.new }
{
    let mut ids = Vec::new(bank.alloc());
    for name in names {
        let t = bank.var(*name)?;
        ids.push(t)?;
    }
    Ok(ids)
}

/// The call of a function on its formals.
fn call_of(bank: &mut Bank, f: Sym, formals: &[Sym]) -> Result<TermId, AllocError>
    requires function { IsNamed bank.old f }
    requires formals { All (IsNamed bank.old) formals.now }
    ensures is { IfOk result (λ t. IsIdOf bank.new t (call (text_at bank.old f) (map Variable (texts_at bank.old formals.now)))) }
    ensures shallow { IfOk result (λ t. depth_of (term_at bank.new t) ≤ 2) }
    ensures grows { Grows bank.old bank.new }
{
    let variables = variables_of(bank, formals)?;
    match bank.app(f, variables.as_slice()) {
        Ok(t) => Ok(t),
        Err(BankFault::Deep) => unreachable!(),
        Err(BankFault::Memory) => Err(AllocError),
    }
}

/// The equation of two terms that are not too deep for it.
fn equation(bank: &mut Bank, left: TermId, right: TermId) -> Result<TermId, AllocError>
    requires left { Stands bank.old left }
    requires right { Stands bank.old right }
    requires left_shallow { depth_of (term_at bank.old left) ≤ 2 }
    requires right_shallow { depth_of (term_at bank.old right) ≤ 2000 }
    ensures is { IfOk result (λ t. IsIdOf bank.new t (equal_term (term_at bank.old left) (term_at bank.old right))) }
    ensures grows { Grows bank.old bank.new }
{
    let f = ground_name(bank, ground::EQUAL);
    match bank.app(f, &[left, right]) {
        Ok(t) => Ok(t),
        Err(BankFault::Deep) => unreachable!(),
        Err(BankFault::Memory) => Err(AllocError),
    }
}

/// The equation of a definition: of the call of its function on its formals, and its body.
fn defining_equation(
    bank: &mut Bank,
    f: Sym,
    formals: &[Sym],
    body: TermId,
) -> Result<TermId, AllocError>
    requires function { IsNamed bank.old f }
    requires formals { All (IsNamed bank.old) formals.now }
    requires body { Stands bank.old body }
    requires shallow { depth_of (term_at bank.old body) ≤ 2000 }
    ensures is { IfOk result (λ t. IsIdOf bank.new t (equal_term (call (text_at bank.old f) (map Variable (texts_at bank.old formals.now))) (term_at bank.old body))) }
    ensures grows { Grows bank.old bank.new }
{
    let call = call_of(bank, f, formals)?;
    equation(bank, call, body)
}

impl Context {
    /// May the block end in a definition of these formals and this body, as far as the function does not tell?
    fn may_define(&self, formals: &[Sym], body: TermId) -> Result<bool, AllocError>
        requires formals { All (IsNamed self.now.bank) formals.now }
        requires body { Stands self.now.bank body }
        ensures { IfOk result (λ b. b ≡ may_define (state_of self.now).block (texts_at self.now.bank formals.now) (term_at self.now.bank body)) }
    {
        if !(self.parts.is_empty() && self.cases.is_empty()) {
            return Ok(false);
        }
        if (formals.len() as u64) >= ARITY_LIMIT || !is_small(&self.bank, body) {
            return Ok(false);
        }
        if !are_distinct(&self.bank, formals) {
            return Ok(false);
        }
        has_variables(&self.bank, formals, body)
    }

    /// May a definition's function have this name and so many arguments, in this block?
    fn may_name(&self, f: Sym, count: u64) -> bool
        requires whole { IsWhole self.now }
        requires function { IsNamed self.now.bank f }
        ensures { result ≡ (not (is_in_use (text_at self.now.bank f) (state_of self.now).history) && introduces (state_of self.now).block.introduced (text_at self.now.bank f) count) }
    {
        if self.history.in_use(&self.bank, f) {
            return false;
        }
        match &self.introduced {
            None => true,
            Some(known) => is_symbol(&self.bank, known.function, known.arity, f, count),
        }
    }

    /// The measure of a definition, as `measure_of` tells it, where its function may have this name.
    fn admitted(
        &self,
        f: Sym,
        formals: &[Sym],
        body: TermId,
    ) -> Result<Option<Option<TermId>>, AllocError>
        requires whole { IsWhole self.now }
        requires function { IsNamed self.now.bank f }
        requires formals { All (IsNamed self.now.bank) formals.now }
        requires distinct { are_distinct (texts_at self.now.bank formals.now) ≡ true }
        requires body { Stands self.now.bank body }
        ensures { IfOk result (λ found. Admits self.now (text_at self.now.bank f) (texts_at self.now.bank formals.now) (term_at self.now.bank body) found) }
    {
        apart_if_unused();
        if !self.may_name(f, formals.len() as u64) {
            return Ok(None);
        }
        self.measure_of(f, formals, body)
    }

    /// Adds a definition, where the history has a place for it.
    fn claim_definition(
        &mut self,
        f: Sym,
        formals: Vec<Sym>,
        body: TermId,
        measure: Option<TermId>,
    ) -> Result<Judged, AllocError>
        requires whole { IsWhole self.old }
        requires function { IsNamed self.old.bank f }
        requires formals { All (IsNamed self.old.bank) formals.items }
        requires body { Stands self.old.bank body }
        requires shallow { depth_of (term_at self.old.bank body) ≤ 2000 }
        requires measure { IfSome measure (λ t. Stands self.old.bank t) }
        ensures { IfOk result (λ judged. Leads (state_of self.old) (claimed (only_when (has_place (state_of self.old).history (text_at self.old.bank f)) (Adds (event_named self.old.bank (text_at self.old.bank f) (EntryKind.Defn formals body measure))))) judged self.new) }
    {
        let mark = self.bank.mark();
        let equation = defining_equation(&mut self.bank, f, formals.as_slice(), body)?;
        let text = term_line(&self.bank, b"DEFN ", self.bank.text(f), equation)?;
        let kind = EntryKind::Defn(formals, body, measure);
        self.add_entry(
            Entry {
                name: f,
                kind,
                mark,
            },
            text,
        )
    }

    /// Adds a definition, where it is admitted.
    fn define(&mut self, f: Sym, formals: Vec<Sym>, body: TermId) -> Result<Judged, AllocError>
        requires whole { IsWhole self.old }
        requires function { IsNamed self.old.bank f }
        requires formals { All (IsNamed self.old.bank) formals.items }
        requires distinct { are_distinct (texts_at self.old.bank formals.items) ≡ true }
        requires body { Stands self.old.bank body }
        requires shallow { depth_of (term_at self.old.bank body) ≤ 2000 }
        ensures { IfOk result (λ judged. Leads (state_of self.old) (defined (state_of self.old) (text_at self.old.bank f) (texts_at self.old.bank formals.items) (term_at self.old.bank body)) judged self.new) }
    {
        match self.admitted(f, formals.as_slice(), body)? {
            Some(measure) => self.claim_definition(f, formals, body, measure),
            None => Ok(Judged::NotAllowed),
        }
    }

    /// The same, by the function's name.
    fn define_named(
        &mut self,
        function: &[u8],
        formals: Vec<Sym>,
        body: TermId,
    ) -> Result<Judged, AllocError>
        requires whole { IsWhole self.old }
        requires formals { All (IsNamed self.old.bank) formals.items }
        requires distinct { are_distinct (texts_at self.old.bank formals.items) ≡ true }
        requires body { Stands self.old.bank body }
        requires shallow { depth_of (term_at self.old.bank body) ≤ 2000 }
        ensures { IfOk result (λ judged. Leads (state_of self.old) (defined (state_of self.old) function.now (texts_at self.old.bank formals.items) (term_at self.old.bank body)) judged self.new) }
    {
        let f = self.bank.name(function)?;
        self.define(f, formals, body)
    }

    /// `DEFN`
    pub fn definition_line(
        &mut self,
        function: &[u8],
        body: u64,
        formals: &[u64],
    ) -> Result<Judged, AllocError>
        requires { IsWhole self.old }
        ensures { IfOk result (λ judged. Leads (state_of self.old) (claimed (definition_claim (state_of self.old) (name function.now ∷ number body ∷ flat_map one_number formals.now))) judged self.new) }
    {
        let Some(t) = self.term(body) else {
            return Ok(Judged::NotAllowed);
        };
        let Some(names) = self.variables(formals)? else {
            return Ok(Judged::NotAllowed);
        };
        if !self.may_define(names.as_slice(), t)? {
            return Ok(Judged::NotAllowed);
        }
        self.define_named(function, names, t)
    }
}
