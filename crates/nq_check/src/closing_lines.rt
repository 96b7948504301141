//! The lines that end a block with a claim, and the last line.
ghost use Rattle.std.specs.Prelude.{◌≡◌, ◌<◌, ◌^◌, ◌&&◌, ◌++◌, [], ◌∷◌, All, IfOk, is_some, nat_lt, true};
ghost use Rattle.nq_logtext.specs.Fields.{number, name};
ghost use Rattle.nq_logic.specs.Histories.{Axiom, Lemma};
ghost use Rattle.nq_logic.specs.Names.{looked_up};
ghost use Rattle.nq_bank.specs.Content.{IsNamed, Stands, text_at, term_at, terms_at};
ghost use Rattle.nq_proof.specs.Rules.{has_only};
ghost use Rattle.nq_proof.specs.Clauses.{is_within, has_term};
ghost use Rattle.nq_log.specs.Sizes.{is_small};
ghost use Rattle.nq_log.specs.States.{Adds, Undoes, Ends, only_when, is_untouched, clause_at};
ghost use Rattle.nq_log.specs.Logs.{claimed};
ghost use Rattle.nq_log.specs.ClosingLines.{axiom_claim, bootstrap_claim, declaration_claim, is_plain, lemma_claim, toggle_claim, undo_claim};
ghost use Rattle.nq_check.specs.Contexts.{state_of, IsWhole};
ghost use Rattle.nq_check.specs.Judging.{Leads};
ghost use Rattle.nq_check.specs.Claims.{has_place};
ghost use Rattle.nq_check.specs.Texts.{claim_text};

use crate::context::Context;
use crate::judged::Judged;
use crate::texts::{named_line, term_line};
use nq_bank::{Bank, Sym, TermId};
use nq_history::EntryKind;
use std::alloc::AllocError;

/// The least number of arguments that a function may not have.
pub const ARITY_LIMIT: u64 = 1 << 32;

/// The most nodes of a claimed term.
const MOST_NODES: u64 = 100_000;

/// The greatest depth of a claimed term.
const GREATEST_DEPTH: u32 = 2_000;

/// May a term be claimed?
pub fn is_small(bank: &Bank, t: TermId) -> bool
    requires { Stands bank.now t }
    ensures { result ≡ is_small (term_at bank.now t) }
{
    bank.size(t) <= MOST_NODES && bank.depth(t) <= GREATEST_DEPTH
}

/// Is a literal this term?
fn is_same(bank: &Bank, literal: TermId, t: TermId) -> bool
    requires literal { Stands bank.now literal }
    requires term { Stands bank.now t }
    ensures { result ≡ has_term (term_at bank.now literal) (term_at bank.now t ∷ []) }
{
    bank.is_sound();
    literal.0 == t.0
}

/// Has a clause only this literal?
fn has_only(bank: &Bank, clause: &[TermId], t: TermId) -> bool
    requires clause { All (Stands bank.now) clause.now }
    requires term { Stands bank.now t }
    ensures { result ≡ is_within (terms_at bank.now clause.now) (term_at bank.now t ∷ []) }
{
    for literal in clause {
        if !is_same(bank, *literal, t) {
            return false;
        }
    }
    true
}

impl Context {
    /// `END`
    pub fn end_line(&self) -> Judged
        requires { IsWhole self.now }
        ensures { Leads (state_of self.now) (only_when (is_untouched (state_of self.now).block) Ends) result self.now }
    {
        if self.is_untouched() {
            Judged::Ends
        } else {
            Judged::NotAllowed
        }
    }

    /// Has the block no line yet?
    pub fn is_untouched(&self) -> bool
        ensures { result ≡ is_untouched (state_of self.now).block }
    {
        self.introduced.is_none()
            && self.terms.is_empty()
            && self.log.len() == 0
            && self.parts.is_empty()
            && self.cases.is_empty()
            && self.measure.is_none()
    }

    /// `BOOT-STRAP`
    pub fn bootstrap_line(&mut self) -> Result<Judged, AllocError>
        requires { IsWhole self.old }
        ensures { IfOk result (λ judged. Leads (state_of self.old) (claimed (bootstrap_claim (state_of self.old) [])) judged self.new) }
    {
        if !self.is_plain() {
            return Ok(Judged::NotAllowed);
        }
        let alloc = self.bank.alloc();
        let text = Vec::from_slice(alloc, b"BOOT-STRAP\n")?;
        *self = Context::new(alloc)?;
        Ok(Judged::Claims(text))
    }

    /// Has a line only this literal?
    fn shows(&self, line: u64, t: TermId) -> bool
        requires whole { IsWhole self.now }
        requires term { Stands self.now.bank t }
        ensures { result ≡ has_only (clause_at (state_of self.now).block line) (term_at self.now.bank t ∷ []) }
    {
        if !self.log.stands(line) {
            return false;
        }
        has_only(&self.bank, self.log.clause_over(&self.bank, line), t)
    }

    /// May the block end in a function of so many arguments, as far as its name does not tell?
    fn may_declare(&self, arity: u64) -> bool
        ensures told { result ≡ (is_plain (state_of self.now).block && nat_lt arity (2 ^ 32)) }
        ensures fits { result ≡ true → arity < 2 ^ 32 }
    {
        self.is_plain() && arity < ARITY_LIMIT
    }

    /// `DCL`
    pub fn declaration_line(&mut self, function: &[u8], arity: u64) -> Result<Judged, AllocError>
        requires { IsWhole self.old }
        ensures { IfOk result (λ judged. Leads (state_of self.old) (claimed (declaration_claim (state_of self.old) (name function.now ∷ number arity ∷ []))) judged self.new) }
    {
        if !self.may_declare(arity) {
            return Ok(Judged::NotAllowed);
        }
        let text = named_line(self.bank.alloc(), b"DCL ", function)?;
        self.add_event(function, EntryKind::Dcl(arity as u32), text)
    }

    /// May a term be claimed by the block, as far as its name does not tell?
    fn is_claimable(&self, t: TermId) -> bool
        requires { Stands self.now.bank t }
        ensures { result ≡ (is_plain (state_of self.now).block && is_small (term_at self.now.bank t)) }
    {
        self.is_plain() && is_small(&self.bank, t)
    }

    /// `AXIOMATIZE`
    pub fn axiomatize_line(&mut self, event: &[u8], term: u64) -> Result<Judged, AllocError>
        requires { IsWhole self.old }
        ensures { IfOk result (λ judged. Leads (state_of self.old) (claimed (axiom_claim (state_of self.old) (name event.now ∷ number term ∷ []))) judged self.new) }
    {
        let Some(t) = self.term(term) else {
            return Ok(Judged::NotAllowed);
        };
        if !self.is_claimable(t) {
            return Ok(Judged::NotAllowed);
        }
        self.claim_axiom(event, t)
    }

    /// Adds an axiom, where its name may be added. A log does not tell its rule classes.
    fn claim_axiom(&mut self, event: &[u8], t: TermId) -> Result<Judged, AllocError>
        requires whole { IsWhole self.old }
        requires term { Stands self.old.bank t }
        ensures { IfOk result (λ judged. Leads (state_of self.old) (claimed (only_when (has_place (state_of self.old).history event.now) (Adds (Axiom event.now [] (term_at self.old.bank t))))) judged self.new) }
    {
        let text = term_line(&self.bank, b"AXIOM ", event, t)?;
        let kind = EntryKind::Axiom(Vec::new(self.bank.alloc()), t);
        self.add_event(event, kind, text)
    }

    /// `LEMMA`
    pub fn lemma_line(&mut self, lemma: &[u8], term: u64, line: u64) -> Result<Judged, AllocError>
        requires { IsWhole self.old }
        ensures { IfOk result (λ judged. Leads (state_of self.old) (claimed (lemma_claim (state_of self.old) (name lemma.now ∷ number term ∷ number line ∷ []))) judged self.new) }
    {
        let Some(t) = self.term(term) else {
            return Ok(Judged::NotAllowed);
        };
        if !self.is_shown(t, line) {
            return Ok(Judged::NotAllowed);
        }
        self.claim_lemma(lemma, t)
    }

    /// May the block end in this lemma, as far as its name does not tell?
    fn is_shown(&self, t: TermId, line: u64) -> bool
        requires whole { IsWhole self.now }
        requires term { Stands self.now.bank t }
        ensures { result ≡ (is_plain (state_of self.now).block && is_small (term_at self.now.bank t) && has_only (clause_at (state_of self.now).block line) (term_at self.now.bank t ∷ [])) }
    {
        self.is_claimable(t) && self.shows(line, t)
    }

    /// Adds a lemma, where its name may be added. A log does not tell its rule classes.
    fn claim_lemma(&mut self, lemma: &[u8], t: TermId) -> Result<Judged, AllocError>
        requires whole { IsWhole self.old }
        requires term { Stands self.old.bank t }
        ensures { IfOk result (λ judged. Leads (state_of self.old) (claimed (only_when (has_place (state_of self.old).history lemma.now) (Adds (Lemma lemma.now [] (term_at self.old.bank t))))) judged self.new) }
    {
        let text = term_line(&self.bank, b"LEMMA ", lemma, t)?;
        let kind = EntryKind::Lemma(Vec::new(self.bank.alloc()), t);
        self.add_event(lemma, kind, text)
    }

    /// `TOGGLE`
    pub fn toggle_line(
        &mut self,
        toggle: &[u8],
        old: &[u8],
        disables: u64,
    ) -> Result<Judged, AllocError>
        requires { IsWhole self.old }
        ensures { IfOk result (λ judged. Leads (state_of self.old) (claimed (toggle_claim (state_of self.old) (name toggle.now ∷ name old.now ∷ number disables ∷ []))) judged self.new) }
    {
        let s = self.bank.name(old)?;
        self.toggle_event(toggle, s, disables)
    }

    /// The same, for the symbol of the event.
    fn toggle_event(&mut self, toggle: &[u8], old: Sym, disables: u64) -> Result<Judged, AllocError>
        requires whole { IsWhole self.old }
        requires named { IsNamed self.old.bank old }
        ensures { IfOk result (λ judged. Leads (state_of self.old) (claimed (toggle_claim (state_of self.old) (name toggle.now ∷ name (text_at self.old.bank old) ∷ number disables ∷ []))) judged self.new) }
    {
        if !self.may_toggle(old, disables) {
            return Ok(Judged::NotAllowed);
        }
        let text = named_line(self.bank.alloc(), b"TOGGLE ", toggle)?;
        self.add_event(toggle, EntryKind::Toggle(old, disables == 1), text)
    }

    /// May the block end in a toggle of this event, as far as its name does not tell?
    fn may_toggle(&self, old: Sym, disables: u64) -> bool
        requires whole { IsWhole self.now }
        requires named { IsNamed self.now.bank old }
        ensures { result ≡ (is_plain (state_of self.now).block && (is_some (looked_up (text_at self.now.bank old) (state_of self.now).history) && nat_lt disables 2)) }
    {
        self.is_plain() && (self.is_event(old) && disables < 2)
    }

    /// Is it the name of an event, of the ground history or past it?
    fn is_event(&self, s: Sym) -> bool
        requires whole { IsWhole self.now }
        requires named { IsNamed self.now.bank s }
        ensures { result ≡ is_some (looked_up (text_at self.now.bank s) (state_of self.now).history) }
    {
        self.bank.is_sound();
        self.history.lookup(s).is_some()
    }

    /// `UNDO`
    pub fn undo_line(&mut self, event: &[u8]) -> Result<Judged, AllocError>
        requires { IsWhole self.old }
        ensures { IfOk result (λ judged. Leads (state_of self.old) (claimed (undo_claim (state_of self.old) (name event.now ∷ []))) judged self.new) }
    {
        let text = named_line(self.bank.alloc(), b"UNDO ", event)?;
        let s = self.bank.name(event)?;
        Ok(self.undo_event(s, text))
    }

    /// Undoes the event of a symbol and all later ones. The text is the line of that.
    fn undo_event(&mut self, s: Sym, text: Vec<u8>) -> Judged
        requires whole { IsWhole self.old }
        requires named { IsNamed self.old.bank s }
        requires text { text.items ≡ claim_text (Undoes (text_at self.old.bank s)) ++ (10 ∷ []) }
        ensures { Leads (state_of self.old) (claimed (undo_claim (state_of self.old) (name (text_at self.old.bank s) ∷ []))) result self.new }
    {
        if !self.is_plain() {
            return Judged::NotAllowed;
        }
        self.bank.is_sound();
        match self.history.undo_back_through(&mut self.bank, s) {
            Ok(_) => {
                self.begin_block();
                Judged::Claims(text)
            }
            Err(_) => Judged::NotAllowed,
        }
    }
}
