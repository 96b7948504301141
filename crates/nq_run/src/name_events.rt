// Functions without axioms, and names that are disabled or enabled.
ghost use Rattle.std.specs.Prelude.{◌≡◌, ◌<◌, ◌^◌, All, Bool, IfOk, length, true};
ghost use Rattle.std.specs.Option.{option_map};
ghost use Rattle.nq_sexp.specs.Tree.{tree};
ghost use Rattle.nq_bank.specs.Content.{IsNamed, text_at};
ghost use Rattle.nq_bank.specs.Shells.{texts_at};
ghost use Rattle.nq_comment.specs.ReportViews.{answer_of};
ghost use Rattle.nq_events.specs.Events as model;
ghost use Rattle.nq_events.specs.OwnRefusals.{own_refusal};
ghost use Rattle.nq_logtext.specs.Symbols.{is_symbol};
ghost use Rattle.nq_run.specs.HistoryView.{history_of, SessionStands};
ghost use Rattle.nq_run.specs.Sessions.{IsMarkBefore, TakesEvent};
ghost use Rattle.nq_spelling.specs.SpelledEvents.{IsSpelledFunction};
ghost use Rattle.nq_answers.specs.Steps.{refused};

use crate::answers::{formal_is_constant, name_in_use, no_such_event, repeated_formal};
use crate::session::{Given, Session, Taken};
use nq_admit::{first_constant, first_repeated};
use nq_bank::Sym;
use nq_block::Closing;
use nq_comment::FormAnswer;
use nq_history::{Entry, EntryKind};
use nq_kernel::Prover;
use std::alloc::{AllocError, Global};

impl Session {
    /// Why a function isn't declared: its name is in use, a formal is T, F or NIL or stands twice, or there is no room.
    fn declaration_answer(
        &self,
        alloc: Global,
        name: Sym,
        formals: &[Sym],
    ) -> Result<Option<FormAnswer>, AllocError>
        requires stands { SessionStands self.now }
        requires name { IsNamed self.now.bank name }
        requires formals { All (IsNamed self.now.bank) formals.now }
        ensures { IfOk result (λ answer. option_map answer_of answer
            ≡ refused (own_refusal (history_of self.now) (model.Dcl (text_at self.now.bank name) (texts_at self.now.bank formals.now)))) }
    {
        if self.history.in_use(&self.bank, name) {
            return Ok(Some(name_in_use(alloc, self.bank.text(name))?));
        }
        if let Some(formal) = first_constant(&self.bank, formals) {
            return Ok(Some(formal_is_constant(alloc, self.bank.text(formal))?));
        }
        if let Some(formal) = first_repeated(&self.bank, formals)? {
            return Ok(Some(repeated_formal(alloc, self.bank.text(formal))?));
        }
        self.room_answer(alloc)
    }

    /// The function is declared, unless something keeps it from that.
    pub(crate) fn declare<P: Prover>(
        self,
        alloc: Global,
        prover: &mut P,
        given: Given<'_, '_>,
        name: Sym,
        formals: &[Sym],
    ) -> Result<Taken, AllocError>
        requires stands { SessionStands self }
        requires learnt { P.has_learnt prover.old self.history }
        requires mark { IsMarkBefore self.bank self.history given.mark }
        requires name { IsNamed self.bank name }
        requires formals { All (IsNamed self.bank) formals.now }
        requires spelled { IsSpelledFunction (text_at self.bank name) (texts_at self.bank formals.now) }
        ensures taken { IfOk result (TakesEvent given.entry.steps self given.entry.mark (tree given.entry.form.now)
            (model.Dcl (text_at self.bank name) (texts_at self.bank formals.now)) given.entry.logging) }
        ensures learnt { IfOk result (λ r. P.has_learnt prover.new r.session.history) }
    {
        if let Some(answer) = self.declaration_answer(alloc, name, formals)? {
            return Ok(self.untaken(alloc, given.mark, answer));
        }
        let arity = formals.len() as u32;
        let block = self.block(alloc, given.logging, &Closing::Dcl(name, arity))?;
        let kind = EntryKind::Dcl(arity);
        self.accepted(
            prover,
            Entry {
                name,
                kind,
                mark: given.mark,
            },
            block,
        )
    }

    /// Why an event isn't disabled or enabled: the new name is in use, no event has the old one, or there is no room.
    fn toggle_answer(
        &self,
        alloc: Global,
        name: Sym,
        old: Sym,
    ) -> Result<Option<FormAnswer>, AllocError>
        requires stands { SessionStands self.now }
        requires name { IsNamed self.now.bank name }
        requires old { IsNamed self.now.bank old }
        ensures { (disabled : Bool) → IfOk result (λ answer. option_map answer_of answer
            ≡ refused (own_refusal (history_of self.now) (model.Toggle (text_at self.now.bank name) (text_at self.now.bank old) disabled))) }
    {
        if self.history.in_use(&self.bank, name) {
            return Ok(Some(name_in_use(alloc, self.bank.text(name))?));
        }
        self.bank.is_sound();
        if self.history.lookup(old).is_none() {
            return Ok(Some(no_such_event(alloc, self.bank.text(old))?));
        }
        self.room_answer(alloc)
    }

    /// The old name is disabled or enabled from here on, unless something keeps it from that.
    pub(crate) fn toggle<P: Prover>(
        self,
        alloc: Global,
        prover: &mut P,
        given: Given<'_, '_>,
        name: Sym,
        old: Sym,
        disabled: bool,
    ) -> Result<Taken, AllocError>
        requires stands { SessionStands self }
        requires learnt { P.has_learnt prover.old self.history }
        requires mark { IsMarkBefore self.bank self.history given.mark }
        requires name { IsNamed self.bank name }
        requires old { IsNamed self.bank old }
        requires spelled { is_symbol (text_at self.bank name) ≡ true }
        ensures taken { IfOk result (TakesEvent given.entry.steps self given.entry.mark (tree given.entry.form.now)
            (model.Toggle (text_at self.bank name) (text_at self.bank old) disabled) given.entry.logging) }
        ensures learnt { IfOk result (λ r. P.has_learnt prover.new r.session.history) }
    {
        if let Some(answer) = self.toggle_answer(alloc, name, old)? {
            return Ok(self.untaken(alloc, given.mark, answer));
        }
        let block = self.block(alloc, given.logging, &Closing::Toggle(name, old, disabled))?;
        let kind = EntryKind::Toggle(old, disabled);
        self.accepted(
            prover,
            Entry {
                name,
                kind,
                mark: given.mark,
            },
            block,
        )
    }
}
