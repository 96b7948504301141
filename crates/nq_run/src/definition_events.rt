// Definitions.
ghost use Rattle.std.specs.Prelude.{◌≡◌, None, All, IfOk, map};
ghost use Rattle.std.specs.Option.{option_map};
ghost use Rattle.nq_sexp.specs.Tree.{tree};
ghost use Rattle.nq_bank.specs.Content.{IsNamed, Stands, term_at, text_at};
ghost use Rattle.nq_bank.specs.Shells.{texts_at};
ghost use Rattle.nq_comment.specs.ReportViews.{answer_of};
ghost use Rattle.nq_event.specs.EventsAt.{measure_at, DefnStands};
ghost use Rattle.nq_events.specs.Events as model;
ghost use Rattle.nq_run.specs.HistoryView.{history_of, SessionStands};
ghost use Rattle.nq_run.specs.Sessions.{IsMarkBefore, TakesEvent};
ghost use Rattle.nq_spelling.specs.SpelledEvents.{IsSpelledRecursion};
ghost use Rattle.nq_answers.specs.Steps.{untaken};

use crate::answers::unadmitted;
use crate::session::{Given, Session, Taken};
use nq_admit::{AdmitFault, admit};
use nq_bank::{Sym, TermId};
use nq_block::Closing;
use nq_calls::mentions_at;
use nq_comment::FormAnswer;
use nq_event::Measure;
use nq_history::{Entry, EntryKind};
use nq_kernel::Prover;
use std::alloc::{AllocError, Global};

impl Session {
    /// Why a definition isn't taken or tried: the Definition Principle refuses it, or there is no room.
    fn definition_answer(
        &self,
        alloc: Global,
        name: Sym,
        formals: &[Sym],
        body: TermId,
        measures: &[Measure],
    ) -> Result<Option<FormAnswer>, AllocError>
        requires stands { SessionStands self.now }
        requires event { DefnStands self.now.bank name formals.now body measures.now }
        ensures { IfOk result (λ answer. option_map answer_of answer
            ≡ untaken (history_of self.now) (model.Defn (text_at self.now.bank name) (texts_at self.now.bank formals.now)
            (term_at self.now.bank body) (map (measure_at self.now.bank) measures.now))) }
    {
        match admit(&self.bank, &self.history, name, formals, body, measures) {
            Ok(()) => Ok(None),
            Err(AdmitFault::Memory) => Err(AllocError),
            Err(fault) => Ok(Some(unadmitted(alloc, &self.bank, name, fault)?)),
        }
    }

    /// The function is defined, unless something keeps it from that.
    pub(crate) fn define<P: Prover>(
        self,
        alloc: Global,
        prover: &mut P,
        given: Given<'_, '_>,
        name: Sym,
        formals: Vec<Sym>,
        body: TermId,
        measures: &[Measure],
    ) -> Result<Taken, AllocError>
        requires stands { SessionStands self }
        requires learnt { P.has_learnt prover.old self.history }
        requires mark { IsMarkBefore self.bank self.history given.mark }
        requires event { DefnStands self.bank name formals.items body measures.now }
        requires spelled { IsSpelledRecursion (history_of self) (text_at self.bank name) (texts_at self.bank formals.items) (term_at self.bank body)
            (map (measure_at self.bank) measures.now) }
        ensures taken { IfOk result (TakesEvent given.entry.steps self given.entry.mark (tree given.entry.form.now)
            (model.Defn (text_at self.bank name) (texts_at self.bank formals.items) (term_at self.bank body) (map (measure_at self.bank) measures.now)) given.entry.logging) }
        ensures learnt { IfOk result (λ r. P.has_learnt prover.new r.session.history) }
    {
        if let Some(answer) = self.definition_answer(
            alloc,
            name,
            formals.as_slice(),
            body,
            measures,
        )? {
            return Ok(self.untaken(alloc, given.mark, answer));
        }
        let again = mentions_at(&self.bank, name, body)?;
        if again {
            return self.define_recursive(alloc, prover, given, name, formals, body, measures);
        }
        let told = Vec::from_slice(alloc, formals.as_slice())?;
        let block = self.block(alloc, given.logging, &Closing::Defn(name, told, body))?;
        let kind = EntryKind::Defn(formals, body, None);
        self.accepted(
            prover,
            Entry {
                name,
                kind,
                mark: given.mark,
            },
            block,
        )
    }
}
