// Definitions of functions that call themselves.
ghost use Rattle.std.specs.Prelude.{◌≡◌, ◌++◌, ◌∷◌, [], None, IfOk, map, true};
ghost use Rattle.nq_logic.specs.Admissible.{mentions};
ghost use Rattle.nq_logic.specs.Histories as logic;
ghost use Rattle.nq_sexp.specs.Tree.{tree};
ghost use Rattle.nq_bank.specs.Content.{Stands, term_at, text_at};
ghost use Rattle.nq_bank.specs.Shells.{texts_at};
ghost use Rattle.nq_language.specs.Printing.{printed};
ghost use Rattle.nq_comment.specs.ReportViews.{answer_of};
ghost use Rattle.nq_comment.specs.Reports as model;
ghost use Rattle.nq_event.specs.EventsAt.{measure_at, DefnStands};
ghost use Rattle.nq_events.specs.Events as events;
ghost use Rattle.nq_kernel.specs.Ready.{IsReadyEvent};
ghost use Rattle.nq_block.specs.Closings.{FunctionNames, IsFree};
ghost use Rattle.nq_run.specs.HistoryView.{history_of, SessionStands};
ghost use Rattle.nq_run.specs.Sessions.{IsMarkBefore, TakesEvent};
ghost use Rattle.nq_spelling.specs.SpelledEvents.{IsSpelledRecursion};
ghost use Rattle.nq_answers.specs.Steps.{measured_definition, untaken};

use crate::recursions::{Kept, Recursion, try_recursion};
use crate::session::{Given, Session, Taken};
use nq_bank::{Mark, Sym, TermId};
use nq_comment::FormAnswer;
use nq_event::Measure;
use nq_history::{Entry, EntryKind};
use nq_kernel::Prover;
use nq_logtext::Text;
use nq_measures::tried_measures;
use nq_print::print_term;
use std::alloc::{AllocError, Global};

impl Session {
    /// The function is defined, where one of the measures that are tried is proved. Else each of them is told.
    pub(crate) fn define_recursive<P: Prover>(
        self,
        alloc: Global,
        prover: &mut P,
        given: Given<'_, '_>,
        name: Sym,
        formals: Vec<Sym>,
        body: TermId,
        measures: &[Measure],
    ) -> Result<Taken, AllocError>
        requires stands { SessionStands self }
        requires learnt { P.has_learnt prover.old self.history }
        requires mark { IsMarkBefore self.bank self.history given.mark }
        requires event { DefnStands self.bank name formals.items body measures.now }
        requires spelled { IsSpelledRecursion (history_of self) (text_at self.bank name) (texts_at self.bank formals.items) (term_at self.bank body)
            (map (measure_at self.bank) measures.now) }
        requires free { untaken (history_of self) (events.Defn (text_at self.bank name) (texts_at self.bank formals.items) (term_at self.bank body) (map (measure_at self.bank) measures.now)) ≡ None }
        requires recursive { mentions (text_at self.bank name) (term_at self.bank body) ≡ true }
        ensures taken { IfOk result (TakesEvent given.entry.steps self given.entry.mark (tree given.entry.form.now)
            (events.Defn (text_at self.bank name) (texts_at self.bank formals.items) (term_at self.bank body) (map (measure_at self.bank) measures.now)) given.entry.logging) }
        ensures learnt { IfOk result (λ r. P.has_learnt prover.new r.session.history) }
    {
        let Session { mut bank, history } = self;
        let tried = tried_measures(&mut bank, formals.as_slice(), measures)?;
        let recursion = Recursion {
            name,
            formals: formals.as_slice(),
            body,
        };
        let sought = try_recursion(
            alloc,
            prover,
            bank,
            &history,
            recursion,
            tried.as_slice(),
            given.logging,
            given.steps,
        )?;
        let session = Session {
            bank: sought.bank,
            history,
        };
        match sought.kept {
            None => Ok(session.untaken(alloc, given.mark, FormAnswer::Unmeasured(sought.trials))),
            Some(kept) => session.measured(
                alloc,
                prover,
                given.mark,
                name,
                formals,
                body,
                kept,
                sought.block,
            ),
        }
    }

    /// The function is defined by this measure, with this block.
    fn measured<P: Prover>(
        self,
        alloc: Global,
        prover: &mut P,
        mark: Mark,
        name: Sym,
        formals: Vec<Sym>,
        body: TermId,
        kept: Kept,
        block: Text,
    ) -> Result<Taken, AllocError>
        requires stands { SessionStands self }
        requires learnt { P.has_learnt prover.old self.history }
        requires mark { IsMarkBefore self.bank self.history mark }
        requires names { FunctionNames self.bank name formals.items body }
        requires measure { Stands self.bank kept.measure }
        requires free { IsFree (history_of self) (text_at self.bank name) }
        requires ready { IsReadyEvent (history_of self) (logic.Defines (measured_definition (text_at self.bank name) (texts_at self.bank formals.items) (term_at self.bank body) (term_at self.bank kept.measure))) }
        ensures after { IfOk result (λ r. history_of r.session ≡ history_of self ++ logic.Defines (measured_definition (text_at self.bank name) (texts_at self.bank formals.items) (term_at self.bank body)
            (term_at self.bank kept.measure)) ∷ []) }
        ensures stands_after { IfOk result (λ r. SessionStands r.session) }
        ensures bank { IfOk result (λ r. r.session.bank ≡ self.bank) }
        ensures answer { IfOk result (λ r. answer_of r.answer ≡ model.AcceptedBy kept.place (printed (term_at self.bank kept.measure))) }
        ensures block { IfOk result (λ r. r.block ≡ block) }
        ensures learnt { IfOk result (λ r. P.has_learnt prover.new r.session.history) }
    {
        let mut text = Vec::new(alloc);
        print_term(&self.bank, kept.measure, &mut text)?;
        let kind = EntryKind::Defn(formals, body, Some(kept.measure));
        let session = self.added(prover, Entry { name, kind, mark })?;
        Ok(Taken {
            session,
            answer: FormAnswer::AcceptedBy(kept.place, text),
            block,
        })
    }
}
