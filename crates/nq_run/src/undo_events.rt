// Events that take others away.
ghost use Rattle.std.specs.Prelude.{◌≡◌, ℕ, IfOk, is_some, true, false};
ghost use Rattle.nq_form.specs.Form.{Form};
ghost use Rattle.nq_sexp.specs.Tree.{tree};
ghost use Rattle.nq_logic.specs.Ground.{ground_history};
ghost use Rattle.nq_logic.specs.Names.{before_event, event_in, looked_up};
ghost use Rattle.nq_bank.specs.Content.{IsNamed, text_at};
ghost use Rattle.nq_bank.specs.declared.node.Mark.{Mark as MarkOfBank};
ghost use Rattle.nq_events.specs.Events as model;
ghost use Rattle.nq_run.specs.Banks.{IsGivenBack};
ghost use Rattle.nq_run.specs.HistoryView.{history_of, SessionStands};
ghost use Rattle.nq_run.specs.Sessions.{IsMarkBefore, TakesEvent};

use crate::answers::{ground_event, no_such_event};
use crate::session::{Given, Session, Taken};
use nq_bank::Sym;
use nq_block::Closing;
use nq_comment::FormAnswer;
use nq_history::{GROUND_LENGTH, UndoFault};
use nq_kernel::Prover;
use nq_spelling::events_are_spelled;
use std::alloc::{AllocError, Global};

impl Session {
    /// The ground history again.
    pub(crate) fn boot_strap<P: Prover>(
        self,
        alloc: Global,
        prover: &mut P,
        logging: bool,
    ) -> Result<Taken, AllocError>
        requires stands { SessionStands self }
        requires learnt { P.has_learnt prover.old self.history }
        ensures taken { (limit : ℕ) (mark : MarkOfBank) (form : Form) → IfOk result (TakesEvent limit self mark form model.BootStrap logging) }
        ensures learnt { IfOk result (λ r. P.has_learnt prover.new r.session.history) }
    {
        let block = self.block(alloc, logging, &Closing::BootStrap)?;
        events_are_spelled();
        let Session {
            mut bank,
            mut history,
        } = self;
        history.back_to_ground(&mut bank);
        prover.forget(GROUND_LENGTH as u64);
        Ok(Taken {
            session: Session { bank, history },
            answer: FormAnswer::Accepted,
            block,
        })
    }

    /// The named event and all later ones are gone. The block is made before, while the name still stands in the bank.
    pub(crate) fn undo<P: Prover>(
        self,
        alloc: Global,
        prover: &mut P,
        given: Given<'_, '_>,
        name: Sym,
    ) -> Result<Taken, AllocError>
        requires stands { SessionStands self }
        requires learnt { P.has_learnt prover.old self.history }
        requires mark { IsMarkBefore self.bank self.history given.mark }
        requires name { IsNamed self.bank name }
        ensures taken { IfOk result (TakesEvent given.entry.steps self given.entry.mark (tree given.entry.form.now) (model.Undo (text_at self.bank name)) given.entry.logging) }
        ensures learnt { IfOk result (λ r. P.has_learnt prover.new r.session.history) }
    {
        self.bank.is_sound();
        match self.history.undo_count(name) {
            Ok(count) => {
                let block = self.block(alloc, given.logging, &Closing::Undo(name))?;
                Ok(Taken {
                    session: self.undone(prover, name),
                    answer: FormAnswer::Undone(count),
                    block,
                })
            }
            Err(UndoFault::NoSuchEvent) => {
                let answer = no_such_event(alloc, self.bank.text(name))?;
                Ok(self.untaken(alloc, given.mark, answer))
            }
            Err(UndoFault::GroundEvent) => {
                let answer = ground_event(alloc, self.bank.text(name))?;
                Ok(self.untaken(alloc, given.mark, answer))
            }
        }
    }

    /// The session before the event of this name, with what it brought and all later ones brought given back.
    fn undone<P: Prover>(self, prover: &mut P, name: Sym) -> Session
        requires stands { SessionStands self }
        requires learnt { P.has_learnt prover.old self.history }
        requires name { IsNamed self.bank name }
        requires known { is_some (looked_up (text_at self.bank name) (history_of self)) ≡ true }
        requires event { is_some (event_in (text_at self.bank name) (history_of self)) ≡ true }
        requires past { is_some (event_in (text_at self.bank name) ground_history) ≡ false }
        ensures before { history_of result ≡ before_event (text_at self.bank name) (history_of self) }
        ensures stands_after { SessionStands result }
        ensures bank { IsGivenBack self result }
        ensures learnt_after { P.has_learnt prover.new result.history }
    {
        events_are_spelled();
        let Session {
            mut bank,
            mut history,
        } = self;
        bank.is_sound();
        match history.undo_back_through(&mut bank, name) {
            Ok(_) => {}
            Err(_) => unreachable!(),
        }
        prover.forget(history.len());
        Session { bank, history }
    }
}
