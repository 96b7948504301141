// The events that stand, and how one more is taken.
ghost use Rattle.std.specs.Prelude.{◌≡◌, ◌≤◌, ◌^◌, IfOk, IsTrue, [], length, take, true};
ghost use Rattle.std.specs.Option.{option_map};
ghost use Rattle.nq_form.specs.Widths.{IsNarrow};
ghost use Rattle.nq_sexp.specs.Tree.{tree};
ghost use Rattle.nq_logic.specs.Names.{event_names};
ghost use Rattle.nq_logic.specs.Terms.{Each};
ghost use Rattle.nq_logtext.specs.Symbols.{is_symbol};
ghost use Rattle.nq_bank.specs.Content.{text_at};
ghost use Rattle.nq_history.specs.Events.{event_at, ground_length, EntryStands};
ghost use Rattle.nq_kernel.specs.Ready.{IsReadyEvent};
ghost use Rattle.nq_block.specs.Blocks.{IsBlock};
ghost use Rattle.nq_block.specs.Closings.{CanClose, ClosingStands, IsFree, claim_at};
ghost use Rattle.nq_comment.specs.ReportViews.{answer_of};
ghost use Rattle.nq_comment.specs.declared.answer.FormAnswer.TheVariants as answers;
ghost use Rattle.nq_events.specs.OwnRefusals.{room_refusal};
ghost use Rattle.nq_event.specs.EventsAt.{EventStands, event_at as event_read};
ghost use Rattle.nq_spelling.specs.Spelled.{IsSpelled};
ghost use Rattle.nq_run.specs.HistoryView.{history_of, SessionStands};
ghost use Rattle.nq_run.specs.Sessions.{IsAdded, IsMarkBefore, IsUntaken, Takes, TakesEvent};
ghost use Rattle.nq_spelling.specs.SpelledEvents.{IsSpelledEvent};
ghost use Rattle.nq_answers.specs.Steps.{refused};

use crate::answers::{told, too_many_events};
use crate::proving::{Conjecture, block_of};
use nq_bank::{Bank, Mark};
use nq_block::Closing;
use nq_comment::FormAnswer;
use nq_event::{Event, parse_event};
use nq_history::{EVENT_LIMIT, Entry, History, PushFault};
use nq_kernel::{Log, Prover};
use nq_logtext::Text;
use nq_sexp::Sexp;
use nq_spelling::events_are_spelled;
use std::alloc::{AllocError, Global};

/// The history of a run, and the terms that its events speak of.
#[derive(Drop)]
pub(crate) struct Session {
    pub(crate) bank: Bank,
    pub(crate) history: History,
}

/// A form that is answered, and how: with or without the block of what it claims, and how many steps its event may take. The
/// mark was taken before the form was read.
#[derive(Clone, Copy)]
pub(crate) struct Given<'f, 'a> {
    pub(crate) form: &'f Sexp<'a>,
    pub(crate) mark: Mark,
    pub(crate) logging: bool,
    pub(crate) steps: u64,
}

/// What a form was answered: the history after it, and the text of its block in the log.
#[derive(Drop)]
pub(crate) struct Taken {
    pub(crate) session: Session,
    pub(crate) answer: FormAnswer,
    pub(crate) block: Text,
}

impl Session {
    /// The ground history.
    pub(crate) fn ground(alloc: Global) -> Result<Session, AllocError>
        ensures none { IfOk result (λ s. history_of s ≡ []) }
        ensures stands { IfOk result SessionStands }
        ensures whole { IfOk result (λ s. take ground_length s.history ≡ s.history) }
    {
        events_are_spelled();
        let mut bank = Bank::new(alloc)?;
        let history = History::ground(&mut bank)?;
        Ok(Session { bank, history })
    }

    /// Answers a form, and takes its event where it is accepted, proved or undone. With `logging` it gives the block of what the
    /// event claims. What the form made in the bank is given back where its event is not taken.
    pub(crate) fn take<P: Prover>(
        self,
        alloc: Global,
        prover: &mut P,
        form: &Sexp<'_>,
        logging: bool,
        steps: u64,
    ) -> Result<Taken, AllocError>
        requires stands { SessionStands self }
        requires learnt { P.has_learnt prover.old self.history }
        requires spelled { IsSpelled (tree form.now) }
        requires narrow { IsNarrow (2 ^ 25) (tree form.now) }
        ensures takes { IfOk result (Takes steps self (tree form.now) logging) }
        ensures learnt { IfOk result (λ r. P.has_learnt prover.new r.session.history) }
    {
        events_are_spelled();
        let Session { mut bank, history } = self;
        let mark = bank.mark();
        match parse_event(&mut bank, &history, form) {
            Ok(event) => {
                let session = Session { bank, history };
                let given = Given {
                    form,
                    mark,
                    logging,
                    steps,
                };
                session.take_event(alloc, prover, given, event)
            }
            Err(fault) => {
                let answer = told(fault)?;
                let session = Session { bank, history };
                Ok(session.untaken(alloc, mark, answer))
            }
        }
    }

    /// Takes the event of a form that isn't refused.
    fn take_event<P: Prover>(
        self,
        alloc: Global,
        prover: &mut P,
        given: Given<'_, '_>,
        event: Event,
    ) -> Result<Taken, AllocError>
        requires stands { SessionStands self }
        requires learnt { P.has_learnt prover.old self.history }
        requires mark { IsMarkBefore self.bank self.history given.mark }
        requires event { EventStands self.bank event }
        requires spelled { IsSpelledEvent (history_of self) (event_read self.bank event) }
        ensures takes { IfOk result (TakesEvent given.entry.steps self given.entry.mark (tree given.entry.form.now) (event_read self.bank event) given.entry.logging) }
        ensures learnt { IfOk result (λ r. P.has_learnt prover.new r.session.history) }
    {
        match event {
            Event::BootStrap => self.boot_strap(alloc, prover, given.logging),
            Event::AddShell(shell) => self.add_shell(alloc, prover, given, shell),
            Event::Dcl(name, formals) => self.declare(
                alloc,
                prover,
                given,
                name,
                formals.as_slice(),
            ),
            Event::Defn(name, formals, body, measures) => {
                self.define(
                    alloc,
                    prover,
                    given,
                    name,
                    formals,
                    body,
                    measures.as_slice(),
                )
            }
            Event::AddAxiom(name, classes, axiom) => {
                self.add_axiom(alloc, prover, given, name, classes, axiom)
            }
            Event::ProveLemma(name, classes, goal, hints) => {
                let lemma = Conjecture {
                    name,
                    goal,
                    hints: &hints,
                };
                self.prove_lemma(alloc, prover, given, lemma, classes)
            }
            Event::Toggle(name, old, disabled) => self.toggle(
                alloc, prover, given, name, old, disabled,
            ),
            Event::Undo(name) => self.undo(alloc, prover, given, name),
            Event::Skipped => Ok(self.untaken(alloc, given.mark, FormAnswer::Skipped)),
        }
    }

    /// The session as it was before the form, for one whose event is not taken. What the form made in the bank is given back.
    pub(crate) fn untaken(self, alloc: Global, mark: Mark, answer: FormAnswer) -> Taken
        requires stands { SessionStands self }
        requires mark { IsMarkBefore self.bank self.history mark }
        ensures { IsUntaken self mark (answer_of answer) result }
    {
        let Session { mut bank, history } = self;
        bank.release(mark);
        Taken {
            session: Session { bank, history },
            answer,
            block: Text::new(alloc),
        }
    }

    /// The refusal of a new event where there is no room for one.
    pub(crate) fn room_answer(&self, alloc: Global) -> Result<Option<FormAnswer>, AllocError>
        ensures { IfOk result (λ answer. option_map answer_of answer ≡ refused (room_refusal (history_of self.now))) }
    {
        if self.history.past_ground().len() >= EVENT_LIMIT {
            return Ok(Some(too_many_events(alloc)?));
        }
        Ok(None)
    }

    /// The block of an event that needs no proof; no text where no log is written.
    pub(crate) fn block(
        &self,
        alloc: Global,
        logging: bool,
        closing: &Closing,
    ) -> Result<Text, AllocError>
        requires session { SessionStands self.now }
        requires stands { ClosingStands self.now.bank closing.now }
        requires closing { CanClose self.now.bank self.now.history [] closing.now }
        ensures { IfOk result (λ text. logging ≡ true → IsBlock (history_of self.now) (claim_at self.now.bank closing.now) text) }
    {
        let log = Log::new(alloc);
        block_of(alloc, logging, &self.bank, &self.history, &log, closing)
    }

    /// The session with one event more, which the prover learns.
    pub(crate) fn added<P: Prover>(
        self,
        prover: &mut P,
        entry: Entry,
    ) -> Result<Session, AllocError>
        requires stands { SessionStands self }
        requires learnt { P.has_learnt prover.old self.history }
        requires mark { IsMarkBefore self.bank self.history entry.mark }
        requires entry { EntryStands self.bank entry }
        requires free { IsFree (history_of self) (text_at self.bank entry.name) }
        requires symbols { Each (λ n. IsTrue (is_symbol n)) (event_names (event_at self.bank entry)) }
        requires few { length (event_names (event_at self.bank entry)) ≤ 24 }
        requires ready { IsReadyEvent (history_of self) (event_at self.bank entry) }
        ensures added { IfOk result (IsAdded self entry) }
        ensures learnt { IfOk result (λ s. P.has_learnt prover.new s.history) }
    {
        events_are_spelled();
        let Session { bank, mut history } = self;
        match history.push(&bank, entry) {
            Ok(()) => {}
            Err(PushFault::Memory) => return Err(AllocError),
            Err(PushFault::NameInUse) => unreachable!(),
            Err(PushFault::TooManyEvents) => unreachable!(),
        }
        prover.learn(&bank, &history)?;
        Ok(Session { bank, history })
    }

    /// What is answered where an event is accepted that needs no proof.
    pub(crate) fn accepted<P: Prover>(
        self,
        prover: &mut P,
        entry: Entry,
        block: Text,
    ) -> Result<Taken, AllocError>
        requires stands { SessionStands self }
        requires learnt { P.has_learnt prover.old self.history }
        requires mark { IsMarkBefore self.bank self.history entry.mark }
        requires entry { EntryStands self.bank entry }
        requires free { IsFree (history_of self) (text_at self.bank entry.name) }
        requires symbols { Each (λ n. IsTrue (is_symbol n)) (event_names (event_at self.bank entry)) }
        requires few { length (event_names (event_at self.bank entry)) ≤ 24 }
        requires ready { IsReadyEvent (history_of self) (event_at self.bank entry) }
        ensures added { IfOk result (λ r. IsAdded self entry r.session) }
        ensures answer { IfOk result (λ r. r.answer ≡ answers.Accepted) }
        ensures block { IfOk result (λ r. r.block ≡ block) }
        ensures learnt { IfOk result (λ r. P.has_learnt prover.new r.session.history) }
    {
        let session = self.added(prover, entry)?;
        Ok(Taken {
            session,
            answer: FormAnswer::Accepted,
            block,
        })
    }
}
