// Axioms and lemmas.
ghost use Rattle.std.specs.Prelude.{◌≡◌, ◌∷◌, ◌++◌, [], true, map, IfOk, None};
ghost use Rattle.std.specs.Option.{option_map};
ghost use Rattle.nq_logic.specs.Derivations.{Derivable};
ghost use Rattle.nq_logic.specs.Formulas.{holds};
ghost use Rattle.nq_logic.specs.Histories as logic;
ghost use Rattle.nq_sexp.specs.Tree.{tree};
ghost use Rattle.nq_bank.specs.Content.{IsNamed, Stands, term_at, text_at};
ghost use Rattle.nq_history.specs.Events.{class_of};
ghost use Rattle.nq_history.specs.Hints.{HintsStand};
ghost use Rattle.nq_kernel.specs.Hints.{HintsAreIn};
ghost use Rattle.nq_block.specs.Closings.{IsFree};
ghost use Rattle.nq_comment.specs.ReportViews.{answer_of};
ghost use Rattle.nq_events.specs.Events as model;
ghost use Rattle.nq_events.specs.OwnRefusals.{formula_refusal, shape_refusal};
ghost use Rattle.nq_events.specs.Refusals.{NotOfShape};
ghost use Rattle.nq_event.specs.EventsAt.{hints_at};
ghost use Rattle.nq_run.specs.HistoryView.{history_of, SessionStands};
ghost use Rattle.nq_run.specs.Outcome.{AreBlocks};
ghost use Rattle.nq_run.specs.Sessions.{IsFoundBy, IsMarkBefore, TakesEvent, TriesLemma, found_claims, way_in};
ghost use Rattle.nq_spelling.specs.SpelledEvents.{IsSpelledFormula};
ghost use Rattle.nq_answers.specs.Steps.{refused};

use crate::answers::{name_in_use, not_of_shape, proved_by};
use crate::proving::{Conjecture, Found, is_proved, try_lemma, way_in};
use crate::session::{Given, Session, Taken};
use nq_bank::{Bank, Mark, Sym, TermId};
use nq_block::Closing;
use nq_comment::FormAnswer;
use nq_first_goal::{failing, judge};
use nq_giving_up::trace_proof;
use nq_history::{Class, Entry, EntryKind};
use nq_kernel::Prover;
use nq_logtext::Text;
use nq_rules::fits;
use std::alloc::{AllocError, Global};

/// The first of these classes as a rule of which a term can't serve.
fn unfit_class(bank: &Bank, classes: &[Class], t: TermId) -> Option<Class>
    requires { Stands bank.now t }
    ensures { option_map (λ class. NotOfShape (class_of class)) result ≡ shape_refusal (map class_of classes.now) (term_at bank.now t) }
{
    for class in classes {
        if !fits(bank, *class, t) {
            return Some(*class);
        }
    }
    None
}

impl Session {
    /// Why an axiom or a lemma isn't taken or tried: its name is in use, it is no rule of one of its classes, or there is no room.
    fn formula_answer(
        &self,
        alloc: Global,
        name: Sym,
        classes: &[Class],
        term: TermId,
    ) -> Result<Option<FormAnswer>, AllocError>
        requires stands { SessionStands self.now }
        requires name { IsNamed self.now.bank name }
        requires term { Stands self.now.bank term }
        ensures { IfOk result (λ answer. option_map answer_of answer
            ≡ refused (formula_refusal (history_of self.now) (text_at self.now.bank name) (map class_of classes.now) (term_at self.now.bank term))) }
    {
        if self.history.in_use(&self.bank, name) {
            return Ok(Some(name_in_use(alloc, self.bank.text(name))?));
        }
        match unfit_class(&self.bank, classes, term) {
            Some(class) => Ok(Some(not_of_shape(alloc, class)?)),
            None => self.room_answer(alloc),
        }
    }

    /// The axiom is added, unless something keeps it from that.
    pub(crate) fn add_axiom<P: Prover>(
        self,
        alloc: Global,
        prover: &mut P,
        given: Given<'_, '_>,
        name: Sym,
        classes: Vec<Class>,
        term: TermId,
    ) -> Result<Taken, AllocError>
        requires stands { SessionStands self }
        requires learnt { P.has_learnt prover.old self.history }
        requires mark { IsMarkBefore self.bank self.history given.mark }
        requires name { IsNamed self.bank name }
        requires term { Stands self.bank term }
        requires spelled { IsSpelledFormula (history_of self) (text_at self.bank name) (term_at self.bank term) }
        ensures taken { IfOk result (TakesEvent given.entry.steps self given.entry.mark (tree given.entry.form.now)
            (model.AddAxiom (text_at self.bank name) (map class_of classes.items) (term_at self.bank term)) given.entry.logging) }
        ensures learnt { IfOk result (λ r. P.has_learnt prover.new r.session.history) }
    {
        match self.formula_answer(alloc, name, classes.as_slice(), term)? {
            Some(answer) => Ok(self.untaken(alloc, given.mark, answer)),
            None => {
                let block = self.block(alloc, given.logging, &Closing::Axiomatize(name, term))?;
                let kind = EntryKind::Axiom(classes, term);
                let entry = Entry {
                    name,
                    kind,
                    mark: given.mark,
                };
                self.accepted(prover, entry, block)
            }
        }
    }

    /// The lemma is tried, unless something keeps it from that, and added where it is proved.
    pub(crate) fn prove_lemma<P: Prover>(
        self,
        alloc: Global,
        prover: &mut P,
        given: Given<'_, '_>,
        lemma: Conjecture<'_>,
        classes: Vec<Class>,
    ) -> Result<Taken, AllocError>
        requires stands { SessionStands self }
        requires learnt { P.has_learnt prover.old self.history }
        requires mark { IsMarkBefore self.bank self.history given.mark }
        requires name { IsNamed self.bank lemma.name }
        requires goal { Stands self.bank lemma.goal }
        requires hints { HintsStand self.bank lemma.hints.now }
        requires hint_terms { HintsAreIn self.bank self.history lemma.hints.now }
        requires spelled { IsSpelledFormula (history_of self) (text_at self.bank lemma.name) (term_at self.bank lemma.goal) }
        ensures taken { IfOk result (TakesEvent given.entry.steps self given.entry.mark (tree given.entry.form.now)
            (model.ProveLemma (text_at self.bank lemma.entry.name) (map class_of classes.items) (term_at self.bank lemma.entry.goal) (hints_at self.bank lemma.entry.hints.now)) given.entry.logging) }
        ensures learnt { IfOk result (λ r. P.has_learnt prover.new r.session.history) }
    {
        match self.formula_answer(alloc, lemma.name, classes.as_slice(), lemma.goal)? {
            Some(answer) => Ok(self.untaken(alloc, given.mark, answer)),
            None => self.try_formula(alloc, prover, given, lemma, classes),
        }
    }

    /// The lemma is tried. It is proved by a fragment, or what follows is told by its first goal and by what the prover found.
    fn try_formula<P: Prover>(
        self,
        alloc: Global,
        prover: &mut P,
        given: Given<'_, '_>,
        lemma: Conjecture<'_>,
        classes: Vec<Class>,
    ) -> Result<Taken, AllocError>
        requires stands { SessionStands self }
        requires learnt { P.has_learnt prover.old self.history }
        requires mark { IsMarkBefore self.bank self.history given.mark }
        requires name { IsNamed self.bank lemma.name }
        requires goal { Stands self.bank lemma.goal }
        requires hints { HintsStand self.bank lemma.hints.now }
        requires hint_terms { HintsAreIn self.bank self.history lemma.hints.now }
        requires spelled { IsSpelledFormula (history_of self) (text_at self.bank lemma.name) (term_at self.bank lemma.goal) }
        requires free { IsFree (history_of self) (text_at self.bank lemma.name) }
        ensures tries { IfOk result (TriesLemma given.entry.steps self given.entry.mark (tree given.entry.form.now) (text_at self.bank lemma.entry.name) (map class_of classes.items) (term_at self.bank lemma.entry.goal)
            (hints_at self.bank lemma.entry.hints.now) given.entry.logging) }
        ensures learnt { IfOk result (λ r. P.has_learnt prover.new r.session.history) }
    {
        let Session { bank, history } = self;
        let tried = try_lemma(
            alloc,
            prover,
            bank,
            &history,
            lemma,
            given.logging,
            given.steps,
        )?;
        let session = Session {
            bank: tried.bank,
            history,
        };
        match way_in(tried.found) {
            Some(way) => session.proved(
                prover,
                given.mark,
                lemma,
                classes,
                proved_by(way),
                tried.block,
            ),
            None => session.searched(
                alloc,
                prover,
                given,
                lemma,
                classes,
                tried.found,
                tried.block,
            ),
        }
    }

    /// The lemma is added, with this answer and this block.
    fn proved<P: Prover>(
        self,
        prover: &mut P,
        mark: Mark,
        lemma: Conjecture<'_>,
        classes: Vec<Class>,
        answer: FormAnswer,
        block: Text,
    ) -> Result<Taken, AllocError>
        requires stands { SessionStands self }
        requires learnt { P.has_learnt prover.old self.history }
        requires mark { IsMarkBefore self.bank self.history mark }
        requires name { IsNamed self.bank lemma.name }
        requires goal { Stands self.bank lemma.goal }
        requires spelled { IsSpelledFormula (history_of self) (text_at self.bank lemma.name) (term_at self.bank lemma.goal) }
        requires free { IsFree (history_of self) (text_at self.bank lemma.name) }
        requires shown { Derivable (history_of self) (holds (term_at self.bank lemma.goal)) }
        ensures after { IfOk result (λ r. history_of r.session ≡ history_of self ++ logic.Lemma (text_at self.bank lemma.entry.name) (map class_of classes.items) (term_at self.bank lemma.entry.goal) ∷ []) }
        ensures stands_after { IfOk result (λ r. SessionStands r.session) }
        ensures bank { IfOk result (λ r. r.session.bank ≡ self.bank) }
        ensures answer { IfOk result (λ r. r.answer ≡ answer) }
        ensures block { IfOk result (λ r. r.block ≡ block) }
        ensures learnt { IfOk result (λ r. P.has_learnt prover.new r.session.history) }
    {
        let kind = EntryKind::Lemma(classes, lemma.goal);
        let entry = Entry {
            name: lemma.name,
            kind,
            mark,
        };
        let session = self.added(prover, entry)?;
        Ok(Taken {
            session,
            answer,
            block,
        })
    }

    /// The answer to a lemma in no fragment: it fails where its first goal is false, and where a goal is left over and moves did not
    /// prove it; else it is told what was found, and a lemma of which nothing was found is given up.
    fn searched<P: Prover>(
        self,
        alloc: Global,
        prover: &mut P,
        given: Given<'_, '_>,
        lemma: Conjecture<'_>,
        classes: Vec<Class>,
        found: Found,
        block: Text,
    ) -> Result<Taken, AllocError>
        requires stands { SessionStands self }
        requires learnt { P.has_learnt prover.old self.history }
        requires mark { IsMarkBefore self.bank self.history given.mark }
        requires name { IsNamed self.bank lemma.name }
        requires goal { Stands self.bank lemma.goal }
        requires hints { HintsStand self.bank lemma.hints.now }
        requires hint_terms { HintsAreIn self.bank self.history lemma.hints.now }
        requires spelled { IsSpelledFormula (history_of self) (text_at self.bank lemma.name) (term_at self.bank lemma.goal) }
        requires free { IsFree (history_of self) (text_at self.bank lemma.name) }
        requires found { IsFoundBy given.steps (history_of self) (term_at self.bank lemma.goal) found }
        requires other { way_in found ≡ None }
        requires written { given.logging ≡ true → AreBlocks (history_of self) (found_claims (text_at self.bank lemma.name) (term_at self.bank lemma.goal) found) block }
        ensures tries { IfOk result (TriesLemma given.entry.steps self given.entry.mark (tree given.entry.form.now) (text_at self.bank lemma.entry.name) (map class_of classes.items) (term_at self.bank lemma.entry.goal)
            (hints_at self.bank lemma.entry.hints.now) given.entry.logging) }
        ensures learnt { IfOk result (λ r. P.has_learnt prover.new r.session.history) }
    {
        let Session { bank, history } = self;
        let judged = judge(alloc, bank, &history, lemma.hints, lemma.goal)?;
        let session = Session {
            bank: judged.bank,
            history,
        };
        let proved = is_proved(found);
        let known = failing(judged.cause, proved);
        if let Some(cause) = known {
            let answer = FormAnswer::Failed(judged.text, judged.steps, cause);
            return Ok(session.untaken(alloc, given.mark, answer));
        }
        match found {
            Found::Moves(_) => {
                let Session { bank, history } = session;
                let traced = trace_proof(alloc, bank, &history, lemma.hints, lemma.goal)?;
                let session = Session {
                    bank: traced.bank,
                    history,
                };
                let answer = FormAnswer::ProvedFrom(judged.text, traced.steps);
                session.proved(prover, given.mark, lemma, classes, answer, block)
            }
            Found::OutOfSteps => { Ok(session.untaken(alloc, given.mark, FormAnswer::OutOfSteps)) }
            Found::Unknown => session.given_up(alloc, given, lemma, judged.text),
            Found::Fragment(_, _) => unreachable!(),
        }
    }
}
