// Lemmas that no search proved.
ghost use Rattle.std.specs.Prelude.{◌≡◌, IfOk};
ghost use Rattle.nq_sexp.specs.Tree.{tree};
ghost use Rattle.nq_bank.specs.Content.{Stands, term_at};
ghost use Rattle.nq_history.specs.Hints.{HintsStand};
ghost use Rattle.nq_kernel.specs.Hints.{HintsAreIn};
ghost use Rattle.nq_kernel.specs.Over.{TermIsIn};
ghost use Rattle.nq_comment.specs.ReportViews.{answer_of};
ghost use Rattle.nq_event.specs.EventsAt.{hints_at};
ghost use Rattle.nq_fragments.specs.Fragments.{IsInNoFragment};
ghost use Rattle.nq_goals.specs.Hints.{first_goal};
ghost use Rattle.nq_goals.specs.Spent.{IsFalse};
ghost use Rattle.nq_answers.specs.Goals.{goal_text};
ghost use Rattle.nq_run.specs.GivingUp.{IsLeft, answer_by};
ghost use Rattle.nq_run.specs.HistoryView.{history_of, SessionStands};
ghost use Rattle.nq_run.specs.Sessions.{IsMarkBefore};

use crate::proving::Conjecture;
use crate::session::{Given, Session, Taken};
use nq_comment::FormAnswer;
use nq_giving_up::{Failing, give_up};
use std::alloc::{AllocError, Global};

/// The answer to a lemma whose first goal has this text: the tree of its failure, or that its steps are used up.
fn answer_by(text: Vec<u8>, failing: Failing) -> FormAnswer
    ensures { answer_of result ≡ answer_by text.items failing }
{
    match failing {
        Failing::Failed(steps, cause) => FormAnswer::Failed(text, steps, cause),
        Failing::OutOfSteps => FormAnswer::OutOfSteps,
    }
}

impl Session {
    /// The session as it was before a lemma that no search proved, with what is told of it.
    pub(crate) fn given_up(
        self,
        alloc: Global,
        given: Given<'_, '_>,
        lemma: Conjecture<'_>,
        text: Vec<u8>,
    ) -> Result<Taken, AllocError>
        requires stands { SessionStands self }
        requires mark { IsMarkBefore self.bank self.history given.mark }
        requires goal { Stands self.bank lemma.goal }
        requires over { TermIsIn self.bank self.history lemma.goal }
        requires hints { HintsStand self.bank lemma.hints.now }
        requires hint_terms { HintsAreIn self.bank self.history lemma.hints.now }
        requires outside { IsInNoFragment (history_of self) (term_at self.bank lemma.goal) }
        requires not_false { IsFalse (history_of self) (first_goal (history_of self) (hints_at self.bank lemma.hints.now) (term_at self.bank lemma.goal)) → ⊥ }
        requires text { text.items ≡ goal_text (first_goal (history_of self) (hints_at self.bank lemma.hints.now) (term_at self.bank lemma.goal)) }
        ensures { IfOk result (IsLeft given.entry.steps self given.entry.mark (tree given.entry.form.now) (hints_at self.bank lemma.entry.hints.now) (term_at self.bank lemma.entry.goal)) }
    {
        let Session { bank, history } = self;
        let given_up = give_up(alloc, bank, &history, lemma.hints, lemma.goal, given.steps)?;
        let session = Session {
            bank: given_up.bank,
            history,
        };
        let answer = answer_by(text, given_up.failing);
        Ok(session.untaken(alloc, given.mark, answer))
    }
}
