//! The tree of a lemma's failure, by the legal mover over the rewriter of literals.
ghost use Rattle.std.specs.Prelude.{◌≡◌, IfOk};
ghost use Rattle.nq_bank.specs.Content.{Stands, term_at};
ghost use Rattle.nq_history.specs.Events.{HistoryStands, events_at};
ghost use Rattle.nq_history.specs.Hints.{HintsStand};
ghost use Rattle.nq_kernel.specs.Hints.{HintsAreIn};
ghost use Rattle.nq_kernel.specs.Over.{TermIsIn};
ghost use Rattle.nq_kernel.specs.Ready.{IsReady};
ghost use Rattle.nq_event.specs.EventsAt.{hints_at};
ghost use Rattle.nq_goals.specs.Hints.{first_goal};
ghost use Rattle.nq_giving_up.specs.Failing.{IsFailing};

use crate::giving_up::{GivenUp, give_up_by};
use nq_bank::{Bank, TermId};
use nq_closer::SearchCloser;
use nq_history::{Hints, History};
use nq_inductor::OneCase;
use nq_legal::Legal;
use nq_literal::LiteralRewriter;
use nq_rule_table::Rules;
use std::alloc::{AllocError, Global};

/// What is told of a lemma by simplification, SUBST, ELIM, FERT, GEN, IRR and inductions by one case, in work
/// that begins with no step used and may take so many. Goals whose inductions led to proved goals alone are closed by the free search.
pub fn give_up(
    alloc: Global,
    bank: Bank,
    history: &History,
    hints: &Hints,
    goal: TermId,
    steps: u64,
) -> Result<GivenUp, AllocError>
    requires history { HistoryStands bank history.now }
    requires ready { IsReady (events_at bank history.now) }
    requires goal { Stands bank goal }
    requires over { TermIsIn bank history.now goal }
    requires hints { HintsStand bank hints.now }
    requires hint_terms { HintsAreIn bank history.now hints.now }
    ensures bank { IfOk result (λ given. given.bank ≡ bank) }
    ensures told { IfOk result (λ given. IsFailing steps (events_at bank history.now) (hints_at bank hints.now) (first_goal (events_at bank history.now) (hints_at bank hints.now) (term_at bank goal)) given.failing) }
{
    let rules = Rules::of(&bank, history)?;
    let mut mover = Legal {
        closer: SearchCloser { rules: &rules },
        rewriter: LiteralRewriter::new(alloc, hints, &rules, u64::MAX),
        inductor: OneCase,
    };
    give_up_by(alloc, bank, &mut mover, history, hints, goal, steps)
}
