//! Goals in normal form and without copies of literals.
ghost use Rattle.std.specs.Prelude.{◌≡◌, All, IfOk, true};
ghost use Rattle.nq_bank.specs.Content.{Stands, terms_at};
ghost use Rattle.nq_history.specs.Events.{events_at, HistoryStands};
ghost use Rattle.nq_history.specs.Hints.{HintsStand};
ghost use Rattle.nq_goals.specs.Moves.{IsWithoutCopies};
ghost use Rattle.nq_event.specs.EventsAt.{hints_at};
ghost use Rattle.nq_waterfall.specs.Trails.{goals_at};
ghost use Rattle.nq_legal.specs.Plain.{ArePlain, IsPlain};

use nq_bank::{Bank, TermId};
use nq_history::{Hints, History};
use nq_normal::is_normal;
use nq_rule::clause_of;
use std::alloc::AllocError;

/// Are these the same ids?
fn is_same(these: &[TermId], others: &[TermId]) -> bool
    ensures { result ≡ true → these.now ≡ others.now }
{
    match (these, others) {
        ([], []) => true,
        ([t, ts @ ..], [u, us @ ..]) => t.0 == u.0 && is_same(ts, us),
        _ => false,
    }
}

/// Is each literal of the goal there once?
fn is_without_copies(bank: &Bank, goal: &[TermId]) -> Result<bool, AllocError>
    requires { All (Stands bank.now) goal.now }
    ensures { IfOk result (λ b. b ≡ true → IsWithoutCopies (terms_at bank.now goal.now)) }
{
    match clause_of(bank, goal) {
        Ok(clause) => Ok(is_same(clause.as_slice(), goal)),
        Err(_) => Err(AllocError),
    }
}

/// Is the goal in normal form, and each literal of it there once?
fn is_plain(
    bank: &Bank,
    history: &History,
    hints: &Hints,
    goal: &[TermId],
) -> Result<bool, AllocError>
    requires history { HistoryStands bank.now history.now }
    requires hints { HintsStand bank.now hints.now }
    requires goal { All (Stands bank.now) goal.now }
    ensures { IfOk result (λ b. b ≡ true → IsPlain (events_at bank.now history.now) (hints_at bank.now hints.now) (terms_at bank.now goal.now)) }
{
    if is_without_copies(bank, goal)? {
        is_normal(bank, history, hints, goal)
    } else {
        Ok(false)
    }
}

/// Is each goal in normal form, and each literal of it there once?
pub fn are_plain(
    bank: &Bank,
    history: &History,
    hints: &Hints,
    goals: &[Vec<TermId>],
) -> Result<bool, AllocError>
    requires history { HistoryStands bank.now history.now }
    requires hints { HintsStand bank.now hints.now }
    requires goals { All (λ goal. All (Stands bank.now) goal.items) goals.now }
    ensures { IfOk result (λ b. b ≡ true → ArePlain (events_at bank.now history.now) (hints_at bank.now hints.now) (goals_at bank.now goals.now)) }
{
    match goals {
        [] => Ok(true),
        [first, rest @ ..] => {
            if is_plain(bank, history, hints, first.as_slice())? {
                are_plain(bank, history, hints, rest)
            } else {
                Ok(false)
            }
        }
    }
}
