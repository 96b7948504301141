//! Whether a goal is in normal form.
ghost use Rattle.std.specs.Prelude.{◌≡◌, ◌↔◌, ◌||◌, not, ◌&&◌, All, IfOk, IsTrue};
ghost use Rattle.std.specs.List.{list_any};
ghost use Rattle.nq_bank.specs.Content.{Stands, term_at, terms_at};
ghost use Rattle.nq_history.specs.Events.{events_at, HistoryStands};
ghost use Rattle.nq_history.specs.Hints.{HintsStand};
ghost use Rattle.nq_proof.specs.Clauses.{has_opposite};
ghost use Rattle.nq_goals.specs.Occurrences.{atoms_of, open_in};
ghost use Rattle.nq_goals.specs.Normal.{has_connective, has_decided_test, has_openable, has_settled, is_normal, is_settled, IsNormal};
ghost use Rattle.nq_normal.specs.Definitions.{hints_at};
ghost use Rattle.nq_normal.specs.Barred.{is_barred};
ghost use Rattle.nq_normal.specs.Plain.{is_plain};

use crate::atoms::atom_of;
use crate::barred::{is_both, is_either};
use crate::open::has_open_in;
use crate::opposites::has_opposite;
use crate::rules::has_rewritable;
use crate::settled::is_settled;
use crate::sought::Sought;
use nq_bank::{Bank, TermId};
use nq_history::{Hints, History};
use std::alloc::AllocError;

/// Is some literal of the goal, its outer NOT aside, a value or an equation of a term with itself?
fn has_settled_atom(bank: &Bank, goal: &[TermId]) -> bool
    requires { All (Stands bank.now) goal.now }
    ensures { result ≡ list_any is_settled (atoms_of (terms_at bank.now goal.now)) }
{
    match goal {
        [] => false,
        [first, rest @ ..] => {
            if is_settled(bank, atom_of(bank, *first)) {
                true
            } else {
                has_settled_atom(bank, rest)
            }
        }
    }
}

/// Is some literal settled at once, or does one stand beside its NOT?
fn has_settled(bank: &Bank, goal: &[TermId]) -> bool
    requires { All (Stands bank.now) goal.now }
    ensures { result ≡ has_settled (terms_at bank.now goal.now) }
{
    let settled = has_settled_atom(bank, goal);
    let opposite = has_opposite(bank, goal, goal);
    is_either(settled, opposite)
}

/// Is the goal in normal form, rules apart? Each shared node is looked at once. Whether a rule without hypotheses rewrites it
/// is another test.
pub fn is_plain(
    bank: &Bank,
    history: &History,
    hints: &Hints,
    goal: &[TermId],
) -> Result<bool, AllocError>
    requires history { HistoryStands bank.now history.now }
    requires hints { HintsStand bank.now hints.now }
    requires goal { All (Stands bank.now) goal.now }
    ensures { IfOk result (λ answer. answer ≡ is_plain (events_at bank.now history.now) (hints_at bank.now hints.now) (terms_at bank.now goal.now)) }
{
    let barred = has_open_in(bank, &Sought::Barred(history, hints), goal)?;
    let settled = has_settled(bank, goal);
    Ok(!is_either(barred, settled))
}

/// Is the goal in normal form? Each shared node is looked at once, and once more for each rule.
pub fn is_normal(
    bank: &Bank,
    history: &History,
    hints: &Hints,
    goal: &[TermId],
) -> Result<bool, AllocError>
    requires history { HistoryStands bank.now history.now }
    requires hints { HintsStand bank.now hints.now }
    requires goal { All (Stands bank.now) goal.now }
    ensures is { IfOk result (λ answer. answer ≡ is_normal (events_at bank.now history.now) (hints_at bank.now hints.now) (terms_at bank.now goal.now)) }
    ensures tells { IfOk result (λ answer. IsTrue answer ↔ IsNormal (events_at bank.now history.now) (hints_at bank.now hints.now) (terms_at bank.now goal.now)) }
{
    let plain = is_plain(bank, history, hints, goal)?;
    if !plain {
        return Ok(false);
    }
    let rewritable = has_rewritable(bank, history, hints, goal)?;
    Ok(is_both(plain, !rewritable))
}
