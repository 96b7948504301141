//! GEN, the move.
ghost use Rattle.std.specs.Prelude.{◌≡◌, [], All, IfOk, IfSome, MatchOption, Err, None, Ok};
ghost use Rattle.nq_bank.specs.Content.{Stands, terms_at};
ghost use Rattle.nq_event.specs.EventsAt.{hints_at};
ghost use Rattle.nq_history.specs.Events.{events_at, HistoryStands};
ghost use Rattle.nq_kernel.specs.Growing.{WorkStands, WorkGrows};
ghost use Rattle.nq_lines.specs.Lines.{IsTermIn};
ghost use Rattle.nq_goals.specs.Generalizing.{generalizings_of};
ghost use Rattle.nq_moves.specs.Ways.{IsMove};
ghost use Rattle.nq_generalize.specs.Found.{AreChosen, Generalizes};

use crate::candidates::candidates_of;
use crate::least::least_of;
use crate::literals::all_literals;
use nq_bank::{Bank, TermId};
use nq_history::{Hints, History};
use nq_kernel::{Stop, Work};
use nq_moves::{Moved, distinct_clause, generalize_by, rename_new};

/// The smallest candidates of a goal. It is none exactly where there is no candidate.
fn chosen(
    bank: &Bank,
    history: &History,
    hints: &Hints,
    goal: &[TermId],
) -> Result<Option<Vec<TermId>>, Stop>
    requires history { HistoryStands bank.now history.now }
    requires goal { All (Stands bank.now) goal.now }
    ensures chosen { IfOk result (λ found. MatchOption found (generalizings_of (events_at bank.now history.now) (hints_at bank.now hints.now) (terms_at bank.now goal.now) ≡ []) (λ v. AreChosen bank.now (events_at bank.now history.now) (hints_at bank.now hints.now) goal.now v.items)) }
    ensures memory { result ≡ Err Stop.OutOfSteps → ⊥ }
{
    if hints.no_generalize {
        return Ok(None);
    }
    let candidates = candidates_of(bank, history, goal)?;
    match candidates.as_slice() {
        [] => Ok(None),
        [first, others @ ..] => {
            let least = least_of(bank, *first, others)?;
            let terms = distinct_clause(bank, least.as_slice())?;
            Ok(Some(terms))
        }
    }
}

/// GEN of these candidates.
fn generalize_terms(
    work: &mut Work,
    history: &History,
    hints: &Hints,
    path: &[Vec<TermId>],
    goal: &[TermId],
    terms: &[TermId],
) -> Result<Moved, Stop>
    requires stands { WorkStands history.now work.old }
    requires path { All (λ earlier. All (IsTermIn history.now work.old) earlier.items) path.now }
    requires goal { All (IsTermIn history.now work.old) goal.now }
    requires terms { AreChosen work.old.bank (events_at work.old.bank history.now) (hints_at work.old.bank hints.now) goal.now terms.now }
    ensures moved { IfOk result (IsMove history.now work.new goal.now) }
    ensures legal { IfOk result (Generalizes (events_at work.old.bank history.now) (hints_at work.old.bank hints.now) work.old.bank work.new.bank path.now goal.now) }
    ensures grows { WorkGrows history.now work.old work.new }
    ensures out { result ≡ Err Stop.OutOfSteps → work.new.counter.used ≡ work.new.counter.limit }
{
    let known = all_literals(work.bank.alloc(), path, goal)?;
    let renaming = rename_new(work, history, known.as_slice(), goal, terms)?;
    generalize_by(work, history, goal, renaming)
}

/// GEN: the smallest calls that stand in two literals of a goal, or on both sides of one, are replaced by new variables, which stand in
/// no goal of the path. It is none exactly where there is no candidate, and then uses no steps. The path has the earlier goals, the
/// nearest first.
pub fn generalize_move(
    work: &mut Work,
    history: &History,
    hints: &Hints,
    path: &[Vec<TermId>],
    goal: &[TermId],
) -> Result<Option<Moved>, Stop>
    requires stands { WorkStands history.now work.old }
    requires path { All (λ earlier. All (IsTermIn history.now work.old) earlier.items) path.now }
    requires goal { All (IsTermIn history.now work.old) goal.now }
    ensures moved { IfOk result (λ found. IfSome found (IsMove history.now work.new goal.now)) }
    ensures legal { IfOk result (λ found. MatchOption found (generalizings_of (events_at work.old.bank history.now) (hints_at work.old.bank hints.now) (terms_at work.old.bank goal.now) ≡ []) (Generalizes (events_at work.old.bank history.now) (hints_at work.old.bank hints.now) work.old.bank work.new.bank path.now goal.now)) }
    ensures none { result ≡ Ok None → work.new ≡ work.old }
    ensures candidate { result ≡ Err Stop.OutOfSteps → generalizings_of (events_at work.old.bank history.now) (hints_at work.old.bank hints.now) (terms_at work.old.bank goal.now) ≡ [] → ⊥ }
    ensures grows { WorkGrows history.now work.old work.new }
    ensures out { result ≡ Err Stop.OutOfSteps → work.new.counter.used ≡ work.new.counter.limit }
{
    match chosen(&work.bank, history, hints, goal)? {
        Some(terms) => {
            let moved = generalize_terms(work, history, hints, path, goal, terms.as_slice())?;
            Ok(Some(moved))
        }
        None => Ok(None),
    }
}
