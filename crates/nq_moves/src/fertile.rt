//! FERT: the best equation of a goal is used up.
ghost use Rattle.std.specs.Prelude.{◌≡◌, [], true, false, All, IfOk, IfSome, Err, MatchOption, None, Ok};
ghost use Rattle.nq_logic.specs.Values.{is_value};
ghost use Rattle.nq_bank.specs.Content.{Stands, term_at, terms_at};
ghost use Rattle.nq_history.specs.Events.{events_at};
ghost use Rattle.nq_kernel.specs.Growing.{WorkStands, WorkGrows};
ghost use Rattle.nq_lines.specs.Lines.{IsTermIn};
ghost use Rattle.nq_goals.specs.Fertilizing.{FertilizeMove, fertilizings_of};
ghost use Rattle.nq_goals.specs.Replacing.{stands_in};
ghost use Rattle.nq_moves.specs.Fertilized.{IsChosen};
ghost use Rattle.nq_moves.specs.OfTable.{IsOfTable};
ghost use Rattle.nq_moves.specs.Swapped.{CrossingStands, part_at};
ghost use Rattle.nq_moves.specs.Ways.{IsMove};

use crate::moved::{Crossing, Moved};
use crate::swapping::{has_place, swap_sides};
use crate::weighing::{Choice, Standing, choose_equation, stands_in_one_of};
use nq_bank::TermId;
use nq_history::{Hints, History};
use nq_kernel::{Stop, Work};
use nq_lines::argument_at;

/// The crossing of a literal at a side, where the term stands in it.
fn crossing_in(
    work: &Work,
    history: &History,
    goal: &[TermId],
    from: TermId,
    whole: TermId,
    side: u64,
) -> Result<Option<Crossing>, Stop>
    requires stands { WorkStands history.now work.now }
    requires from { Stands work.now.bank from }
    requires no_value { is_value (term_at work.now.bank from) ≡ false }
    requires crossing { CrossingStands history.now work.now goal.now (record { whole = whole; place = side }) }
    ensures crossing { IfOk result (λ found. IfSome found (CrossingStands history.now work.now goal.now)) }
    ensures holds { IfOk result (λ found. IfSome found (λ x. stands_in (term_at work.now.bank from) (part_at x.place (term_at work.now.bank x.whole)) ≡ true)) }
    ensures memory { result ≡ Err Stop.OutOfSteps → ⊥ }
{
    let _ = (history.len(), goal.len());
    let part = argument_at(&work.bank, whole, side);
    let inside = stands_in_one_of(&work.bank, from, &[part])?;
    if inside {
        Ok(Some(Crossing { whole, place: side }))
    } else {
        Ok(None)
    }
}

/// The crossing of the literal at a place, where it has that side, and the term stands in it.
fn crossing_at(
    work: &Work,
    history: &History,
    goal: &[TermId],
    from: TermId,
    place: usize,
    side: u64,
) -> Result<Option<Crossing>, Stop>
    requires stands { WorkStands history.now work.now }
    requires goal { All (IsTermIn history.now work.now) goal.now }
    requires from { Stands work.now.bank from }
    requires no_value { is_value (term_at work.now.bank from) ≡ false }
    ensures crossing { IfOk result (λ found. IfSome found (CrossingStands history.now work.now goal.now)) }
    ensures holds { IfOk result (λ found. IfSome found (λ x. stands_in (term_at work.now.bank from) (part_at x.place (term_at work.now.bank x.whole)) ≡ true)) }
    ensures memory { result ≡ Err Stop.OutOfSteps → ⊥ }
{
    if place >= goal.len() {
        return Ok(None);
    }
    let whole = goal[place];
    if has_place(&work.bank, whole, side) {
        crossing_in(work, history, goal, from, whole, side)
    } else {
        Ok(None)
    }
}

/// The one argument in which a side takes the other's place, where that is so.
fn crossing_of(
    work: &Work,
    history: &History,
    goal: &[TermId],
    from: TermId,
    standing: Standing,
) -> Result<Option<Crossing>, Stop>
    requires stands { WorkStands history.now work.now }
    requires goal { All (IsTermIn history.now work.now) goal.now }
    requires from { Stands work.now.bank from }
    requires no_value { is_value (term_at work.now.bank from) ≡ false }
    ensures crossing { IfOk result (λ found. IfSome found (CrossingStands history.now work.now goal.now)) }
    ensures holds { IfOk result (λ found. IfSome found (λ x. stands_in (term_at work.now.bank from) (part_at x.place (term_at work.now.bank x.whole)) ≡ true)) }
    ensures memory { result ≡ Err Stop.OutOfSteps → ⊥ }
{
    if standing.count == 1 {
        crossing_at(work, history, goal, from, standing.place, standing.side)
    } else {
        Ok(None)
    }
}

/// FERT by a choice.
fn use_choice(
    work: &mut Work,
    history: &History,
    goal: &[TermId],
    choice: Choice,
) -> Result<Moved, Stop>
    requires stands { WorkStands history.now work.old }
    requires goal { All (IsTermIn history.now work.old) goal.now }
    requires choice { IsChosen work.old.bank (fertilizings_of (terms_at work.old.bank goal.now)) choice }
    ensures moved { IfOk result (IsMove history.now work.new goal.now) }
    ensures legal { IfOk result (IsOfTable (FertilizeMove (events_at work.old.bank history.now)) work.old.bank work.new.bank goal.now) }
    ensures grows { WorkGrows history.now work.old work.new }
    ensures out { result ≡ Err Stop.OutOfSteps → work.new.counter.used ≡ work.new.counter.limit }
{
    let r = choice.reading;
    let crossing = crossing_of(work, history, goal, r.from, choice.standing)?;
    swap_sides(work, history, goal, r, crossing)
}

/// FERT: an equation of the goal is used up, and its one side takes the other's place. It is none exactly where there is no
/// candidate, and then uses no steps.
pub fn fertilize_move(
    work: &mut Work,
    history: &History,
    _hints: &Hints,
    goal: &[TermId],
) -> Result<Option<Moved>, Stop>
    requires stands { WorkStands history.now work.old }
    requires goal { All (IsTermIn history.now work.old) goal.now }
    ensures moved { IfOk result (λ found. IfSome found (IsMove history.now work.new goal.now)) }
    ensures legal { IfOk result (λ found. MatchOption found (fertilizings_of (terms_at work.old.bank goal.now) ≡ []) (IsOfTable (FertilizeMove (events_at work.old.bank history.now)) work.old.bank work.new.bank goal.now)) }
    ensures none { result ≡ Ok None → work.new ≡ work.old }
    ensures candidate { result ≡ Err Stop.OutOfSteps → fertilizings_of (terms_at work.old.bank goal.now) ≡ [] → ⊥ }
    ensures grows { WorkGrows history.now work.old work.new }
    ensures out { result ≡ Err Stop.OutOfSteps → work.new.counter.used ≡ work.new.counter.limit }
{
    match choose_equation(&work.bank, goal)? {
        Some(choice) => {
            let moved = use_choice(work, history, goal, choice)?;
            Ok(Some(moved))
        }
        None => Ok(None),
    }
}
