//! FERT: whether a goal has a candidate.
ghost use Rattle.std.specs.Prelude.{◌≡◌, [], All, IfOk, Some, false};
ghost use Rattle.nq_bank.specs.Content.{Stands, term_at, terms_at};
ghost use Rattle.nq_goals.specs.Equations.{both_orders, readings};
ghost use Rattle.nq_goals.specs.Fertilizing.{from_readings, from_literals};
ghost use Rattle.nq_stuck.specs.Pairs.{sides_at, SidesStand};
ghost use Rattle.nq_stuck.specs.Candidates.{can_replace};

use crate::calls::{CALL_LIMIT, calls_in};
use crate::equations::{Sides, denied_equation};
use crate::fault::Fault;
use crate::lists::{clause_without, contains};
use nq_bank::{Bank, TermId};

/// Is the side of an equation that a literal denies a call and no value, and does it stand in another literal?
fn can_replace(bank: &Bank, goal: &[TermId], literal: TermId, side: TermId) -> Result<bool, Fault>
    requires goal { All (Stands bank.now) goal.now }
    requires literal { Stands bank.now literal }
    requires side { Stands bank.now side }
    ensures { IfOk result (λ b. b ≡ false → can_replace (terms_at bank.now goal.now) (term_at bank.now literal) (term_at bank.now side) ≡ false) }
{
    if bank.is_value(side) {
        return Ok(false);
    }
    let others = clause_without(bank, literal, goal)?;
    let calls = calls_in(bank, others.as_slice(), CALL_LIMIT)?;
    Ok(contains(bank, side, calls.as_slice()))
}

/// The same of one of the two sides.
fn can_replace_one(
    bank: &Bank,
    goal: &[TermId],
    literal: TermId,
    sides: Sides,
) -> Result<bool, Fault>
    requires goal { All (Stands bank.now) goal.now }
    requires literal { Stands bank.now literal }
    requires sides { SidesStand bank.now sides }
    ensures { IfOk result (λ b. b ≡ false → from_readings (terms_at bank.now goal.now) (term_at bank.now literal) (both_orders (Some (sides_at bank.now sides))) ≡ []) }
{
    if can_replace(bank, goal, literal, sides.left)? {
        Ok(true)
    } else {
        can_replace(bank, goal, literal, sides.right)
    }
}

/// Is the literal the NOT of an equation by which the goal can be led on?
fn is_fertile(bank: &Bank, goal: &[TermId], literal: TermId) -> Result<bool, Fault>
    requires goal { All (Stands bank.now) goal.now }
    requires literal { Stands bank.now literal }
    ensures { IfOk result (λ b. b ≡ false → from_readings (terms_at bank.now goal.now) (term_at bank.now literal) (readings (term_at bank.now literal)) ≡ []) }
{
    match denied_equation(bank, literal) {
        Some(sides) => can_replace_one(bank, goal, literal, sides),
        None => Ok(false),
    }
}

/// Has one of these literals of a goal a candidate of FERT?
pub fn has_fertilization(bank: &Bank, goal: &[TermId], literals: &[TermId]) -> Result<bool, Fault>
    requires goal { All (Stands bank.now) goal.now }
    requires literals { All (Stands bank.now) literals.now }
    ensures { IfOk result (λ b. b ≡ false → from_literals (terms_at bank.now goal.now) (terms_at bank.now literals.now) ≡ []) }
{
    match literals {
        [] => Ok(false),
        [first, rest @ ..] => {
            if is_fertile(bank, goal, *first)? {
                Ok(true)
            } else {
                let later = has_fertilization(bank, goal, rest)?;
                Ok(later)
            }
        }
    }
}
