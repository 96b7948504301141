//! IRR: whether a goal has a candidate.
ghost use Rattle.std.specs.Prelude.{◌≡◌, [], false};
ghost use Rattle.nq_logic.specs.Histories.{History};
ghost use Rattle.nq_bank.specs.Content.{Content, terms_at};
ghost use Rattle.nq_goals.specs.Dropping.{droppings_of};

use nq_bank::TermId;

/// May the goal have a candidate of IRR? One literal alone is all of its group.
pub fn may_drop(goal: &[TermId]) -> bool
    ensures { (bank : Content) (h : History) → result ≡ false → droppings_of h (terms_at bank goal.now) ≡ [] }
{
    match goal {
        [] => false,
        [_] => false,
        [_, _, ..] => true,
    }
}
