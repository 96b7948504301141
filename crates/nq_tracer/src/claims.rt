//! The claim of a goal.
ghost use Rattle.std.specs.Prelude.{◌<◌, All, IfOk, length};
ghost use Rattle.nq_bank.specs.Content.{Grows, IsIdOf, Stands, terms_at};
ghost use Rattle.nq_goals.specs.Inducting.{claim_of};

use nq_bank::{Bank, BankFault, TermId, ground, ground_name};

/// Makes the goal as one term: its literal, or the right nest of OR of its literals.
pub fn claim_of(bank: &mut Bank, goal: &[TermId]) -> Result<TermId, BankFault>
    requires some { 0 < length goal.now }
    requires stand { All (Stands bank.old) goal.now }
    ensures ok { IfOk result (λ t. IsIdOf bank.new t (claim_of (terms_at bank.old goal.now))) }
    ensures grows { Grows bank.old bank.new }
{
    if goal.len() == 1 {
        return Ok(goal[0]);
    }
    let rest = claim_of(bank, &goal[1..])?;
    let name = ground_name(bank, ground::OR);
    bank.app(name, &[goal[0], rest])
}
