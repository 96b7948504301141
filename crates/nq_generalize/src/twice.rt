//! Whether a term stands in a goal twice: in two literals, or on both sides of one.
ghost use Rattle.std.specs.Prelude.{◌≡◌, ◌||◌, false, nat_le, All, IfOk, Err};
ghost use Rattle.nq_logic.specs.Values.{is_value};
ghost use Rattle.nq_bank.specs.Content.{Stands, term_at, terms_at};
ghost use Rattle.nq_goals.specs.Generalizing.{literals_with, is_on_both_sides_of_one};

use crate::answers::{counted, is_either};
use crate::sides::{is_on_both_sides, stands_inside};
use nq_bank::{Bank, TermId};
use nq_kernel::Stop;
use nq_stuck::atom_of;

/// In how many of the literals a term stands that is no value.
fn literals_with(bank: &Bank, a: TermId, goal: &[TermId]) -> Result<u64, Stop>
    requires term { Stands bank.now a }
    requires goal { All (Stands bank.now) goal.now }
    requires other { is_value (term_at bank.now a) ≡ false }
    ensures count { IfOk result (λ n. n ≡ literals_with (term_at bank.now a) (terms_at bank.now goal.now)) }
    ensures memory { result ≡ Err Stop.OutOfSteps → ⊥ }
{
    let mut count = 0u64;
    for literal in goal {
        let here = stands_inside(bank, a, *literal)?;
        count = counted(count, here);
    }
    Ok(count)
}

/// Does a term that is no value stand on both sides of a literal that is a call of EQUAL or LESSP, or the NOT of one?
fn is_on_both_sides_of_one(bank: &Bank, a: TermId, goal: &[TermId]) -> Result<bool, Stop>
    requires term { Stands bank.now a }
    requires goal { All (Stands bank.now) goal.now }
    requires other { is_value (term_at bank.now a) ≡ false }
    ensures answer { IfOk result (λ b. b ≡ is_on_both_sides_of_one (term_at bank.now a) (terms_at bank.now goal.now)) }
    ensures memory { result ≡ Err Stop.OutOfSteps → ⊥ }
{
    let mut found = false;
    for literal in goal {
        let atom = atom_of(bank, *literal);
        let here = is_on_both_sides(bank, a, atom)?;
        found = is_either(found, here);
    }
    Ok(found)
}

/// Does a term that is no value stand in two literals, or on both sides of one?
pub fn stands_twice(bank: &Bank, a: TermId, goal: &[TermId]) -> Result<bool, Stop>
    requires term { Stands bank.now a }
    requires goal { All (Stands bank.now) goal.now }
    requires other { is_value (term_at bank.now a) ≡ false }
    ensures answer { IfOk result (λ b. b ≡ (nat_le 2 (literals_with (term_at bank.now a) (terms_at bank.now goal.now)) || is_on_both_sides_of_one (term_at bank.now a) (terms_at bank.now goal.now))) }
    ensures memory { result ≡ Err Stop.OutOfSteps → ⊥ }
{
    let count = literals_with(bank, a, goal)?;
    let balanced = is_on_both_sides_of_one(bank, a, goal)?;
    Ok(is_either(2 <= count, balanced))
}
