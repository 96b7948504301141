//! The row of IF.
ghost use Rattle.std.specs.Prelude.{◌≡◌, ◌∷◌, [], true, All, codes};
ghost use Rattle.nq_logic.specs.Terms.{call};
ghost use Rattle.nq_logic.specs.Values.{is_value};
ghost use Rattle.nq_bank.specs.Content.{Stands, term_at, terms_at};
ghost use Rattle.nq_value.specs.Answers.{IsFound};

use crate::found::Found;
use crate::kinds::is_true;
use nq_bank::{Bank, TermId};

/// IF is its third argument where the first is F, else the second.
fn branch(bank: &Bank, test: TermId, first: TermId, second: TermId) -> Found
    requires test { Stands bank.now test }
    requires first { Stands bank.now first }
    requires second { Stands bank.now second }
    requires test_value { is_value (term_at bank.now test) ≡ true }
    requires first_value { is_value (term_at bank.now first) ≡ true }
    requires second_value { is_value (term_at bank.now second) ≡ true }
    ensures { IsFound bank.now result (call (codes "IF") (term_at bank.now test ∷ term_at bank.now first ∷ term_at bank.now second ∷ [])) }
{
    if is_true(bank, test) {
        Found::Known(first)
    } else {
        Found::Known(second)
    }
}

/// What IF gives; of another count of arguments than three it has no row.
pub fn found_at_if(bank: &Bank, arguments: &[TermId]) -> Found
    requires stand { All (Stands bank.now) arguments.now }
    requires values { All (λ a. is_value (term_at bank.now a) ≡ true) arguments.now }
    ensures { IsFound bank.now result (call (codes "IF") (terms_at bank.now arguments.now)) }
{
    if arguments.len() != 3 {
        return Found::NotBuiltIn;
    }
    branch(bank, arguments[0], arguments[1], arguments[2])
}
