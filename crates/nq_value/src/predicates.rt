//! Rows of one argument that give T or F.
ghost use Rattle.std.specs.Prelude.{◌≡◌, ◌∷◌, [], true, Some};
ghost use Rattle.nq_logic.specs.Terms.{call};
ghost use Rattle.nq_logic.specs.Values.{is_value};
ghost use Rattle.nq_bank.specs.Content.{Stands, term_at};
ghost use Rattle.nq_proof.specs.Values.{value_of, truth};
ghost use Rattle.nq_value.specs.RowNames.{test_name};

use crate::kinds::{is_atom, is_negative, is_pair, is_true, is_truth, number, numeral};
use crate::row::Test;
use nq_bank::{Bank, TermId};

/// Does a test hold of a value?
pub fn test_holds(bank: &Bank, test: Test, t: TermId) -> bool
    requires stands { Stands bank.now t }
    requires value { is_value (term_at bank.now t) ≡ true }
    ensures { value_of (call (test_name test) (term_at bank.now t ∷ [])) ≡ Some (truth result) }
{
    match test {
        Test::Truep => is_truth(bank, t),
        Test::Falsep => !is_true(bank, t),
        Test::Numberp => numeral(bank, t).is_some(),
        Test::Listp => is_pair(bank, t),
        Test::Litatom => is_atom(bank, t),
        Test::Negativep => is_negative(bank, t),
        Test::Not => !is_true(bank, t),
        Test::Nlistp => !is_pair(bank, t),
        Test::Zerop => number(bank, t) == 0,
    }
}
