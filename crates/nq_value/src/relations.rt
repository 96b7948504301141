//! Rows of two arguments that give T or F.
ghost use Rattle.std.specs.Prelude.{◌≡◌, ◌∷◌, [], true, Some};
ghost use Rattle.nq_logic.specs.Terms.{call};
ghost use Rattle.nq_logic.specs.Values.{is_value};
ghost use Rattle.nq_bank.specs.Content.{Stands, term_at};
ghost use Rattle.nq_proof.specs.Clauses.{same_term};
ghost use Rattle.nq_proof.specs.Values.{value_of, truth};
ghost use Rattle.nq_value.specs.RowNames.{connective_name, comparison_name};

use crate::kinds::{is_true, number};
use crate::row::{Comparison, Connective};
use nq_bank::{Bank, TermId};

/// Are two terms one?
pub fn is_same(bank: &Bank, a: TermId, b: TermId) -> bool
    requires first { Stands bank.now a }
    requires second { Stands bank.now b }
    ensures { result ≡ same_term (term_at bank.now a) (term_at bank.now b) }
{
    bank.is_sound();
    a.0 == b.0
}

/// Does a connective hold of two values?
pub fn connective_holds(bank: &Bank, connective: Connective, a: TermId, b: TermId) -> bool
    requires first { Stands bank.now a }
    requires second { Stands bank.now b }
    requires first_value { is_value (term_at bank.now a) ≡ true }
    requires second_value { is_value (term_at bank.now b) ≡ true }
    ensures { value_of (call (connective_name connective) (term_at bank.now a ∷ term_at bank.now b ∷ [])) ≡ Some (truth result) }
{
    let first = is_true(bank, a);
    let second = is_true(bank, b);
    match connective {
        Connective::And => first && second,
        Connective::Or => first || second,
        Connective::Implies => !first || second,
        Connective::Iff => first == second,
    }
}

/// Does a comparison hold of the numbers of two values?
pub fn comparison_holds(bank: &Bank, comparison: Comparison, a: TermId, b: TermId) -> bool
    requires first { Stands bank.now a }
    requires second { Stands bank.now b }
    requires first_value { is_value (term_at bank.now a) ≡ true }
    requires second_value { is_value (term_at bank.now b) ≡ true }
    ensures { value_of (call (comparison_name comparison) (term_at bank.now a ∷ term_at bank.now b ∷ [])) ≡ Some (truth result) }
{
    let first = number(bank, a);
    let second = number(bank, b);
    match comparison {
        Comparison::Lessp => first < second,
        Comparison::Greaterp => first > second,
        Comparison::Leq => first <= second,
        Comparison::Geq => first >= second,
    }
}
