//! Which literals stand in a clause.
ghost use Rattle.std.specs.Prelude.{◌≡◌, ◌∷◌, All, IsTrue};
ghost use Rattle.nq_logic.specs.Terms.{IsAmong};
ghost use Rattle.nq_bank.specs.Content.{Stands, term_at, terms_at};
ghost use Rattle.nq_quick.specs.Lines.{AreAmong, signed};

use crate::heads::{Head, head_of};
use crate::truth::contains;
use nq_bank::{Bank, TermId};

/// Is a term the other one, or its NOT, as that one is true or false?
fn is_signed(bank: &Bank, literal: TermId, value: bool, t: TermId) -> bool
    requires literal { Stands bank.now literal }
    requires term { Stands bank.now t }
    ensures { IsTrue result → term_at bank.now literal ≡ signed value (term_at bank.now t) }
{
    if value {
        literal.0 == t.0
    } else {
        match head_of(bank, literal) {
            Head::Denial(p) => p.0 == t.0,
            _ => false,
        }
    }
}

/// Is a term among these, or is it the other one or its NOT, as that one is true or false?
fn is_literal(bank: &Bank, literal: TermId, value: bool, t: TermId, others: &[TermId]) -> bool
    requires literal { Stands bank.now literal }
    requires term { Stands bank.now t }
    requires others { All (Stands bank.now) others.now }
    ensures { IsTrue result → IsAmong (term_at bank.now literal) (signed value (term_at bank.now t) ∷ terms_at bank.now others.now) }
{
    if is_signed(bank, literal, value, t) {
        return true;
    }
    contains(bank, literal, others)
}

/// Is each literal among these, or the term or its NOT, as the term is true or false?
pub fn are_literals(
    bank: &Bank,
    literals: &[TermId],
    value: bool,
    t: TermId,
    others: &[TermId],
) -> bool
    requires literals { All (Stands bank.now) literals.now }
    requires term { Stands bank.now t }
    requires others { All (Stands bank.now) others.now }
    ensures { IsTrue result → AreAmong (terms_at bank.now literals.now) (signed value (term_at bank.now t) ∷ terms_at bank.now others.now) }
{
    match literals {
        [] => true,
        [first, rest @ ..] => {
            if is_literal(bank, *first, value, t, others) {
                are_literals(bank, rest, value, t, others)
            } else {
                false
            }
        }
    }
}
