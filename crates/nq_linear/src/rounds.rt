//! Which sums a round of the elimination needs.
ghost use Rattle.std.specs.Prelude.{IfSome};
ghost use Rattle.nq_linear.specs.Inequalities.{IsInequality};

use crate::inequality::{Inequality, place_of};
use nq_bank::{Bank, TermId};
use nq_linear_rule::LinearForm;

/// A round of the elimination.
#[derive(Clone, Copy)]
pub struct Round {
    /// The atom that is eliminated. Those of earlier rounds have greater ids.
    pub atom: TermId,
    /// Of how many parts a sum may be made.
    pub parts: usize,
}

/// How many atoms of this round and of those before it have negative factors.
fn negative_count(atom: TermId, form: &LinearForm) -> usize {
    form.atoms
        .iter()
        .filter(|m| m.factor < 0 && m.atom.0 >= atom.0)
        .count()
}

/// Is the number of a form negative, or the factor of one of its atoms? Else it is never below 0.
fn says_something(form: &LinearForm) -> bool {
    form.constant < 0 || form.atoms.iter().any(|m| m.factor < 0)
}

/// Is a sum needed after a round: does it say something, and is it made of few enough parts?
pub fn is_needed(round: Round, q: &Inequality) -> bool {
    says_something(&q.form)
        && q.summands
            .len()
            .saturating_add(negative_count(round.atom, &q.form))
            <= round.parts
}

/// How many summands two inequalities have together.
pub fn summand_count(a: &Inequality, b: &Inequality) -> usize {
    let mut count = a.summands.len();
    for one in b.summands.as_slice() {
        if place_of(a.summands.as_slice(), *one) == a.summands.len() {
            count = count.saturating_add(1);
        }
    }
    count
}

/// The sum, if it is needed after a round.
pub fn needed(
    bank: &Bank,
    literals: &[TermId],
    round: Round,
    sum: Option<Inequality>,
) -> Option<Inequality>
    requires { IfSome sum (IsInequality bank.now literals.now) }
    ensures { IfSome result (IsInequality bank.now literals.now) }
{
    let _ = bank.len();
    let _ = literals.len();
    match sum {
        Some(q) => { if is_needed(round, &q) { Some(q) } else { None } }
        None => None,
    }
}
