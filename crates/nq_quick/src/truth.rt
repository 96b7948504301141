//! Truth under assignments, each given by the terms that are true.
ghost use Rattle.std.specs.Prelude.{◌≡◌, ◌||◌, ◌&&◌, All, IfOk, OnOk};
ghost use Rattle.nq_logic.specs.Shapes.{chosen};
ghost use Rattle.nq_bank.specs.Content.{Stands, term_at, terms_at};
ghost use Rattle.nq_proof.specs.Clauses.{same_term, has_term};
ghost use Rattle.nq_fragments.specs.Propositions.{proposition_of, joined_truth};
ghost use Rattle.nq_quick.specs.Assignments.{truth_with};
ghost use Rattle.nq_quick.specs.Patterns.{case_truth};

use crate::heads::{Head, head_of};
use crate::patterns::Case;
use nq_bank::{Bank, TermId};
use nq_fragments::Connective;
use std::alloc::AllocError;

fn is_same(bank: &Bank, left: TermId, right: TermId) -> bool
    requires left { Stands bank.now left }
    requires right { Stands bank.now right }
    ensures { result ≡ same_term (term_at bank.now left) (term_at bank.now right) }
{
    bank.is_sound();
    left.0 == right.0
}

fn is_either(left: bool, right: bool) -> bool
    ensures { result ≡ (left || right) }
{
    left || right
}

/// Is a term among these?
pub fn contains(bank: &Bank, t: TermId, terms: &[TermId]) -> bool
    requires stands { Stands bank.now t }
    requires terms { All (Stands bank.now) terms.now }
    ensures { result ≡ has_term (term_at bank.now t) (terms_at bank.now terms.now) }
{
    let mut found = false;
    for u in terms {
        let same = is_same(bank, t, *u);
        found = is_either(found, same);
    }
    found
}

fn choose(test: bool, first: bool, second: bool) -> bool
    ensures { result ≡ chosen test first second }
{
    if test { first } else { second }
}

fn join(connective: Connective, left: bool, right: bool) -> bool
    ensures { result ≡ joined_truth connective left right }
{
    match connective {
        Connective::And => choose(left, right, false),
        Connective::Or => choose(left, true, right),
        Connective::Implies => choose(left, right, true),
        Connective::Iff => choose(left, right, choose(right, false, true)),
    }
}

/// Is a proposition true where just these of its other terms are true?
pub fn is_true(bank: &Bank, t: TermId, trues: &[TermId]) -> bool
    requires stands { Stands bank.now t }
    requires trues { All (Stands bank.now) trues.now }
    ensures { result ≡ truth_with (terms_at bank.now trues.now) (proposition_of (term_at bank.now t)) }
{
    match head_of(bank, t) {
        Head::Other => contains(bank, t, trues),
        Head::Truth => true,
        Head::Falsity => false,
        Head::Choice(parts) => {
            let test = is_true(bank, parts.test, trues);
            let first = is_true(bank, parts.first, trues);
            let second = is_true(bank, parts.second, trues);
            choose(test, first, second)
        }
        Head::Denial(p) => {
            let denied = is_true(bank, p, trues);
            choose(denied, false, true)
        }
        Head::Joined(connective, p, q) => {
            let left = is_true(bank, p, trues);
            let right = is_true(bank, q, trues);
            join(connective, left, right)
        }
    }
}

/// The truth of a connective in a case.
pub fn truth_of_case(case: Case) -> bool
    ensures { result ≡ case_truth case }
{
    join(case.connective, case.left, case.right)
}
