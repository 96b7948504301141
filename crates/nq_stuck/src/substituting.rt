//! SUBST: whether a goal has a candidate.
ghost use Rattle.std.specs.Prelude.{◌≡◌, All, IfOk, Some};
ghost use Rattle.nq_logic.specs.Terms.{Term};
ghost use Rattle.nq_bank.specs.Content.{Stands, IsNamed, text_at, term_at, terms_at};
ghost use Rattle.nq_bank.specs.Parts.{occurs};
ghost use Rattle.nq_goals.specs.Equations.{both_orders, readings};
ghost use Rattle.nq_goals.specs.Substituting.{from_sides, from_readings, from_literals};
ghost use Rattle.nq_stuck.specs.Pairs.{sides_at, SidesStand};
ghost use Rattle.nq_stuck.specs.Candidates.{has_one};

use crate::equations::{Sides, denied_equation};
use crate::fault::Fault;
use nq_bank::{Bank, Node, Sym, TermId};
use nq_clause::occurs_in;

/// Does the variable stand in the term?
fn occurs(bank: &Bank, variable: Sym, t: TermId) -> Result<bool, Fault>
    requires variable { IsNamed bank.now variable }
    requires term { Stands bank.now t }
    ensures { IfOk result (λ b. b ≡ occurs (text_at bank.now variable) (term_at bank.now t)) }
{
    match occurs_in(bank, variable, t) {
        Ok(b) => Ok(b),
        Err(_) => Err(Fault::Memory),
    }
}

/// Is the left side a variable that does not stand in the right side?
fn is_candidate(bank: &Bank, left: TermId, right: TermId) -> Result<bool, Fault>
    requires left { Stands bank.now left }
    requires right { Stands bank.now right }
    ensures { IfOk result (λ b. (literal : Term) → b ≡ has_one (from_sides literal (term_at bank.now left) (term_at bank.now right))) }
{
    match bank.node(left) {
        Node::Var(v) => {
            let inside = occurs(bank, v, right)?;
            Ok(!inside)
        }
        Node::Num(_) => Ok(false),
        Node::App(_, _) => Ok(false),
    }
}

/// Is an equation, read in one order or the other, a candidate?
fn is_candidate_either_way(bank: &Bank, sides: Sides) -> Result<bool, Fault>
    requires { SidesStand bank.now sides }
    ensures { IfOk result (λ b. (literal : Term) → b ≡ has_one (from_readings literal (both_orders (Some (sides_at bank.now sides))))) }
{
    if is_candidate(bank, sides.left, sides.right)? {
        Ok(true)
    } else {
        is_candidate(bank, sides.right, sides.left)
    }
}

/// Does the literal deny an equation that is a candidate?
fn has_candidate(bank: &Bank, literal: TermId) -> Result<bool, Fault>
    requires { Stands bank.now literal }
    ensures { IfOk result (λ b. b ≡ has_one (from_readings (term_at bank.now literal) (readings (term_at bank.now literal)))) }
{
    match denied_equation(bank, literal) {
        Some(sides) => is_candidate_either_way(bank, sides),
        None => Ok(false),
    }
}

/// Has one of these literals a candidate of SUBST?
pub fn has_substitution(bank: &Bank, literals: &[TermId]) -> Result<bool, Fault>
    requires { All (Stands bank.now) literals.now }
    ensures { IfOk result (λ b. b ≡ has_one (from_literals (terms_at bank.now literals.now))) }
{
    match literals {
        [] => Ok(false),
        [first, rest @ ..] => {
            if has_candidate(bank, *first)? {
                Ok(true)
            } else {
                has_substitution(bank, rest)
            }
        }
    }
}
