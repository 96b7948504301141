//! Equations and inequalities, and the equations that literals deny.
ghost use Rattle.std.specs.Prelude.{◌≡◌, ◌||◌, All, IfSome, MatchOption, bytes_eq, codes};
ghost use Rattle.std.specs.Option.{option_map};
ghost use Rattle.nq_logic.specs.Terms.{call};
ghost use Rattle.nq_bank.specs.Content.{Stands, IsNamed, text_at, term_at, terms_at};
ghost use Rattle.nq_proof.specs.Paths.{under_not};
ghost use Rattle.nq_goals.specs.Equations.{equation_of, hypothesis_equation};
ghost use Rattle.nq_goals.specs.Occurrences.{atom_of};
ghost use Rattle.nq_stuck.specs.Pairs.{CoupleIs, CoupleStands, HasNoCouple, Compares, ComparesNone, sides_at, SidesStand};

use nq_bank::{Bank, Node, Sym, TermId, ground};

/// A call of two arguments.
#[derive(Clone, Copy, Debug, PartialEq, Eq)]
pub struct Couple {
    /// The function.
    pub function: Sym,
    /// The first argument.
    pub left: TermId,
    /// The second argument.
    pub right: TermId,
}

/// The two sides of an equation or an inequality.
#[derive(Clone, Copy, Debug, PartialEq, Eq)]
pub struct Sides {
    /// The left side.
    pub left: TermId,
    /// The right side.
    pub right: TermId,
}

fn couple_of_call(bank: &Bank, f: Sym, arguments: &[TermId]) -> Option<Couple>
    requires function { IsNamed bank.now f }
    requires arguments { All (Stands bank.now) arguments.now }
    ensures is { MatchOption result (HasNoCouple (call (text_at bank.now f) (terms_at bank.now arguments.now))) (CoupleIs bank.now (call (text_at bank.now f) (terms_at bank.now arguments.now))) }
    ensures stands { IfSome result (CoupleStands bank.now) }
{
    match arguments {
        [left, right] => Some(Couple {
            function: f,
            left: *left,
            right: *right,
        }),
        _ => None,
    }
}

/// A term as a call of two arguments.
fn couple_of(bank: &Bank, t: TermId) -> Option<Couple>
    requires { Stands bank.now t }
    ensures is { MatchOption result (HasNoCouple (term_at bank.now t)) (CoupleIs bank.now (term_at bank.now t)) }
    ensures stands { IfSome result (CoupleStands bank.now) }
{
    match bank.node(t) {
        Node::App(f, _) => couple_of_call(bank, f, bank.args(t)),
        Node::Num(_) => None,
        Node::Var(_) => None,
    }
}

fn argument_of_not(bank: &Bank, f: Sym, arguments: &[TermId]) -> Option<TermId>
    requires function { IsNamed bank.now f }
    requires arguments { All (Stands bank.now) arguments.now }
    ensures argument { option_map (term_at bank.now) result ≡ under_not (call (text_at bank.now f) (terms_at bank.now arguments.now)) }
    ensures stands { IfSome result (λ u. Stands bank.now u) }
{
    match arguments {
        [] => None,
        [only] => {
            if bank.is_ground(f, ground::NOT) {
                Some(*only)
            } else {
                None
            }
        }
        _ => None,
    }
}

/// What stands under the NOT of a term.
fn under_one_not(bank: &Bank, t: TermId) -> Option<TermId>
    requires { Stands bank.now t }
    ensures argument { option_map (term_at bank.now) result ≡ under_not (term_at bank.now t) }
    ensures stands { IfSome result (λ u. Stands bank.now u) }
{
    match bank.node(t) {
        Node::App(f, _) => argument_of_not(bank, f, bank.args(t)),
        Node::Num(_) => None,
        Node::Var(_) => None,
    }
}

/// The sides of an equation.
fn equation_of(bank: &Bank, t: TermId) -> Option<Sides>
    requires { Stands bank.now t }
    ensures is { option_map (sides_at bank.now) result ≡ equation_of (term_at bank.now t) }
    ensures stand { IfSome result (SidesStand bank.now) }
{
    match couple_of(bank, t) {
        Some(couple) => {
            if bank.is_ground(couple.function, ground::EQUAL) {
                Some(sides_of(couple))
            } else {
                None
            }
        }
        None => None,
    }
}

fn sides_of(couple: Couple) -> Sides
    ensures left { result.left ≡ couple.left }
    ensures right { result.right ≡ couple.right }
{
    Sides {
        left: couple.left,
        right: couple.right,
    }
}

/// The sides of the equation that a literal denies.
pub fn denied_equation(bank: &Bank, literal: TermId) -> Option<Sides>
    requires { Stands bank.now literal }
    ensures is { option_map (sides_at bank.now) result ≡ hypothesis_equation (term_at bank.now literal) }
    ensures stand { IfSome result (SidesStand bank.now) }
{
    match under_one_not(bank, literal) {
        Some(t) => equation_of(bank, t),
        None => None,
    }
}

/// A literal without its outer NOT.
pub fn atom_of(bank: &Bank, literal: TermId) -> TermId
    requires { Stands bank.now literal }
    ensures is { term_at bank.now result ≡ atom_of (term_at bank.now literal) }
    ensures stands { Stands bank.now result }
{
    match under_one_not(bank, literal) {
        Some(t) => t,
        None => literal,
    }
}

/// Is it EQUAL or LESSP?
pub fn is_comparison(bank: &Bank, f: Sym) -> bool
    requires { IsNamed bank.now f }
    ensures { result ≡ (bytes_eq (text_at bank.now f) (codes "EQUAL") || bytes_eq (text_at bank.now f) (codes "LESSP")) }
{
    let equation = bank.is_ground(f, ground::EQUAL);
    let inequality = bank.is_ground(f, ground::LESSP);
    equation || inequality
}

/// The sides of an equation or an inequality, or of the NOT of one.
pub fn compared(bank: &Bank, literal: TermId) -> Option<Sides>
    requires { Stands bank.now literal }
    ensures is { MatchOption result (ComparesNone (atom_of (term_at bank.now literal))) (λ s. Compares (atom_of (term_at bank.now literal)) (sides_at bank.now s)) }
    ensures stand { IfSome result (SidesStand bank.now) }
{
    match couple_of(bank, atom_of(bank, literal)) {
        Some(couple) => {
            if is_comparison(bank, couple.function) {
                Some(sides_of(couple))
            } else {
                None
            }
        }
        None => None,
    }
}
