//! The equations that literals deny.
ghost use Rattle.std.specs.Prelude.{◌≡◌, ◌∷◌, [], All, IfSome, codes};
ghost use Rattle.std.specs.Option.{option_map};
ghost use Rattle.nq_logic.specs.Terms.{call};
ghost use Rattle.nq_bank.specs.Content.{Stands, IsNamed, text_at, term_at, terms_at};
ghost use Rattle.nq_proof.specs.Paths.{under_not};
ghost use Rattle.nq_goals.specs.Equations.{equation_of, hypothesis_equation};
ghost use Rattle.nq_moves.specs.Found.{sides_at, SidesStand};

use nq_bank::{Bank, Node, Sym, TermId, ground};

/// The two sides of an equation.
#[derive(Clone, Copy, Debug, PartialEq, Eq)]
pub struct Sides {
    /// The left side.
    pub left: TermId,
    /// The right side.
    pub right: TermId,
}

/// What stands under the NOT of a term.
pub fn under_one_not(bank: &Bank, t: TermId) -> Option<TermId>
    requires { Stands bank.now t }
    ensures argument { option_map (term_at bank.now) result ≡ under_not (term_at bank.now t) }
    ensures stands { IfSome result (λ u. Stands bank.now u) }
{
    match bank.node(t) {
        Node::App(f, _) => argument_of_not(bank, f, bank.args(t)),
        Node::Num(_) => None,
        Node::Var(_) => None,
    }
}

fn argument_of_not(bank: &Bank, f: Sym, arguments: &[TermId]) -> Option<TermId>
    requires function { IsNamed bank.now f }
    requires arguments { All (Stands bank.now) arguments.now }
    ensures argument { option_map (term_at bank.now) result ≡ under_not (call (text_at bank.now f) (terms_at bank.now arguments.now)) }
    ensures stands { IfSome result (λ u. Stands bank.now u) }
{
    match arguments {
        [] => None,
        [only] => {
            if bank.is_ground(f, ground::NOT) {
                Some(*only)
            } else {
                None
            }
        }
        _ => None,
    }
}

/// The sides of an EQUAL.
pub fn sides_of(bank: &Bank, t: TermId) -> Option<Sides>
    requires { Stands bank.now t }
    ensures sides { option_map (sides_at bank.now) result ≡ equation_of (term_at bank.now t) }
    ensures stand { IfSome result (λ s. SidesStand bank.now s) }
{
    match bank.node(t) {
        Node::App(f, _) => sides_of_call(bank, f, bank.args(t)),
        Node::Num(_) => None,
        Node::Var(_) => None,
    }
}

fn sides_of_call(bank: &Bank, f: Sym, arguments: &[TermId]) -> Option<Sides>
    requires function { IsNamed bank.now f }
    requires arguments { All (Stands bank.now) arguments.now }
    ensures sides { option_map (sides_at bank.now) result ≡ equation_of (call (text_at bank.now f) (terms_at bank.now arguments.now)) }
    ensures stand { IfSome result (λ s. SidesStand bank.now s) }
{
    match arguments {
        [left, right] => sides_of_two(bank, f, *left, *right),
        _ => None,
    }
}

fn sides_of_two(bank: &Bank, f: Sym, left: TermId, right: TermId) -> Option<Sides>
    requires function { IsNamed bank.now f }
    requires left { Stands bank.now left }
    requires right { Stands bank.now right }
    ensures sides { option_map (sides_at bank.now) result ≡ equation_of (call (text_at bank.now f) (terms_at bank.now (left ∷ right ∷ []))) }
    ensures stand { IfSome result (λ s. SidesStand bank.now s) }
{
    if bank.is_ground(f, ground::EQUAL) {
        Some(Sides { left, right })
    } else {
        None
    }
}

/// The sides of the hypothesis equation that a literal is.
pub fn sides_under(bank: &Bank, literal: TermId) -> Option<Sides>
    requires { Stands bank.now literal }
    ensures sides { option_map (sides_at bank.now) result ≡ hypothesis_equation (term_at bank.now literal) }
    ensures stand { IfSome result (λ s. SidesStand bank.now s) }
{
    match under_one_not(bank, literal) {
        Some(t) => sides_of(bank, t),
        None => None,
    }
}
