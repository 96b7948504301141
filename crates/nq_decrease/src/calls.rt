//! Terms that are calls of one argument, equations, or zero.
ghost use Rattle.std.specs.Prelude.{◌≡◌, ◌<◌, ◌∷◌, [], All, MatchOption, IfSome};
ghost use Rattle.std.specs.Option.{option_map};
ghost use Rattle.nq_logic.specs.Terms.{call};
ghost use Rattle.nq_logic.specs.Words.{zero_term};
ghost use Rattle.nq_bank.specs.Content.{Stands, IsNamed, text_at, term_at, terms_at};
ghost use Rattle.nq_proof.specs.Clauses.{same_term};
ghost use Rattle.nq_proof.specs.Paths.{under_not};
ghost use Rattle.nq_decrease.specs.Guards.{IsNoCall, IsOneCall, IsNoEquation, IsEquationOf};

use nq_bank::{Bank, Node, Sym, TermId, ground};

/// A function's call of one argument.
#[derive(Clone, Copy, Debug, PartialEq, Eq)]
pub struct OneCall {
    /// The function.
    pub function: Sym,
    /// The argument.
    pub argument: TermId,
}

/// The sides of an equation.
#[derive(Clone, Copy, Debug, PartialEq, Eq)]
pub struct Equation {
    /// The left side.
    pub left: TermId,
    /// The right side.
    pub right: TermId,
}

/// Are two terms one?
pub fn is_same(bank: &Bank, left: TermId, right: TermId) -> bool
    requires left { Stands bank.now left }
    requires right { Stands bank.now right }
    ensures { result ≡ same_term (term_at bank.now left) (term_at bank.now right) }
{
    bank.is_sound();
    left.0 == right.0
}

/// The call of one argument that a term is. A numeral is none.
pub fn call_of_one(bank: &Bank, t: TermId) -> Option<OneCall>
    requires { Stands bank.now t }
    ensures { MatchOption result (IsNoCall (term_at bank.now t)) (IsOneCall bank.now t) }
{
    match bank.node(t) {
        Node::App(f, _) => one_argument(bank, t, f, bank.args(t)),
        Node::Num(_) => None,
        Node::Var(_) => None,
    }
}

/// The same, of a call of f on these arguments.
fn one_argument(bank: &Bank, t: TermId, f: Sym, arguments: &[TermId]) -> Option<OneCall>
    requires stands { Stands bank.now t }
    requires function { IsNamed bank.now f }
    requires before { All (λ a. a.0 < t.0) arguments.now }
    requires call { term_at bank.now t ≡ call (text_at bank.now f) (terms_at bank.now arguments.now) }
    ensures { MatchOption result (IsNoCall (term_at bank.now t)) (IsOneCall bank.now t) }
{
    match arguments {
        [] => None,
        [only] => Some(OneCall {
            function: f,
            argument: *only,
        }),
        _ => None,
    }
}

/// What stands under the NOT of a term.
pub fn denied(bank: &Bank, t: TermId) -> Option<TermId>
    requires { Stands bank.now t }
    ensures argument { option_map (term_at bank.now) result ≡ under_not (term_at bank.now t) }
    ensures stands { IfSome result (λ u. Stands bank.now u) }
{
    match call_of_one(bank, t) {
        Some(c) => argument_of_not(bank, c),
        None => None,
    }
}

/// The argument of a call of NOT.
fn argument_of_not(bank: &Bank, c: OneCall) -> Option<TermId>
    requires function { IsNamed bank.now c.function }
    requires argument { Stands bank.now c.argument }
    ensures argument { option_map (term_at bank.now) result ≡ under_not (call (text_at bank.now c.function) (terms_at bank.now (c.argument ∷ []))) }
    ensures stands { IfSome result (λ u. Stands bank.now u) }
{
    if bank.is_ground(c.function, ground::NOT) {
        Some(c.argument)
    } else {
        None
    }
}

/// The sides of a term that is an equation.
pub fn equation_of(bank: &Bank, t: TermId) -> Option<Equation>
    requires { Stands bank.now t }
    ensures { MatchOption result (IsNoEquation (term_at bank.now t)) (IsEquationOf bank.now t) }
{
    match bank.node(t) {
        Node::App(f, _) => equation_of_call(bank, t, f, bank.args(t)),
        Node::Num(_) => None,
        Node::Var(_) => None,
    }
}

/// The same, of a call of f on these arguments.
fn equation_of_call(bank: &Bank, t: TermId, f: Sym, arguments: &[TermId]) -> Option<Equation>
    requires stands { Stands bank.now t }
    requires function { IsNamed bank.now f }
    requires before { All (λ a. a.0 < t.0) arguments.now }
    requires call { term_at bank.now t ≡ call (text_at bank.now f) (terms_at bank.now arguments.now) }
    ensures { MatchOption result (IsNoEquation (term_at bank.now t)) (IsEquationOf bank.now t) }
{
    if !bank.is_ground(f, ground::EQUAL) {
        return None;
    }
    match arguments {
        [left, right] => Some(Equation {
            left: *left,
            right: *right,
        }),
        [] => None,
        [_] => None,
        _ => None,
    }
}

/// Is a term 0?
pub fn is_zero(bank: &Bank, t: TermId) -> bool
    requires { Stands bank.now t }
    ensures { result ≡ same_term zero_term (term_at bank.now t) }
{
    match bank.node(t) {
        Node::Num(n) => n == 0,
        Node::App(_, _) => false,
        Node::Var(_) => false,
    }
}
