//! A term by the number of its arguments.
ghost use Rattle.nq_bank.specs.Content.{Stands};
ghost use Rattle.nq_print.specs.Shapes.{IsShape};

use nq_bank::{Bank, Node, Sym, TermId};

/// What a term is: a variable, a numeral, or a call by the number of its arguments.
#[derive(Clone, Copy)]
pub enum Shape {
    Variable(Sym),
    Number(u128),
    Constant(Sym),
    Single(Sym, TermId),
    Pair(Sym, TermId, TermId),
    /// A call of three arguments and more.
    Longer(Sym),
}

/// The shape of a term.
pub fn shape_of(bank: &Bank, t: TermId) -> Shape
    requires { Stands bank.now t }
    ensures { IsShape bank.now t result }
{
    match bank.node(t) {
        Node::Var(s) => Shape::Variable(s),
        Node::Num(n) => Shape::Number(n),
        Node::App(f, _) => match bank.args(t) {
            [] => Shape::Constant(f),
            [only] => Shape::Single(f, *only),
            [first, second] => Shape::Pair(f, *first, *second),
            [_, _, _, ..] => Shape::Longer(f),
        },
    }
}
