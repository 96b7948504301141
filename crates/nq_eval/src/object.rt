//! The kind of a value, and its parts.
ghost use Rattle.std.specs.Prelude.{◌≡◌, true, All};
ghost use Rattle.nq_logic.specs.Terms.{call};
ghost use Rattle.nq_logic.specs.Values.{is_value, is_value_call};
ghost use Rattle.nq_bank.specs.Content.{Stands, IsNamed, text_at, term_at, terms_at};
ghost use Rattle.nq_eval.specs.Objects.{IsObject};

use nq_bank::{Bank, Node, Sym, TermId, ground};

/// A value, by its kind, with its parts.
#[derive(Clone, Copy, Debug, PartialEq, Eq)]
pub enum Object {
    True,
    False,
    /// A numeral.
    Number(u128),
    /// CONS of two values.
    Pair(TermId, TermId),
    /// PACK of a value.
    Atom(TermId),
    /// MINUS of a numeral.
    Negative(TermId),
}

/// A value, by its kind.
pub fn object_of(bank: &Bank, t: TermId) -> Object
    requires stands { Stands bank.now t }
    requires value { is_value (term_at bank.now t) ≡ true }
    ensures { IsObject bank.now result (term_at bank.now t) }
{
    match bank.node(t) {
        Node::Num(n) => Object::Number(n),
        Node::App(f, _) => object_of_call(bank, f, bank.args(t)),
        Node::Var(_) => unreachable!(),
    }
}

/// A value that is no numeral, by its kind.
fn object_of_call(bank: &Bank, f: Sym, arguments: &[TermId]) -> Object
    requires function { IsNamed bank.now f }
    requires arguments { All (Stands bank.now) arguments.now }
    requires value { is_value_call (text_at bank.now f) (terms_at bank.now arguments.now) ≡ true }
    ensures { IsObject bank.now result (call (text_at bank.now f) (terms_at bank.now arguments.now)) }
{
    match arguments {
        [] => {
            if bank.is_ground(f, ground::TRUE) {
                Object::True
            } else {
                Object::False
            }
        }
        [part] => {
            if bank.is_ground(f, ground::PACK) {
                Object::Atom(*part)
            } else {
                Object::Negative(*part)
            }
        }
        [first, rest] => Object::Pair(*first, *rest),
        _ => unreachable!(),
    }
}
