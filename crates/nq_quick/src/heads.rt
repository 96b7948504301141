//! What stands at the head of a term that is read as a proposition.
ghost use Rattle.std.specs.Prelude.{◌≡◌, ◌<◌, ◌∷◌, [], All};
ghost use Rattle.nq_logic.specs.Terms.{call};
ghost use Rattle.nq_bank.specs.Content.{Stands, IsNamed, text_at, term_at, terms_at};
ghost use Rattle.nq_fragments.specs.Propositions.{connective_of};
ghost use Rattle.nq_quick.specs.Heads.{HasHead};

use nq_bank::{Bank, Node, Sym, TermId, ground};
use nq_fragments::Connective;
use nq_rule::Branches;

/// What stands at the head of a proposition.
#[derive(Clone, Copy, Debug, PartialEq, Eq)]
pub enum Head {
    /// A term of another kind.
    Other,
    /// T.
    Truth,
    /// F.
    Falsity,
    /// An IF.
    Choice(Branches),
    /// The NOT of a term.
    Denial(TermId),
    /// Two terms, joined.
    Joined(Connective, TermId, TermId),
}

/// The connective of a name.
fn connective_named(bank: &Bank, f: Sym) -> Option<Connective>
    requires { IsNamed bank.now f }
    ensures { result ≡ connective_of (text_at bank.now f) }
{
    if bank.is_ground(f, ground::AND) {
        Some(Connective::And)
    } else if bank.is_ground(f, ground::OR) {
        Some(Connective::Or)
    } else if bank.is_ground(f, ground::IMPLIES) {
        Some(Connective::Implies)
    } else if bank.is_ground(f, ground::IFF) {
        Some(Connective::Iff)
    } else {
        None
    }
}

/// What stands at the head of a term.
pub fn head_of(bank: &Bank, t: TermId) -> Head
    requires { Stands bank.now t }
    ensures { HasHead bank.now t result }
{
    match bank.node(t) {
        Node::App(f, _) => head_of_call(bank, t, f, bank.args(t)),
        Node::Num(_) => Head::Other,
        Node::Var(_) => Head::Other,
    }
}

/// What stands at the head of a call.
fn head_of_call(bank: &Bank, t: TermId, f: Sym, arguments: &[TermId]) -> Head
    requires stands { Stands bank.now t }
    requires function { IsNamed bank.now f }
    requires before { All (λ a. a.0 < t.0) arguments.now }
    requires call { term_at bank.now t ≡ call (text_at bank.now f) (terms_at bank.now arguments.now) }
    ensures { HasHead bank.now t result }
{
    match arguments {
        [] => head_of_constant(bank, t, f),
        [p] => head_of_one(bank, t, f, *p),
        [p, q] => head_of_two(bank, t, f, *p, *q),
        [p, x, y] => head_of_three(bank, t, f, *p, *x, *y),
        _ => Head::Other,
    }
}

fn head_of_constant(bank: &Bank, t: TermId, f: Sym) -> Head
    requires function { IsNamed bank.now f }
    requires call { term_at bank.now t ≡ call (text_at bank.now f) [] }
    ensures { HasHead bank.now t result }
{
    if bank.is_ground(f, ground::TRUE) {
        Head::Truth
    } else if bank.is_ground(f, ground::FALSE) {
        Head::Falsity
    } else {
        Head::Other
    }
}

fn head_of_one(bank: &Bank, t: TermId, f: Sym, p: TermId) -> Head
    requires function { IsNamed bank.now f }
    requires before { p.0 < t.0 }
    requires call { term_at bank.now t ≡ call (text_at bank.now f) (term_at bank.now p ∷ []) }
    ensures { HasHead bank.now t result }
{
    if bank.is_ground(f, ground::NOT) {
        Head::Denial(p)
    } else {
        Head::Other
    }
}

fn head_of_two(bank: &Bank, t: TermId, f: Sym, p: TermId, q: TermId) -> Head
    requires function { IsNamed bank.now f }
    requires left { p.0 < t.0 }
    requires right { q.0 < t.0 }
    requires call { term_at bank.now t ≡ call (text_at bank.now f) (term_at bank.now p ∷ term_at bank.now q ∷ []) }
    ensures { HasHead bank.now t result }
{
    match connective_named(bank, f) {
        Some(c) => Head::Joined(c, p, q),
        None => Head::Other,
    }
}

fn head_of_three(bank: &Bank, t: TermId, f: Sym, p: TermId, x: TermId, y: TermId) -> Head
    requires function { IsNamed bank.now f }
    requires test { p.0 < t.0 }
    requires first { x.0 < t.0 }
    requires second { y.0 < t.0 }
    requires call { term_at bank.now t ≡ call (text_at bank.now f) (term_at bank.now p ∷ term_at bank.now x ∷ term_at bank.now y ∷ []) }
    ensures { HasHead bank.now t result }
{
    if bank.is_ground(f, ground::IF) {
        Head::Choice(Branches {
            test: p,
            first: x,
            second: y,
        })
    } else {
        Head::Other
    }
}
