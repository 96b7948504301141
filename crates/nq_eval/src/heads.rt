//! What stands at the head of a term that is no small value.
ghost use Rattle.std.specs.Prelude.{◌≡◌, ◌<◌, ◌≤◌, ◌∷◌, [], false, All, length};
ghost use Rattle.nq_logic.specs.Terms.{call};
ghost use Rattle.nq_logic.specs.Words.{false_term};
ghost use Rattle.nq_bank.specs.Content.{Stands, IsNamed, text_at, term_at, terms_at};
ghost use Rattle.nq_bank.specs.Parts.{parts_of};
ghost use Rattle.nq_proof.specs.Clauses.{same_term};
ghost use Rattle.nq_fragments.specs.Outcomes.{is_small};
ghost use Rattle.nq_eval.specs.Heads.{HasHead};

use nq_bank::{Bank, Node, Sym, TermId, ground};
use nq_rule::Branches;

/// What stands at the head of a term.
#[derive(Clone, Copy)]
pub enum Head {
    /// A variable.
    Variable,
    /// IF of three terms.
    Choice(Branches),
    /// Another call.
    Call(Sym),
}

/// What stands at the head of a term.
pub fn head_of(bank: &Bank, t: TermId) -> Head
    requires stands { Stands bank.now t }
    requires large { is_small (term_at bank.now t) ≡ false }
    ensures { HasHead bank.now t result }
{
    match bank.node(t) {
        Node::App(f, _) => head_of_call(bank, t, f, bank.args(t)),
        Node::Num(_) => unreachable!(),
        Node::Var(_) => Head::Variable,
    }
}

/// What stands at the head of a call.
fn head_of_call(bank: &Bank, t: TermId, f: Sym, arguments: &[TermId]) -> Head
    requires function { IsNamed bank.now f }
    requires plain { parts_of (term_at bank.now t) ≡ terms_at bank.now arguments.now }
    requires call { term_at bank.now t ≡ call (text_at bank.now f) (terms_at bank.now arguments.now) }
    requires stand { All (Stands bank.now) arguments.now }
    ensures { HasHead bank.now t result }
{
    match arguments {
        [p, x, y] => head_of_three(bank, t, f, *p, *x, *y),
        [] => Head::Call(f),
        [_] => Head::Call(f),
        [_, _] => Head::Call(f),
        _ => Head::Call(f),
    }
}

/// What stands at the head of a call of three arguments.
fn head_of_three(bank: &Bank, t: TermId, f: Sym, p: TermId, x: TermId, y: TermId) -> Head
    requires function { IsNamed bank.now f }
    requires plain { parts_of (term_at bank.now t) ≡ term_at bank.now p ∷ term_at bank.now x ∷ term_at bank.now y ∷ [] }
    requires call { term_at bank.now t ≡ call (text_at bank.now f) (term_at bank.now p ∷ term_at bank.now x ∷ term_at bank.now y ∷ []) }
    requires test { Stands bank.now p }
    requires first { Stands bank.now x }
    requires second { Stands bank.now y }
    ensures { HasHead bank.now t result }
{
    if bank.is_ground(f, ground::IF) {
        Head::Choice(Branches {
            test: p,
            first: x,
            second: y,
        })
    } else {
        Head::Call(f)
    }
}

/// Is a term F?
pub fn is_falsity(bank: &Bank, t: TermId) -> bool
    requires { Stands bank.now t }
    ensures { result ≡ same_term (term_at bank.now t) false_term }
{
    match bank.node(t) {
        Node::App(f, count) => is_falsity_call(bank, t, f, count),
        Node::Num(_) => false,
        Node::Var(_) => false,
    }
}

/// Is a call F?
fn is_falsity_call(bank: &Bank, t: TermId, f: Sym, count: u64) -> bool
    requires name { IsNamed bank.now f }
    requires call { term_at bank.now t ≡ call (text_at bank.now f) (parts_of (term_at bank.now t)) }
    requires count { count ≡ length (parts_of (term_at bank.now t)) }
    ensures { result ≡ same_term (term_at bank.now t) false_term }
{
    count == 0 && bank.is_ground(f, ground::FALSE)
}
