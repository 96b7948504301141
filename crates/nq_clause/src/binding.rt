//! Variables bound to terms, one after the other.
ghost use Rattle.std.specs.Prelude.{◌≡◌, ◌↔◌, IsTrue, All, MatchOption};
ghost use Rattle.nq_logic.specs.Terms.{IsAmong, value_at};
ghost use Rattle.nq_bank.specs.Content.{Stands, IsNamed, text_at, term_at};
ghost use Rattle.nq_clause.specs.Binding.{bound_at, BoundStands, bindings_at, BindingStands, variables_of};

use nq_bank::{Bank, Node, Sym, TermId, is_same_name};

/// What a variable is bound to. A numeral need not stand in the bank, so it is always bound as its number.
#[derive(Clone, Copy, Debug, PartialEq, Eq)]
pub enum Bound {
    /// A term that is no numeral.
    Term(TermId),
    /// The numeral of a number.
    Num(u128),
}

/// A variable and what it is bound to. A list of them is a substitution, where no variable is bound twice.
#[derive(Clone, Copy, Debug, PartialEq, Eq)]
pub struct Binding {
    /// The name of the variable.
    pub variable: Sym,
    /// What it is bound to.
    pub bound: Bound,
}

/// A term of the bank as something that a variable can be bound to.
pub fn bound_of(bank: &Bank, t: TermId) -> Bound
    requires { Stands bank.now t }
    ensures stands { BoundStands bank.now result }
    ensures term { bound_at bank.now result ≡ term_at bank.now t }
{
    match bank.node(t) {
        Node::Num(n) => Bound::Num(n),
        Node::App(_, _) => Bound::Term(t),
        Node::Var(_) => Bound::Term(t),
    }
}

/// Are two bounds the same?
fn is_same_bound(left: Bound, right: Bound) -> bool
    ensures { IsTrue result ↔ (left ≡ right) }
{
    left == right
}

/// Are two bounds one term? No id has the term of another one, so this looks at no term.
pub fn is_one_term(bank: &Bank, left: Bound, right: Bound) -> bool
    requires left { BoundStands bank.now left }
    requires right { BoundStands bank.now right }
    ensures { IsTrue result ↔ (bound_at bank.now left ≡ bound_at bank.now right) }
{
    bank.is_sound();
    is_same_bound(left, right)
}

/// What a variable is bound to.
pub fn bound_to(bank: &Bank, bindings: &[Binding], variable: Sym) -> Option<Bound>
    requires named { IsNamed bank.now variable }
    requires stand { All (BindingStands bank.now) bindings.now }
    ensures bound { MatchOption result (Unit {0}) (λ b. BoundStands bank.now b × (value_at (bindings_at bank.now bindings.now) (text_at bank.now variable) ≡ bound_at bank.now b)) }
    ensures among { MatchOption result (IsAmong (text_at bank.now variable) (variables_of (bindings_at bank.now bindings.now)) → ⊥) (λ _. IsAmong (text_at bank.now variable) (variables_of (bindings_at bank.now bindings.now))) }
{
    for b in bindings {
        if is_same_name(bank, variable, b.variable) {
            return Some(b.bound);
        }
    }
    None
}
