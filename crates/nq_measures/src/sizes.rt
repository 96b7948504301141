//! Sizes of variables as measures, and what a call has in the place of a variable.
ghost use Rattle.std.specs.Prelude.{◌≡◌, ◌≤◌, ◌⊎◌, All, IfNone, IfSome};
ghost use Rattle.nq_logic.specs.Terms.{Name, Variable, value_at};
ghost use Rattle.nq_logic.specs.Admissible.{matched};
ghost use Rattle.nq_bank.specs.Content.{IsIdOf, IsNamed, Stands, text_at, term_at, terms_at};
ghost use Rattle.nq_bank.specs.Shells.{texts_at};
ghost use Rattle.nq_measures.specs.Trials.{IsSizeOf, size_of_variable};

use nq_bank::ground::COUNT;
use nq_bank::{Bank, Node, Sym, TermId, is_same_name};

/// The variable, where a term is one.
fn variable_of(bank: &Bank, t: TermId) -> Option<Sym>
    requires { Stands bank.now t }
    ensures none { IfNone result ((x : Name) → term_at bank.now t ≡ Variable x → ⊥) }
    ensures some { IfSome result (λ x. IsNamed bank.now x) }
    ensures same { IfSome result (λ x. term_at bank.now t ≡ Variable (text_at bank.now x)) }
{
    match bank.node(t) {
        Node::Var(x) => Some(x),
        Node::Num(_) => None,
        Node::App(_, _) => None,
    }
}

/// The variable whose size the measure is.
pub(crate) fn sized_variable(bank: &Bank, measure: TermId) -> Option<Sym>
    requires { Stands bank.now measure }
    ensures none { IfNone result ((x : Name) → term_at bank.now measure ≡ size_of_variable x → ⊥) }
    ensures some { IfSome result (IsSizeOf bank.now measure) }
{
    match bank.node(measure) {
        Node::Var(_) => None,
        Node::Num(_) => None,
        Node::App(f, _) => {
            let arguments = bank.args(measure);
            if arguments.len() == 1 && bank.is_ground(f, COUNT) {
                return variable_of(bank, arguments[0]);
            }
            None
        }
    }
}

/// The argument of a call in the place of a formal.
pub(crate) fn argument_for(
    bank: &Bank,
    formals: &[Sym],
    arguments: &[TermId],
    x: Sym,
) -> Option<TermId>
    requires formals { All (IsNamed bank.now) formals.now }
    requires arguments { All (Stands bank.now) arguments.now }
    requires named { IsNamed bank.now x }
    ensures none { IfNone result (value_at (matched (texts_at bank.now formals.now) (terms_at bank.now arguments.now)) (text_at bank.now x) ≡ Variable (text_at bank.now x)) }
    ensures some { IfSome result (λ t. IsIdOf bank.now t (value_at (matched (texts_at bank.now formals.now) (terms_at bank.now arguments.now)) (text_at bank.now x))) }
{
    let count = shorter(formals.len(), arguments.len());
    for place in 0..count {
        if is_same_name(bank, x, formals[place]) {
            return Some(arguments[place]);
        }
    }
    None
}

/// The shorter of two lengths.
fn shorter(a: usize, b: usize) -> usize
    ensures first { result ≤ a }
    ensures second { result ≤ b }
    ensures either { (result ≡ a) ⊎ (result ≡ b) }
{
    if a < b { a } else { b }
}
