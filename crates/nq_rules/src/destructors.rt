//! Destructor calls: calls of distinct variables, a known one among them.
ghost use Rattle.std.specs.Prelude.{◌≡◌, ◌&&◌, ◌∷◌, All, not};
ghost use Rattle.nq_logic.specs.Terms.{Name, call};
ghost use Rattle.nq_logic.specs.RuleShapes as shape;
ghost use Rattle.nq_logic.specs.RuleShapes.{inner_terms, is_destructor_call, stands_apart_within};
ghost use Rattle.nq_bank.specs.Content.{Stands, IsNamed, text_at, term_at, terms_at};
ghost use Rattle.nq_rules.specs.Variables as variable;

use nq_bank::{Bank, Node, Sym, TermId, is_same_name};

/// Is a term the variable of a name?
fn is_variable(bank: &Bank, x: Sym, t: TermId) -> bool
    requires name { IsNamed bank.now x }
    requires term { Stands bank.now t }
    ensures { result ≡ variable.is_variable (text_at bank.now x) (term_at bank.now t) }
{
    match bank.node(t) {
        Node::Var(y) => is_same_name(bank, x, y),
        Node::Num(_) => false,
        Node::App(_, _) => false,
    }
}

/// Is one of the terms the variable of a name?
fn has_variable(bank: &Bank, x: Sym, terms: &[TermId]) -> bool
    requires name { IsNamed bank.now x }
    requires terms { All (Stands bank.now) terms.now }
    ensures { result ≡ variable.has_variable (text_at bank.now x) (terms_at bank.now terms.now) }
{
    for t in terms {
        if is_variable(bank, x, *t) {
            return true;
        }
    }
    false
}

/// Is a term a variable that is none of the others?
fn is_apart(bank: &Bank, t: TermId, others: &[TermId]) -> bool
    requires term { Stands bank.now t }
    requires others { All (Stands bank.now) others.now }
    ensures { result ≡ variable.is_apart (term_at bank.now t) (terms_at bank.now others.now) }
{
    match bank.node(t) {
        Node::Var(x) => !has_variable(bank, x, others),
        Node::Num(_) => false,
        Node::App(_, _) => false,
    }
}

/// Are the terms variables, none of which stands twice?
fn are_distinct_variables(bank: &Bank, terms: &[TermId]) -> bool
    requires { All (Stands bank.now) terms.now }
    ensures { result ≡ variable.are_distinct_variables (terms_at bank.now terms.now) }
{
    let mut rest = terms;
    while let [first, more @ ..] = rest {
        if !is_apart(bank, *first, more) {
            return false;
        }
        rest = more;
    }
    true
}

/// Are these the arguments of a destructor call of a variable?
pub fn are_of_destructor(bank: &Bank, x: Sym, arguments: &[TermId]) -> bool
    requires name { IsNamed bank.now x }
    requires arguments { All (Stands bank.now) arguments.now }
    ensures { (f : Name) → result ≡ is_destructor_call (text_at bank.now x) (call f (terms_at bank.now arguments.now)) }
{
    let distinct = are_distinct_variables(bank, arguments);
    let among = has_variable(bank, x, arguments);
    distinct && among
}

/// Does a term hold a destructor call of a variable?
pub fn has_destructor_call(bank: &Bank, x: Sym, t: TermId) -> bool
    requires name { IsNamed bank.now x }
    requires term { Stands bank.now t }
    ensures { result ≡ shape.has_destructor_call (text_at bank.now x) (term_at bank.now t ∷ inner_terms (term_at bank.now t)) }
{
    match bank.node(t) {
        Node::Var(_) => false,
        Node::Num(_) => false,
        Node::App(_, _) => {
            let arguments = bank.args(t);
            if are_of_destructor(bank, x, arguments) {
                return true;
            }
            for a in arguments {
                if has_destructor_call(bank, x, *a) {
                    return true;
                }
            }
            false
        }
    }
}

/// Does a variable stand in a term other than in destructor calls of it?
pub fn stands_apart(bank: &Bank, x: Sym, t: TermId) -> bool
    requires name { IsNamed bank.now x }
    requires term { Stands bank.now t }
    ensures { result ≡ (not (is_destructor_call (text_at bank.now x) (term_at bank.now t)) && stands_apart_within (text_at bank.now x) (term_at bank.now t)) }
{
    match bank.node(t) {
        Node::Var(y) => is_same_name(bank, x, y),
        Node::Num(_) => false,
        Node::App(_, _) => {
            let arguments = bank.args(t);
            if are_of_destructor(bank, x, arguments) {
                return false;
            }
            for a in arguments {
                if stands_apart(bank, x, *a) {
                    return true;
                }
            }
            false
        }
    }
}
