//! The rule of a term: what stands on the left of its conclusion `(EQUAL t V)`, and the variable on the right.
ghost use Rattle.std.specs.Prelude.{◌≡◌, MatchOption};
ghost use Rattle.nq_logic.specs.RuleShapes.{rule_parts};
ghost use Rattle.nq_logic.specs.Terms.{Term};
ghost use Rattle.nq_logic.specs.Words.{equal_term};
ghost use Rattle.nq_bank.specs.Content.{Stands, term_at};
ghost use Rattle.nq_eliminate.specs.Finding.{HasNoRule, IsRule};

use nq_bank::{Bank, Node, Sym, TermId, ground};
use nq_rules::{conclusion_of, two_of};

/// A rule.
#[derive(Clone, Copy)]
pub struct Rule {
    /// What the variable is made of.
    pub made_of: TermId,
    /// The variable.
    pub variable: TermId,
    /// The name of the variable.
    pub name: Sym,
}

/// The rule of the equation of these sides, where the right one is a variable.
fn rule_of_sides(bank: &Bank, made_of: TermId, variable: TermId) -> Option<Rule>
    requires left { Stands bank.now made_of }
    requires right { Stands bank.now variable }
    ensures { (t : Term) → (rule_parts t).conclusion ≡ equal_term (term_at bank.now made_of) (term_at bank.now variable) → MatchOption result (HasNoRule t) (IsRule bank.now t) }
{
    match bank.node(variable) {
        Node::Var(name) => Some(Rule {
            made_of,
            variable,
            name,
        }),
        Node::Num(_) => None,
        Node::App(_, _) => None,
    }
}

/// The rule of a term, where its conclusion is the equation of something and a variable.
pub fn rule_of(bank: &Bank, t: TermId) -> Option<Rule>
    requires { Stands bank.now t }
    ensures { MatchOption result (HasNoRule (term_at bank.now t)) (IsRule bank.now (term_at bank.now t)) }
{
    let conclusion = conclusion_of(bank, t);
    match two_of(bank, ground::EQUAL, conclusion) {
        Some((made_of, variable)) => rule_of_sides(bank, made_of, variable),
        None => None,
    }
}
