//! The variables of terms. The terms of forms are so small as trees that each is walked as one.
ghost use Rattle.std.specs.Prelude.{◌≡◌, IfSome};
ghost use Rattle.nq_logic.specs.RuleShapes.{variables_of};
ghost use Rattle.nq_bank.specs.Content.{IsNamed, Stands, term_at};
ghost use Rattle.nq_admit.specs.Formals.{IsFirstOutside};

use nq_bank::{Bank, Node, Sym, TermId};
use std::collections::HashSet;

/// The first variable of a term that is none of the formals.
pub fn first_free(bank: &Bank, formals: &HashSet<u64>, t: TermId) -> Option<Sym>
    requires { Stands bank.now t }
    ensures is { IsFirstOutside bank.now formals.now (variables_of (term_at bank.now t)) result }
    ensures named { IfSome result (IsNamed bank.now) }
{
    match bank.node(t) {
        Node::Var(s) if formals.contains(&s.0) => None,
        Node::Var(s) => Some(s),
        Node::Num(_) => None,
        Node::App(_, _) => {
            for a in bank.args(t) {
                if let Some(s) = first_free(bank, formals, *a) {
                    return Some(s);
                }
            }
            None
        }
    }
}
