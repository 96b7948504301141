//! The parts of an IF.
ghost use Rattle.std.specs.Prelude.{◌≡◌, All, IfSome};
ghost use Rattle.std.specs.Option.{option_map};
ghost use Rattle.nq_logic.specs.Terms.{call};
ghost use Rattle.nq_bank.specs.Content.{Stands, IsNamed, text_at, term_at, terms_at};
ghost use Rattle.nq_proof.specs.Paths.{if_parts};
ghost use Rattle.nq_rule.specs.Branches.{branches_at, BranchesStand};

use nq_bank::{Bank, Node, Sym, TermId, ground};

/// The test of an IF, and its two branches.
#[derive(Clone, Copy, Debug, PartialEq, Eq)]
pub struct Branches {
    pub test: TermId,
    pub first: TermId,
    pub second: TermId,
}

/// The parts of a term that is an IF.
pub fn branches_in(bank: &Bank, t: TermId) -> Option<Branches>
    requires { Stands bank.now t }
    ensures parts { option_map (branches_at bank.now) result ≡ if_parts (term_at bank.now t) }
    ensures stand { IfSome result (λ b. BranchesStand bank.now b) }
{
    match bank.node(t) {
        Node::App(f, _) => branches_of_call(bank, f, bank.args(t)),
        Node::Num(_) => None,
        Node::Var(_) => None,
    }
}

fn branches_of_call(bank: &Bank, f: Sym, arguments: &[TermId]) -> Option<Branches>
    requires function { IsNamed bank.now f }
    requires arguments { All (Stands bank.now) arguments.now }
    ensures parts { option_map (branches_at bank.now) result ≡ if_parts (call (text_at bank.now f) (terms_at bank.now arguments.now)) }
    ensures stand { IfSome result (λ b. BranchesStand bank.now b) }
{
    if arguments.len() != 3 {
        return None;
    }
    if !bank.is_ground(f, ground::IF) {
        return None;
    }
    Some(Branches {
        test: arguments[0],
        first: arguments[1],
        second: arguments[2],
    })
}
