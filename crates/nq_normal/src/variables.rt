//! The variables of terms: whether they are all another term's, and whether a goal has any.
ghost use Rattle.std.specs.Prelude.{◌≡◌, ◌↔◌, ◌&&◌, [], All, IfOk, IfSome, IsTrue, OnOk};
ghost use Rattle.std.specs.List.{list_all};
ghost use Rattle.nq_logic.specs.Names.{has_name};
ghost use Rattle.nq_logic.specs.Admissible.{has_variables};
ghost use Rattle.nq_bank.specs.Content.{Stands, IsNamed, term_at, terms_at, text_at};
ghost use Rattle.nq_goals.specs.Spent.{IsGround};
ghost use Rattle.nq_normal.specs.Variables.{owned, HasOwn};

use crate::barred::is_both;
use crate::known::{keep_answer, known_answer};
use nq_bank::{Bank, Node, Sym, TermId};
use nq_clause::occurs_in;
use std::alloc::AllocError;
use std::collections::HashMap;

/// Is a variable one of the owner's? Without an owner there is none.
fn is_owned(bank: &Bank, owner: Option<TermId>, variable: Sym) -> Result<bool, AllocError>
    requires owner { IfSome owner (Stands bank.now) }
    requires variable { IsNamed bank.now variable }
    ensures { IfOk result (λ answer. answer ≡ has_name (text_at bank.now variable) (owned bank.now owner)) }
{
    match owner {
        Some(t) => occurs_in(bank, variable, t),
        None => Ok(false),
    }
}

/// Is each variable of a term one of the owner's? Each shared node is looked at once.
pub fn has_own(
    bank: &Bank,
    known: &mut HashMap<u64, bool>,
    owner: Option<TermId>,
    t: TermId,
) -> Result<bool, AllocError>
    requires owner { IfSome owner (Stands bank.now) }
    requires stands { Stands bank.now t }
    requires answers { HasOwn bank.now (owned bank.now owner) known.old }
    ensures ok { IfOk result (λ answer. answer ≡ has_variables (owned bank.now owner) (term_at bank.now t)) }
    ensures answers { OnOk result (HasOwn bank.now (owned bank.now owner) known.new) }
{
    match bank.node(t) {
        Node::Var(s) => is_owned(bank, owner, s),
        Node::Num(_) => Ok(true),
        Node::App(_, _) => match known_answer(known, t) {
            Some(answer) => Ok(answer),
            None => {
                let mut answer = true;
                for a in bank.args(t) {
                    let here = has_own(bank, known, owner, *a)?;
                    answer = is_both(answer, here);
                }
                keep_answer(known, t, answer)?;
                Ok(answer)
            }
        },
    }
}

/// Has none of the literals a variable? The table holds what is known so far.
fn are_ground(
    bank: &Bank,
    known: &mut HashMap<u64, bool>,
    goal: &[TermId],
) -> Result<bool, AllocError>
    requires goal { All (Stands bank.now) goal.now }
    requires answers { HasOwn bank.now [] known.old }
    ensures { IfOk result (λ answer. answer ≡ list_all (has_variables []) (terms_at bank.now goal.now)) }
{
    match goal {
        [] => Ok(true),
        [first, rest @ ..] => {
            if has_own(bank, known, None, *first)? {
                are_ground(bank, known, rest)
            } else {
                Ok(false)
            }
        }
    }
}

/// Is the goal ground: has it no variable? Each shared node is looked at once.
pub fn is_ground(bank: &Bank, goal: &[TermId]) -> Result<bool, AllocError>
    requires { All (Stands bank.now) goal.now }
    ensures { IfOk result (λ answer. IsTrue answer ↔ IsGround (terms_at bank.now goal.now)) }
{
    let mut known = HashMap::new(bank.alloc());
    let ground = are_ground(bank, &mut known, goal)?;
    Ok(ground)
}
