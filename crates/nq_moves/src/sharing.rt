//! Whether terms have a variable in common.
ghost use Rattle.std.specs.Prelude.{◌≡◌, All, IfOk, OnOk};
ghost use Rattle.nq_bank.specs.Content.{Stands, term_at, terms_at};
ghost use Rattle.nq_goals.specs.Dropping.{shares, is_tied};
ghost use Rattle.nq_moves.specs.Knowing.{HasAnswers};

use crate::known::{is_either, keep_answer, known_answer};
use nq_bank::{Bank, Node, TermId};
use nq_clause::occurs_in;
use std::alloc::AllocError;
use std::collections::HashMap;

/// Does some variable of t stand in u? Each shared node of t is looked at once.
pub fn shares_variable(bank: &Bank, t: TermId, u: TermId) -> Result<bool, AllocError>
    requires first { Stands bank.now t }
    requires second { Stands bank.now u }
    ensures { IfOk result (λ answer. answer ≡ shares (term_at bank.now t) (term_at bank.now u)) }
{
    let mut known = HashMap::new(bank.alloc());
    shares_within(bank, &mut known, t, u)
}

/// The same, where the answers for some terms are known.
fn shares_within(
    bank: &Bank,
    known: &mut HashMap<u64, bool>,
    t: TermId,
    u: TermId,
) -> Result<bool, AllocError>
    requires first { Stands bank.now t }
    requires second { Stands bank.now u }
    requires answers { HasAnswers bank.now (λ x. shares x (term_at bank.now u)) known.old }
    ensures ok { IfOk result (λ answer. answer ≡ shares (term_at bank.now t) (term_at bank.now u)) }
    ensures answers { OnOk result (HasAnswers bank.now (λ x. shares x (term_at bank.now u)) known.new) }
{
    match bank.node(t) {
        Node::Var(s) => occurs_in(bank, s, u),
        Node::Num(_) => Ok(false),
        Node::App(_, _) => match known_answer(known, t) {
            Some(answer) => Ok(answer),
            None => {
                let mut answer = false;
                for a in bank.args(t) {
                    let here = shares_within(bank, known, *a, u)?;
                    answer = is_either(answer, here);
                }
                keep_answer(known, t, answer)?;
                Ok(answer)
            }
        },
    }
}

/// Has t a variable of one of these?
pub fn is_tied(bank: &Bank, these: &[TermId], t: TermId) -> Result<bool, AllocError>
    requires these { All (Stands bank.now) these.now }
    requires term { Stands bank.now t }
    ensures { IfOk result (λ answer. answer ≡ is_tied (terms_at bank.now these.now) (term_at bank.now t)) }
{
    let mut found = false;
    for u in these {
        let here = shares_variable(bank, *u, t)?;
        found = is_either(found, here);
    }
    Ok(found)
}
