//! Whether a term stands in others.
ghost use Rattle.std.specs.Prelude.{◌≡◌, false, All, IfOk, OnOk};
ghost use Rattle.nq_logic.specs.Values.{is_value};
ghost use Rattle.nq_bank.specs.Content.{Stands, term_at, terms_at};
ghost use Rattle.nq_goals.specs.Replacing.{stands_in, stands_in_one};
ghost use Rattle.nq_moves.specs.Knowing.{HasAnswers};

use crate::clauses::is_same;
use crate::known::{is_either, keep_answer, known_answer};
use nq_bank::{Bank, Node, TermId};
use std::alloc::AllocError;
use std::collections::HashMap;

/// Is a the term, or does it stand in it? It is no value. The answers for some terms are known.
pub fn stands_at(
    bank: &Bank,
    known: &mut HashMap<u64, bool>,
    a: TermId,
    t: TermId,
) -> Result<bool, AllocError>
    requires first { Stands bank.now a }
    requires second { Stands bank.now t }
    requires other { is_value (term_at bank.now a) ≡ false }
    requires answers { HasAnswers bank.now (stands_in (term_at bank.now a)) known.old }
    ensures ok { IfOk result (λ answer. answer ≡ stands_in (term_at bank.now a) (term_at bank.now t)) }
    ensures answers { OnOk result (HasAnswers bank.now (stands_in (term_at bank.now a)) known.new) }
{
    if is_same(bank, a, t) {
        return Ok(true);
    }
    match bank.node(t) {
        Node::Var(_) => Ok(false),
        Node::Num(_) => Ok(false),
        Node::App(_, _) => match known_answer(known, t) {
            Some(answer) => Ok(answer),
            None => {
                let mut answer = false;
                for u in bank.args(t) {
                    let here = stands_at(bank, known, a, *u)?;
                    answer = is_either(answer, here);
                }
                keep_answer(known, t, answer)?;
                Ok(answer)
            }
        },
    }
}

/// Does a stand in one of these? It is no value.
pub fn stands_in_these(bank: &Bank, a: TermId, these: &[TermId]) -> Result<bool, AllocError>
    requires first { Stands bank.now a }
    requires these { All (Stands bank.now) these.now }
    requires other { is_value (term_at bank.now a) ≡ false }
    ensures { IfOk result (λ answer. answer ≡ stands_in_one (term_at bank.now a) (terms_at bank.now these.now)) }
{
    let mut known = HashMap::new(bank.alloc());
    let mut found = false;
    for t in these {
        let here = stands_at(bank, &mut known, a, *t)?;
        found = is_either(found, here);
    }
    Ok(found)
}
