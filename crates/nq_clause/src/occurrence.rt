//! Whether a variable stands in a term.
ghost use Rattle.std.specs.Prelude.{◌≡◌, ◌||◌, bytes_eq, IfOk, OnOk};
ghost use Rattle.nq_bank.specs.Parts.{occurs};
ghost use Rattle.nq_bank.specs.Content.{Stands, IsNamed, text_at, term_at};
ghost use Rattle.nq_clause.specs.Occurrence.{HasAnswers};

use crate::memo::{keep_answer, known_answer};
use nq_bank::{Bank, Node, Sym, TermId, is_same_name};
use std::alloc::AllocError;
use std::collections::HashMap;

/// Is one of them true? It is a function of its own so that its contract says so in a loop.
fn is_either(left: bool, right: bool) -> bool
    ensures { result ≡ (left || right) }
{
    left || right
}

/// Does a variable stand in a term? Each shared node is looked at once.
pub fn occurs_in(bank: &Bank, variable: Sym, t: TermId) -> Result<bool, AllocError>
    requires variable { IsNamed bank.now variable }
    requires stands { Stands bank.now t }
    ensures { IfOk result (λ answer. answer ≡ occurs (text_at bank.now variable) (term_at bank.now t)) }
{
    let mut known = HashMap::new(bank.alloc());
    occurs_within(bank, &mut known, variable, t)
}

/// Does a variable stand in a term, where the answers for some terms are known?
fn occurs_within(
    bank: &Bank,
    known: &mut HashMap<u64, bool>,
    variable: Sym,
    t: TermId,
) -> Result<bool, AllocError>
    requires variable { IsNamed bank.now variable }
    requires stands { Stands bank.now t }
    requires answers { HasAnswers bank.now (text_at bank.now variable) known.old }
    ensures ok { IfOk result (λ answer. answer ≡ occurs (text_at bank.now variable) (term_at bank.now t)) }
    ensures answers { OnOk result (HasAnswers bank.now (text_at bank.now variable) known.new) }
{
    match bank.node(t) {
        Node::Var(s) => Ok(is_same_name(bank, variable, s)),
        Node::Num(_) => Ok(false),
        Node::App(_, _) => match known_answer(known, t) {
            Some(answer) => Ok(answer),
            None => {
                let mut answer = false;
                for a in bank.args(t) {
                    let here = occurs_within(bank, known, variable, *a)?;
                    answer = is_either(answer, here);
                }
                keep_answer(known, t, answer)?;
                Ok(answer)
            }
        },
    }
}
