//! Whether a term is ground: whether it has no variable. A walk looks at each shared node once.
ghost use Rattle.std.specs.Prelude.{◌≡◌, ◌↔◌, [], IfOk, IsTrue, OnOk, Some, nat_eq};
ghost use Rattle.std.specs.HashMap.{get, Updates};
ghost use Rattle.nq_logic.specs.RuleShapes.{variables_of};
ghost use Rattle.nq_bank.specs.Content.{Stands, term_at};
ghost use Rattle.nq_evaluated.specs.Ground.{is_ground, HasAnswers};

use nq_bank::{Bank, Node, TermId};
use std::alloc::AllocError;
use std::collections::HashMap;

/// The answer that is known for a term.
fn known_answer(known: &HashMap<u64, bool>, t: TermId) -> Option<bool>
    ensures { result ≡ get nat_eq known.now t.0 }
{
    known.get(&t.0).copied()
}

/// Keeps the answer for a term.
fn keep_answer(known: &mut HashMap<u64, bool>, t: TermId, answer: bool) -> Result<(), AllocError>
    ensures { OnOk result (Updates nat_eq known.old known.new t.0 (Some answer)) }
{
    known.insert(t.0, answer)?;
    Ok(())
}

/// Is a term ground, where the answers for some terms are known?
fn is_ground_within(
    bank: &Bank,
    known: &mut HashMap<u64, bool>,
    t: TermId,
) -> Result<bool, AllocError>
    requires stands { Stands bank.now t }
    requires answers { HasAnswers bank.now known.old }
    ensures ok { IfOk result (λ answer. answer ≡ is_ground (term_at bank.now t)) }
    ensures answers { OnOk result (HasAnswers bank.now known.new) }
{
    match bank.node(t) {
        Node::Var(_) => Ok(false),
        Node::Num(_) => Ok(true),
        Node::App(_, _) => match known_answer(known, t) {
            Some(answer) => Ok(answer),
            None => {
                for a in bank.args(t) {
                    if !is_ground_within(bank, known, *a)? {
                        return Ok(false);
                    }
                }
                keep_answer(known, t, true)?;
                Ok(true)
            }
        },
    }
}

/// Is a term ground?
pub fn is_ground(bank: &Bank, t: TermId) -> Result<bool, AllocError>
    requires { Stands bank.now t }
    ensures { IfOk result (λ answer. IsTrue answer ↔ (variables_of (term_at bank.now t) ≡ [])) }
{
    let mut known = HashMap::new(bank.alloc());
    let ground = is_ground_within(bank, &mut known, t)?;
    Ok(ground)
}
