//! Which variables stand in a term. A walk looks at each shared node once.
ghost use Rattle.std.specs.Prelude.{◌≡◌, All, IfOk, OnOk, Some, nat_eq};
ghost use Rattle.std.specs.HashMap.{get, Updates};
ghost use Rattle.nq_logic.specs.Admissible.{has_variables};
ghost use Rattle.nq_logic.specs.Names.{are_distinct, has_name};
ghost use Rattle.nq_bank.specs.Content.{IsNamed, Stands, term_at, text_at};
ghost use Rattle.nq_bank.specs.Shells.{texts_at};
ghost use Rattle.nq_check.specs.Variables.{HasAnswers};

use nq_bank::{Bank, Node, Sym, TermId, is_same_name};
use std::alloc::AllocError;
use std::collections::HashMap;

/// Is a name one of these?
fn has_name(bank: &Bank, name: Sym, names: &[Sym]) -> bool
    requires name { IsNamed bank.now name }
    requires names { All (IsNamed bank.now) names.now }
    ensures { result ≡ has_name (text_at bank.now name) (texts_at bank.now names.now) }
{
    for other in names {
        if is_same_name(bank, name, *other) {
            return true;
        }
    }
    false
}

/// Does no name stand twice?
pub fn are_distinct(bank: &Bank, names: &[Sym]) -> bool
    requires { All (IsNamed bank.now) names.now }
    ensures { result ≡ are_distinct (texts_at bank.now names.now) }
{
    for i in 0..names.len() {
        if has_name(bank, names[i], &names[i + 1..]) {
            return false;
        }
    }
    true
}

/// The answer that is known for a term.
fn known_answer(known: &HashMap<u64, bool>, t: TermId) -> Option<bool>
    ensures { result ≡ get nat_eq known.now t.0 }
{
    known.get(&t.0).copied()
}

/// Keeps the answer for a term.
fn keep_answer(known: &mut HashMap<u64, bool>, t: TermId, answer: bool) -> Result<(), AllocError>
    ensures { OnOk result (Updates nat_eq known.old known.new t.0 (Some answer)) }
{
    known.insert(t.0, answer)?;
    Ok(())
}

/// Is each variable of a term one of these?
pub fn has_variables(bank: &Bank, names: &[Sym], t: TermId) -> Result<bool, AllocError>
    requires names { All (IsNamed bank.now) names.now }
    requires term { Stands bank.now t }
    ensures { IfOk result (λ answer. answer ≡ has_variables (texts_at bank.now names.now) (term_at bank.now t)) }
{
    let mut known = HashMap::new(bank.alloc());
    has_variables_within(bank, &mut known, names, t)
}

/// The same, where the answers for some terms are known.
fn has_variables_within(
    bank: &Bank,
    known: &mut HashMap<u64, bool>,
    names: &[Sym],
    t: TermId,
) -> Result<bool, AllocError>
    requires names { All (IsNamed bank.now) names.now }
    requires term { Stands bank.now t }
    requires answers { HasAnswers bank.now (texts_at bank.now names.now) known.old }
    ensures ok { IfOk result (λ answer. answer ≡ has_variables (texts_at bank.now names.now) (term_at bank.now t)) }
    ensures answers { OnOk result (HasAnswers bank.now (texts_at bank.now names.now) known.new) }
{
    match bank.node(t) {
        Node::Var(s) => Ok(has_name(bank, s, names)),
        Node::Num(_) => Ok(true),
        Node::App(_, _) => match known_answer(known, t) {
            Some(answer) => Ok(answer),
            None => {
                for a in bank.args(t) {
                    if !has_variables_within(bank, known, names, *a)? {
                        return Ok(false);
                    }
                }
                keep_answer(known, t, true)?;
                Ok(true)
            }
        },
    }
}
