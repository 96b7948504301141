//! Whether a function stands in a term. Each shared node is looked at once.
ghost use Rattle.std.specs.Prelude.{◌≡◌, ◌||◌, All, IfOk, OnOk, Some, nat_eq};
ghost use Rattle.std.specs.HashMap.{get, Updates};
ghost use Rattle.nq_logic.specs.Words.{numeral};
ghost use Rattle.nq_logic.specs.Admissible.{mentions};
ghost use Rattle.nq_bank.specs.Content.{IsNamed, Stands, text_at, term_at, terms_at};
ghost use Rattle.nq_calls.specs.Mentions.{HasMentions, is_mentioned};

use nq_bank::ground::{ADD1, ZERO};
use nq_bank::{Bank, Node, Sym, TermId, is_same_name};
use std::alloc::AllocError;
use std::collections::HashMap;

/// Is one of them true? It is a function of its own so that its contract says so in a loop.
fn is_either(left: bool, right: bool) -> bool
    ensures { result ≡ (left || right) }
{
    left || right
}

/// The answer that is known for a term.
fn known_answer(known: &HashMap<u64, bool>, t: TermId) -> Option<bool>
    ensures { result ≡ get nat_eq known.now t.0 }
{
    known.get(&t.0).copied()
}

/// Keeps the answer for a term.
fn keep_answer(known: &mut HashMap<u64, bool>, t: TermId, answer: bool) -> Result<(), AllocError>
    ensures { OnOk result (Updates nat_eq known.old known.new t.0 (Some answer)) }
{
    known.insert(t.0, answer)?;
    Ok(())
}

/// Does a function stand in a numeral? ZERO stands in each, and ADD1 in each but 0.
fn is_in_numeral(bank: &Bank, f: Sym, n: u128) -> bool
    requires { IsNamed bank.now f }
    ensures { result ≡ mentions (text_at bank.now f) (numeral n) }
{
    bank.is_ground(f, ZERO) || (n > 0 && bank.is_ground(f, ADD1))
}

/// Does a function stand in a term?
pub fn mentions_at(bank: &Bank, f: Sym, t: TermId) -> Result<bool, AllocError>
    requires function { IsNamed bank.now f }
    requires term { Stands bank.now t }
    ensures { IfOk result (λ answer. answer ≡ mentions (text_at bank.now f) (term_at bank.now t)) }
{
    let mut known = HashMap::new(bank.alloc());
    mentions_within(bank, &mut known, f, t)
}

/// Does a function stand in one of these terms?
pub fn are_mentioned(bank: &Bank, f: Sym, terms: &[TermId]) -> Result<bool, AllocError>
    requires function { IsNamed bank.now f }
    requires terms { All (Stands bank.now) terms.now }
    ensures { IfOk result (λ answer. answer ≡ is_mentioned (text_at bank.now f) (terms_at bank.now terms.now)) }
{
    let mut known = HashMap::new(bank.alloc());
    for t in terms {
        if mentions_within(bank, &mut known, f, *t)? {
            return Ok(true);
        }
    }
    Ok(false)
}

/// Does a function stand in a term, where the answers for some terms are known?
pub fn mentions_within(
    bank: &Bank,
    known: &mut HashMap<u64, bool>,
    f: Sym,
    t: TermId,
) -> Result<bool, AllocError>
    requires function { IsNamed bank.now f }
    requires term { Stands bank.now t }
    requires answers { HasMentions bank.now (text_at bank.now f) known.old }
    ensures ok { IfOk result (λ answer. answer ≡ mentions (text_at bank.now f) (term_at bank.now t)) }
    ensures answers { OnOk result (HasMentions bank.now (text_at bank.now f) known.new) }
{
    match bank.node(t) {
        Node::Var(_) => Ok(false),
        Node::Num(n) => Ok(is_in_numeral(bank, f, n)),
        Node::App(g, _) => match known_answer(known, t) {
            Some(answer) => Ok(answer),
            None => {
                let mut inside = false;
                for a in bank.args(t) {
                    let here = mentions_within(bank, known, f, *a)?;
                    inside = is_either(inside, here);
                }
                let answer = is_either(is_same_name(bank, f, g), inside);
                keep_answer(known, t, answer)?;
                Ok(answer)
            }
        },
    }
}
