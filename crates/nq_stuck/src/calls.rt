//! The calls that stand in terms, each once.
ghost use Rattle.std.specs.Prelude.{◌≡◌, ◌++◌, ◌∷◌, [], All, IfOk, OnOk, nat_eq, Some, true};
ghost use Rattle.std.specs.HashMap.{get, Updates};
ghost use Rattle.nq_bank.specs.Content.{Stands, term_at, terms_at};
ghost use Rattle.nq_stuck.specs.Calls.{AreKnown, Holds, HoldsAll, IsMore};

use crate::fault::Fault;
use nq_bank::{Bank, Node, TermId};
use std::collections::HashMap;

/// The most calls that are looked at where a goal is tested for candidates.
pub const CALL_LIMIT: usize = 2000;

/// Keeps a call, where there are fewer than so many.
fn keep(found: &mut Vec<TermId>, most: usize, t: TermId) -> Result<(), Fault>
    ensures { OnOk result (found.new.items ≡ found.old.items ++ t ∷ []) }
{
    if found.len() >= most {
        return Err(Fault::TooMany);
    }
    match found.push(t) {
        Ok(()) => Ok(()),
        Err(_) => Err(Fault::Memory),
    }
}

/// What is known of a term.
fn known_answer(known: &HashMap<u64, bool>, t: TermId) -> Option<bool>
    ensures { result ≡ get nat_eq known.now t.0 }
{
    known.get(&t.0).copied()
}

/// Keeps that the calls of a term were found.
fn keep_known(known: &mut HashMap<u64, bool>, t: TermId) -> Result<(), Fault>
    ensures { OnOk result (Updates nat_eq known.old known.new t.0 (Some true)) }
{
    match known.insert(t.0, true) {
        Ok(_) => Ok(()),
        Err(_) => Err(Fault::Memory),
    }
}

/// Adds the calls that stand in a term, perhaps itself, where those of some terms are known. Each shared node is looked at once.
fn add_calls(
    bank: &Bank,
    known: &mut HashMap<u64, bool>,
    found: &mut Vec<TermId>,
    most: usize,
    t: TermId,
) -> Result<(), Fault>
    requires stands { Stands bank.now t }
    requires known { AreKnown bank.now known.old found.old.items }
    requires found { All (Stands bank.now) found.old.items }
    ensures holds { OnOk result (Holds bank.now found.new.items (term_at bank.now t)) }
    ensures known { OnOk result (AreKnown bank.now known.new found.new.items) }
    ensures more { OnOk result (IsMore bank.now found.old.items found.new.items) }
    ensures stand { OnOk result (All (Stands bank.now) found.new.items) }
{
    match bank.node(t) {
        Node::Var(_) => Ok(()),
        Node::Num(_) => Ok(()),
        Node::App(_, _) => match known_answer(known, t) {
            Some(_) => Ok(()),
            None => {
                for a in bank.args(t) {
                    add_calls(bank, known, found, most, *a)?;
                }
                keep(found, most, t)?;
                keep_known(known, t)?;
                Ok(())
            }
        },
    }
}

/// The calls that stand in these terms, each once and the inner ones first. A value may be left out. There are too many where there are
/// more than the most that are asked for.
pub fn calls_in(bank: &Bank, terms: &[TermId], most: usize) -> Result<Vec<TermId>, Fault>
    requires { All (Stands bank.now) terms.now }
    ensures holds { IfOk result (λ found. HoldsAll bank.now found.items (terms_at bank.now terms.now)) }
    ensures stand { IfOk result (λ found. All (Stands bank.now) found.items) }
{
    let mut known = HashMap::new(bank.alloc());
    let mut found = Vec::new(bank.alloc());
    for t in terms {
        add_calls(bank, &mut known, &mut found, most, *t)?;
    }
    Ok(found)
}
